// The program: lines of samples from standard input, their ring or a refusal to standard output. It reads, calls and writes.
#![tactic(auto)]

mod answer;
mod input;

use answer::{ROOM, answer_input};
use input::read;
use std::io;
use std::io::Print;

// so many bytes decide a text: 512 lines of at most 18 bytes, and one more
const ENOUGH: usize = 9217;

fn main(rt: HostRuntime) -> io::Result<()> {
    let mut text = [0u8; ENOUGH];
    let Ok(count) = read(&mut rt.stdin(), &mut text) else {
        return rt
            .stderr()
            .write_all(b"envelope: standard input cannot be read\n");
    };
    let mut out = [0u8; ROOM];
    let printed = answer_input(&text, count, &mut out);
    if rt.stdout().write_all(&out[..printed]).is_err() {
        return rt
            .stderr()
            .write_all(b"envelope: standard output cannot be written\n");
    }
    Ok(())
}
