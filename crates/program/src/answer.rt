// What the program prints for a text: the ring of its samples, or a refusal. No heap: every list is an array of the size that the rules bound it by.

ghost use Rattle.std.specs.Prelude.{◌≡◌, ◌≤◌, length};
ghost use Rattle.rules.specs.Lists.{written};
ghost use Rattle.rules.specs.Streams.{streams};
ghost use Rattle.rules.specs.Refusals.{done};
ghost use Rattle.rules.specs.Program.{ring_of_text, printed, program};
ghost use Rattle.program.specs.Prints.{Answers};

use ring::ring;
use text::printing::{print_refusal, print_ring};
use text::reading::samples;

// at most so many lines, and so samples
const SAMPLES: usize = 512;

// the corners of two chains of so many samples
const CORNERS: usize = 1024;

// 16 words for each sample and 64 more
const SCRATCH: usize = 8256;

// the bytes of the longest answer: "ring 1024" and a line of at most 18 bytes for each corner
pub const ROOM: usize = 18442;

// What is printed for an input of any length, whose first count bytes stand in text: all of its bytes, where they leave room. A text of 9,217 bytes is long
// enough: no byte behind it changes anything.
pub fn answer_input(text: &[u8], count: usize, out: &mut [u8; ROOM]) -> usize
    requires in_bounds { 9217 ≤ length text.now }
    requires count_in_bounds { count ≤ length text.now }
    ensures { Answers text.now count result out.old out.new }
{
    answer(&text[..count], out)
}

// What is printed for a text of any bytes, at the front of out: how many bytes that are.
pub fn answer(text: &[u8], out: &mut [u8; ROOM]) -> usize
    ensures count { result ≡ length (program text.now) }
    ensures content { out.new ≡ written (program text.now) out.old }
{
    let mut east = [0i32; SAMPLES];
    let mut north = [0i32; SAMPLES];
    match samples(text, &mut east, &mut north) {
        Ok(count) => print_ring_of(&east[..count], &north[..count], out),
        Err(refusal) => print_refusal(refusal.reason.number(), refusal.place, out), // of the text
    }
}

// The ring of samples, printed, once 3 is tested.
fn print_ring_of(east: &[i32], north: &[i32], out: &mut [u8; ROOM]) -> usize
    requires east_len { length east.now ≡ length north.now }
    requires east_len_bound { length east.now ≤ 512 }
    ensures count { result ≡ length (printed (ring_of_text (done (streams east.now north.now)))) }
    ensures content { out.new ≡ written (printed (ring_of_text (done (streams east.now north.now)))) out.old }
{
    let mut ring_east = [0i32; CORNERS];
    let mut ring_north = [0i32; CORNERS];
    let mut scratch = [0u32; SCRATCH];
    match ring(east, north, &mut ring_east, &mut ring_north, &mut scratch) {
        Ok(count) => print_ring(&ring_east[..count], &ring_north[..count], out),
        Err(refusal) => print_refusal(refusal.reason.number(), refusal.place, out), // of the samples
    }
}
