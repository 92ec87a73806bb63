// Standard input, read. No contract can say which bytes come; this one says that a count of them fits.

ghost use Rattle.std.specs.Prelude.{◌≤◌, length, IfOk};

use std::io::{Read, Result, Stdin};

// Reads until the text is full or the input ends: how many bytes came.
pub fn read(stdin: &mut Stdin, text: &mut [u8]) -> Result<usize>
    ensures { IfOk result (λ count. count ≤ length text.new) }
{
    let mut count: usize = 0;
    while count < text.len() {
        let more = stdin.read(&mut text[count..])?;
        if more == 0 {
            break;
        }
        count += more;
    }
    Ok(count)
}
