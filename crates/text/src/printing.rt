// The program's answer, printed at the front of a buffer whose rest stays as it is.

ghost use Rattle.std.specs.Prelude.{◌≡◌, [], ◌∷◌, ◌++◌, ◌+◌, ◌≤◌, length};
ghost use Rattle.rules.specs.Lists.{written};
ghost use Rattle.rules.specs.Streams.{streams};
ghost use Rattle.rules.specs.Refusals.{refused, done};
ghost use Rattle.rules.specs.Program.{printed_natural, printed_whole, printed_corners, printed};
ghost use Rattle.samples.specs.Placed.{Put};
ghost use Rattle.text.specs.PrintedCorners.{printed_corner};

// "ring" and the corner count, then a line per corner: how many bytes that are.
pub fn print_ring(east: &[i32], north: &[i32], out: &mut [u8]) -> usize
    requires east_len { length east.now ≡ length north.now }
    requires north_in_bounds { length (printed (done (streams east.now north.now))) ≤ length out.old }
    ensures count { result ≡ length (printed (done (streams east.now north.now))) }
    ensures content { out.new ≡ written (printed (done (streams east.now north.now))) out.old }
{
    let counted = put_headed(b"ring ", east.len(), out);
    let at = put_byte(b'\n', out, counted);
    put_corners(east, north, out, at)
}

// "refused", the number and the place: how many bytes that are.
pub fn print_refusal(number: u32, place: usize, out: &mut [u8]) -> usize
    requires { length (printed (refused number place)) ≤ length out.old }
    ensures count { result ≡ length (printed (refused number place)) }
    ensures content { out.new ≡ written (printed (refused number place)) out.old }
{
    let numbered = put_headed(b"refused ", number as usize, out);
    let spaced = put_byte(b' ', out, numbered);
    let placed = put_natural(place, out, spaced);
    put_byte(b'\n', out, placed)
}

// A word and a number, at the front. The buffer and a place go on side by side: as one struct, each contract below would name two fields before and after,
// where `Put` has the buffer's two states and the two places.
fn put_headed(word: &[u8], n: usize, out: &mut [u8]) -> usize
    requires { length word.now + length (printed_natural n) ≤ length out.old }
    ensures { Put (word.now ++ printed_natural n) 0 out.old out.new result }
{
    let at = put(word, out, 0);
    put_natural(n, out, at)
}

// A line per corner.
fn put_corners(east: &[i32], north: &[i32], out: &mut [u8], from: usize) -> usize
    requires east_len { length east.now ≡ length north.now }
    requires north_in_bounds { from + length (printed_corners (streams east.now north.now)) ≤ length out.old }
    ensures { Put (printed_corners (streams east.now north.now)) from out.old out.new result }
{
    let mut at = from;
    for (e, n) in east.iter().zip(north) {
        at = put_corner(*e, *n, out, at);
    }
    at
}

// East and north, one space between.
fn put_corner(east: i32, north: i32, out: &mut [u8], at: usize) -> usize
    requires { at + length (printed_corner east north) ≤ length out.old }
    ensures { Put (printed_corner east north) at out.old out.new result }
{
    let easted = put_whole(east, out, at);
    let spaced = put_byte(b' ', out, easted);
    let northed = put_whole(north, out, spaced);
    put_byte(b'\n', out, northed)
}

// A whole number.
fn put_whole(z: i32, out: &mut [u8], at: usize) -> usize
    requires { at + length (printed_whole z) ≤ length out.old }
    ensures { Put (printed_whole z) at out.old out.new result }
{
    if z < 0 {
        let next = put_byte(b'-', out, at);
        return put_natural(z.unsigned_abs() as usize, out, next);
    }
    put_natural(z.unsigned_abs() as usize, out, at)
}

// A number, from its last digit to its first. By hand, as a String would need the heap.
fn put_natural(n: usize, out: &mut [u8], at: usize) -> usize
    requires { at + length (printed_natural n) ≤ length out.old }
    ensures { Put (printed_natural n) at out.old out.new result }
{
    let next = at + width(n);
    let mut left = n;
    let mut i = next - 1;
    while 10 <= left {
        out[i] = b'0' + (left % 10) as u8;
        left = left / 10;
        i -= 1;
    }
    out[i] = b'0' + left as u8;
    next
}

// How many digits a number has.
fn width(n: usize) -> usize
    ensures { result ≡ length (printed_natural n) }
{
    let mut left = n;
    let mut digits: usize = 1;
    while 10 <= left {
        left = left / 10;
        digits += 1;
    }
    digits
}

// Bytes as they are.
fn put(bytes: &[u8], out: &mut [u8], at: usize) -> usize
    requires { at + length bytes.now ≤ length out.old }
    ensures { Put bytes.now at out.old out.new result }
{
    let next = at + bytes.len();
    out[at..next].copy_from_slice(bytes);
    next
}

fn put_byte(b: u8, out: &mut [u8], at: usize) -> usize
    requires { at + 1 ≤ length out.old }
    ensures { Put (b ∷ []) at out.old out.new result }
{
    out[at] = b;
    at + 1
}
