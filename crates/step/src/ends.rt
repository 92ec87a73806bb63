// The ends of the samples, by number, and whether two samples stand at one position.
ghost use Rattle.std.specs.Prelude.{◌≡◌, ◌<◌, drop};
ghost use Rattle.rules.specs.Streams.{same};
ghost use Rattle.laws_rounds.specs.WholeList.{numbers};
ghost use Rattle.samples.specs.HeldStream.{stream_of};
ghost use Rattle.samples.specs.Sides.{size, seen};
ghost use Rattle.step.specs.Ends.{nearer, nearest, EndAsks};

use samples::sides::Side;
use samples::streams::{Stream, leftmost, same};

// p is nearer the right end than q, or else nearer the left end: with the easts exchanged, what is nearer the right end is nearer the left end.
fn nearer(p: Stream, q: Stream, right: bool) -> bool
    ensures { result ≡ nearer right (stream_of p) (stream_of q) }
{
    if right {
        return leftmost(
            Stream {
                east: q.east,
                north: p.north,
            },
            Stream {
                east: p.east,
                north: q.north,
            },
        );
    }
    leftmost(p, q)
}

// The right end of the samples, or else their left end, by the lowest number at its position.
pub fn end_of(s: Side, right: bool) -> u32
    requires { EndAsks (size s) }
    ensures { result ≡ nearest (seen s.entry) right (drop 1 (numbers (size s.entry))) }
{
    let mut x = 0;
    for y in 1..s.samples.east.len() as u32 {
        if nearer(s.position(y), s.position(x), right) {
            x = y;
        }
    }
    x
}

// Two samples stand at one position.
pub fn together(s: Side, x: u32, y: u32) -> bool
    requires { (x < size s) × (y < size s) }
    ensures { result ≡ same (seen s.entry x) (seen s.entry y) }
{
    same(s.position(x), s.position(y))
}
