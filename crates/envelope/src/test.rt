// The tests of a ring that comes as two lists. Is it an envelope: one pass over its corners, each looked at with the two before it.

ghost use Rattle.std.specs.Prelude.{◌≡◌, ◌≤◌, length};
ghost use Rattle.rules.specs.Use.{envelope};
ghost use Rattle.rules.specs.Refusals.{unless};
ghost use Rattle.rules.specs.Entries.{two_ring_tests};
ghost use Rattle.laws_neighbours.specs.NeighbourTest.{turns, closes};
ghost use Rattle.samples.specs.Positions.{Near};
ghost use Rattle.samples.specs.HeldStream.{stream_of};
ghost use Rattle.samples.specs.Answers.{answer_of};
ghost use Rattle.envelope.specs.CornersNear.{CornersNear};
ghost use Rattle.envelope.specs.RoundTheRing.{round_from};
ghost use Rattle.envelope.specs.Tests.{stream_tests, alone_tests};

use samples::corners::{Corners, Lists};
use samples::listed::Samples;
use samples::refusals::{Reason, Refusal};
use samples::streams::{Stream, beyond, leftmost, strictly_right};
use samples::tests::MOST;

// At b, come to from a, the ring turns strictly right to c; and from a side that does not go east only to one that goes west.
pub fn turns(a: Stream, b: Stream, c: Stream) -> bool
    requires { Near (stream_of a) × Near (stream_of b) × Near (stream_of c) }
    ensures { result ≡ turns (stream_of a) (stream_of b) (stream_of c) }
{
    if strictly_right(a, b, c) {
        if a.east < b.east {
            return true;
        }
        return c.east < b.east;
    }
    false
}

// At the last corner b, come to from a, the ring turns strictly right to its first corner, and goes there west or straight up.
pub fn closes(a: Stream, b: Stream, first: Stream) -> bool
    requires { Near (stream_of a) × Near (stream_of b) × Near (stream_of first) }
    ensures { result ≡ closes (stream_of a) (stream_of b) (stream_of first) }
{
    if strictly_right(a, b, first) {
        return first.east <= b.east;
    }
    false
}

// From place 0 to place 1, over all corners and back to place 0.
fn goes_round<C: Corners>(ring: &C) -> bool
    requires { CornersNear (C.corners ring.now) × (2 ≤ length (C.corners ring.now)) }
    ensures { result ≡ round_from (C.corners ring.now) 2 }
{
    let n = ring.count();
    for i in 2..n {
        if !turns(ring.corner(i - 2), ring.corner(i - 1), ring.corner(i)) {
            return false;
        }
    }
    closes(ring.corner(n - 2), ring.corner(n - 1), ring.corner(0))
}

// The ring equals the ring of its own positions.
pub fn is_envelope<C: Corners>(ring: &C) -> bool
    requires { CornersNear (C.corners ring.now) }
    ensures { result ≡ envelope (C.corners ring.now) }
{
    let n = ring.count();
    if n < 2 {
        return true;
    }
    let first = ring.corner(0);
    let second = ring.corner(1);
    if n == 2 {
        return leftmost(first, second);
    }
    if first.east < second.east {
        return goes_round(ring);
    }
    false
}

// The tests of a ring and of a stream, which is tested for 3 after the ring's own 3: 1, 2, 3, 3, 9.
pub fn of_ring_and_stream(east: &[i32], north: &[i32], s: Stream) -> Result<(), Refusal>
    ensures { answer_of result ≡ unless (stream_tests east.now north.now (stream_of s)) tt }
{
    Samples::tested(east, north)?;
    if beyond(s) {
        return Err(Reason::PartBeyond.into());
    }
    if !is_envelope(&Lists { east, north }) {
        return Err(Reason::NotEnvelope.into());
    }
    Ok(())
}

// The tests of a ring alone, 1, 2, 3, 9: those with a stream that is within the limit.
pub fn of_ring(east: &[i32], north: &[i32]) -> Result<(), Refusal>
    ensures { answer_of result ≡ unless (alone_tests east.now north.now) tt }
{
    of_ring_and_stream(east, north, Stream { east: 0, north: 0 })
}

// The tests of two rings, with scratch for both: the first ring's 1, 2, 3, 9, the second's, then 2 for both, 4.
pub fn two_rings(
    east: &[i32],
    north: &[i32],
    east2: &[i32],
    north2: &[i32],
    scratch: &[u32],
) -> Result<(), Refusal>
    ensures { answer_of result ≡ unless (two_ring_tests east.now north.now east2.now north2.now scratch.now) tt }
{
    of_ring(east, north)?;
    of_ring(east2, north2)?;
    let both = east.len() + east2.len();
    if MOST < both {
        return Err(Reason::TooMany.into());
    }
    if scratch.len() < 16 * both + 64 {
        return Err(Reason::ScratchShort.into());
    }
    Ok(())
}
