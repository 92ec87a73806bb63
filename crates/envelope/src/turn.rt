// Turning about: the ring of all positions with both signs changed. It is the same cycle of corners, entered at the corner with the greatest east
// and, among those, the least north.

ghost use Rattle.std.specs.Prelude.{◌≡◌, true, map, ◌≤◌, ◌<◌, neg_ℤ, length};
ghost use Rattle.rules.specs.Lists.{written};
ghost use Rattle.rules.specs.Chain.{leftmost};
ghost use Rattle.rules.specs.Streams.{sample};
ghost use Rattle.rules.specs.Use.{envelope};
ghost use Rattle.envelope.specs.CornersNear.{CornersNear};
ghost use Rattle.envelope.specs.UseAnswers.{TurnPromise};
ghost use Rattle.envelope.specs.Turns.{Entry, AllNear, turned_from};
ghost use Rattle.envelope.specs.Begins.{After, Begins, changed_if, turned_if};
ghost use Rattle.samples.specs.Positions.{Near};
ghost use Rattle.samples.specs.HeldStream.{stream_of};

use crate::test::of_ring;
use samples::corners::{Corners, Lists};
use samples::refusals::{Reason, Refusal};
use samples::streams::Stream;
use samples::tests::too_short;

// p is nearer the left end than q, as `samples` `leftmost` says without a jump. On a ring a processor foretells these jumps; without them each step of the scan
// waits for the corner of the step before.
fn leftmost_by_jumps(p: Stream, q: Stream) -> bool
    ensures { result ≡ leftmost (stream_of p) (stream_of q) }
{
    if p.east < q.east {
        return true;
    }
    if p.east == q.east {
        return q.north < p.north;
    }
    false
}

// The first place of the corner with the greatest east and, among those, the least north.
pub fn entry<C: Corners>(ring: &C) -> usize
    requires { envelope (C.corners ring.now) ≡ true }
    ensures { Entry (C.corners ring.now) result }
{
    let mut best = 0;
    for i in 1..ring.count() {
        if leftmost_by_jumps(ring.corner(best), ring.corner(i)) {
            best = i;
        }
    }
    best
}

// The place of the corner with which the ring begins, as it is or turned about.
pub fn first_corner<C: Corners>(about: bool, ring: &C) -> usize
    requires { envelope (C.corners ring.now) ≡ true }
    ensures { Begins about (C.corners ring.now) result }
{
    if about {
        return entry(ring);
    }
    0
}

// The place that comes i places after a start, round n of them.
pub fn place_after(start: usize, i: usize, n: usize) -> usize
    requires { (start ≤ n) × (i < n) }
    ensures { After n start i result }
{
    let rest = n - start;
    if i < rest {
        return start + i;
    }
    i - rest
}

// The stream with both signs changed where it is turned about, or as it is.
pub fn changed(about: bool, s: Stream) -> Stream
    requires { Near (stream_of s) }
    ensures { stream_of result ≡ changed_if about (stream_of s) }
{
    if about {
        return Stream {
            east: -s.east,
            north: -s.north,
        };
    }
    s
}

// The corner at place i of the ring as it is or turned about, which begins with the corner at place first.
pub fn turned_corner<C: Corners>(about: bool, first: usize, ring: &C, i: usize) -> Stream
    requires { CornersNear (C.corners ring.now) × Begins about (C.corners ring.now) first × (i < length (C.corners ring.now)) }
    ensures { stream_of result ≡ sample (turned_if about (C.corners ring.now)) i }
{
    changed(about, ring.corner(place_after(first, i, ring.count())))
}

// The parts with the sign changed, at the front of out.
fn negate(parts: &[i32], out: &mut [i32])
    requires { AllNear parts.now × (length parts.now ≤ length out.old) }
    ensures { out.new ≡ written (map neg_ℤ parts.now) out.old }
{
    for i in 0..parts.len() {
        out[i] = -parts[i];
    }
}

// The parts with the sign changed, from a place on and round, at the front of out.
fn negate_from(parts: &[i32], start: usize, out: &mut [i32])
    requires { AllNear parts.now × (start ≤ length parts.now) × (length parts.now ≤ length out.old) }
    ensures { out.new ≡ written (turned_from start parts.now) out.old }
{
    let rest = parts.len() - start;
    negate(&parts[start..], out);
    negate(&parts[..start], &mut out[rest..]);
}

// The ring turned about, written to the front of both outputs, unless refused: 1, 2, 3, 9, 5. A refusal alters nothing.
pub fn turn_about(
    east: &[i32],
    north: &[i32],
    out_east: &mut [i32],
    out_north: &mut [i32],
) -> Result<usize, Refusal>
    ensures { TurnPromise east.now north.now out_east.old out_north.old result
        out_east.new out_north.new }
{
    of_ring(east, north)?;
    if too_short(out_east.len(), out_north.len(), east.len()) {
        return Err(Reason::OutputShort.into());
    }
    let start = entry(&Lists { east, north });
    negate_from(east, start, out_east);
    negate_from(north, start, out_north);
    Ok(east.len())
}
