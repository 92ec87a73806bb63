// The chain of both rings' corners, or of the corners mirrored, by a stack. Each corner, as it is drawn, takes away the topmost corners at which the way
// on to it does not turn strictly right, and is put on top. This is Andrew's chain, over corners that need no sorting. The stack lies at the front of lent scratch
// with its count beside it: no heap.

ghost use Rattle.std.specs.Prelude.{◌≡◌, ◌+◌, ◌≤◌, ◌<◌, length};
ghost use Rattle.samples.specs.Positions.{Near};
ghost use Rattle.samples.specs.HeldStream.{stream_of};
ghost use Rattle.laws_stack.specs.Stack.{stays};
ghost use Rattle.walk.specs.TwoRings.{Stand, Coming, Settled, Next, Hides, Taken};
ghost use Rattle.walk.specs.HeldRings.{size, seen_at, listed_in};
ghost use Rattle.walk.specs.Ways.{Ways, Chained};

use crate::corners::{Rings, south, west};
use crate::draw::{Way, draw};
use samples::streams::{Stream, strictly_right};

// The topmost corner of the stack stays when s comes.
fn stays(rings: Rings, lower: bool, w: &[u32], top: usize, s: Stream) -> bool
    requires { Stand (size rings) w.now top
        × Near (stream_of s) }
    ensures { result ≡ stays (listed_in rings.entry lower w.now)
        top (stream_of s) }
{
    if top == 0 {
        return true;
    }
    let q = rings.listed(lower, w, top - 1);
    if top == 1 {
        return west(q, s);
    }
    let p = rings.listed(lower, w, top - 2);
    strictly_right(p, q, s)
}

// How many corners of the stack stay when s comes.
fn settled(rings: Rings, lower: bool, w: &[u32], top: usize, s: Stream) -> usize
    requires { Stand (size rings) w.now top × Near (stream_of s)
        × Coming (listed_in rings lower w.now) top (stream_of s) }
    ensures { Settled (listed_in rings.entry lower w.now)
        top (stream_of s) result }
{
    // a count that falls until a test holds: a range would need the same test and a break
    let mut t = top;
    while !stays(rings, lower, w, t, s) {
        t -= 1;
    }
    t
}

// The topmost corner of the stack hides s, which comes from the west: s is at its east and not above it.
fn hides(rings: Rings, lower: bool, w: &[u32], top: usize, s: Stream) -> bool
    requires { Stand (size rings) w.now top
        × Next (listed_in rings lower w.now) top (stream_of s) }
    ensures { Hides (listed_in rings.entry lower w.now)
        top (stream_of s) result }
{
    if top == 0 {
        return false;
    }
    let q = rings.listed(lower, w, top - 1);
    if west(q, s) {
        return false;
    }
    !south(q, s)
}

// The corner at place k comes to the stack at the front of w.
fn taken(rings: Rings, lower: bool, w: &mut [u32], top: usize, k: usize) -> usize
    requires { (k < size rings)
        × Stand (size rings) w.old top × (top < length w.old)
        × Next (listed_in rings lower w.old) top (seen_at rings lower k) }
    ensures { Taken rings.entry.east.now rings.entry.north.now rings.entry.east2.now rings.entry.north2.now lower
        w.old top k w.new result }
{
    let s = rings.seen(lower, k);
    if hides(rings, lower, w, top, s) {
        return top;
    }
    let t = settled(rings, lower, w, top, s);
    w[t] = k as u32;
    t + 1
}

// The upper chain of both rings' corners, or of the corners mirrored, over a way of each ring: the places of its corners at the front of w, and how many
// they are.
pub fn chain(rings: Rings, lower: bool, a: Way, b: Way, w: &mut [u32]) -> usize
    requires { Ways rings.east.now rings.north.now rings.east2.now rings.north2.now lower a b × (a.count + b.count ≤ length w.old) }
    ensures { Chained rings.entry.east.now rings.entry.north.now rings.entry.east2.now rings.entry.north2.now lower a b w.new result }
{
    // of k corners drawn, i are the first way's and j the second's
    let mut i = 0;
    let mut j = 0;
    let mut top = 0;
    for _k in 0..a.count + b.count {
        let x = draw(rings, lower, a, b, i, j);
        top = taken(rings, lower, w, top, x.place);
        i = x.first;
        j = x.second;
    }
    top
}
