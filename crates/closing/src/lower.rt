// What is left of the lower chain when a ring is closed: without its right end if that equals the upper right end, and without its left end if that equals
// the upper left end. The upper chain's u places stand at the front of w, the lower chain's l places behind them.

ghost use Rattle.std.specs.Prelude.{◌≡◌, false, ◌<◌};
ghost use Rattle.rules.specs.Streams.{same};
ghost use Rattle.laws_stack.specs.ClosedPlaces.{Right, Closes};
ghost use Rattle.walk.specs.HeldRings.{size, listed_in};
ghost use Rattle.closing.specs.TwoChains.{TwoOf, Both};
ghost use Rattle.closing.specs.HeldChains.{upper_in, lower_in};

use samples::streams::same;
use std::ops::Range;
use walk::corners::Rings;

// The corners at two places of w stand at one position.
fn same_at(rings: Rings, w: &[u32], i: usize, j: usize) -> bool
    requires { TwoOf (size rings) w.now i j }
    ensures { result ≡ same
        (listed_in rings.entry false w.now i)
        (listed_in rings.entry false w.now j) }
{
    same(rings.listed(false, w, i), rings.listed(false, w, j))
}

// How many corners of the lower chain are left after the test of its right end.
fn after_right(rings: Rings, w: &[u32], u: usize, l: usize) -> usize
    requires { Both (size rings) w.now u l × (0 < u) × (0 < l) }
    ensures { Right
        (upper_in rings.entry w.now u) u
        (lower_in rings.entry w.now u) l result }
{
    if same_at(rings, w, u - 1, u + (l - 1)) {
        return l - 1;
    }
    l
}

// The places of the lower chain that are not left out.
pub fn left_in(rings: Rings, w: &[u32], u: usize, l: usize) -> Range<usize>
    requires { Both (size rings) w.now u l }
    ensures { Closes
        (upper_in rings.entry w.now u) u
        (lower_in rings.entry w.now u) l result.start result.end }
{
    if l == 0 {
        return 0..0;
    }
    let hi = after_right(rings, w, u, l);
    if hi == 0 {
        return 0..0;
    }
    if same_at(rings, w, 0, u) {
        return 1..hi;
    }
    0..hi
}
