// A round over a list of sample numbers that lies at the front of a lent part of scratch, with free room behind it. Memory is fixed, and each round shortens the
// list: so a count t beside w says how long it is.
ghost use Rattle.std.specs.Prelude.{◌≡◌, ◌<◌, if◌then◌else◌, int_lt};
ghost use Rattle.slopes.specs.Fractions.{as_slope};
ghost use Rattle.samples.specs.Positions.{east_of};
ghost use Rattle.samples.specs.Sides.{easts, size, seen};
ghost use Rattle.round.specs.Saying.{RoundAsks, RoundSays, FinishAsks, FinishSays};

use super::{keep, pairs, tops};
use samples::sides::Side;
use slopes::{Slope, pick_slope};

// What a round says: the two ends of the bridge, left first, or how many numbers it keeps. Neither is a refusal, so it is no Result.
#[derive(Clone, Copy)]
pub enum Said {
    Found { left: u32, right: u32 },
    Kept(usize),
}

// Two samples as the bridge, left first.
fn two(side: Side, x: u32, y: u32) -> Said
    requires { (x < size side) × (y < size side) }
    ensures { result ≡ (if int_lt (east_of (easts side.entry) x) (east_of (easts side.entry) y) then Said.Found x y else Said.Found y x) }
{
    if side.east(x) < side.east(y) {
        return Said::Found { left: x, right: y };
    }
    Said::Found { left: y, right: x }
}

// A round with K: the tops decide. What is kept lies at the front.
fn finish(side: Side, a: i64, w: &mut [u32], t: usize, k: Slope) -> Said
    requires { FinishAsks (size side) w.old t (as_slope k) }
    ensures { FinishSays (seen side.entry) a (as_slope k) w.old t result w.new }
{
    let top = tops::of_list(side, &w[..t], k);
    if top.from <= a && a < top.to {
        return Said::Found {
            left: top.left,
            right: top.right,
        };
    }
    let m = keep::keep(side, &mut w[..t], k, top.to <= a);
    Said::Kept(m)
}

// A round at a over the t numbers at the front of w. What is kept lies at the front.
pub fn round_of(side: Side, a: i64, w: &mut [u32], t: usize) -> Said
    requires { RoundAsks (size side) w.old t }
    ensures { RoundSays (seen side.entry) a w.old t result w.new }
{
    if t == 2 {
        return two(side, w[0], w[1]);
    }
    let q = pairs::slopes(side, w, t);
    if q == 0 {
        let m = keep::keep(side, &mut w[..t], Slope { rise: 0, run: 1 }, true);
        return Said::Kept(m);
    }
    let k = pick_slope(&mut w[t..], q, q.div_ceil(2));
    finish(side, a, w, t, k)
}
