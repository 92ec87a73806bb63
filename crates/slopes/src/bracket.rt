// A bracket: the slopes from one a little below a rank up to one a little above it, for the rank to be picked among these few.
ghost use Rattle.std.specs.Prelude.{◌*◌, ◌≤◌, IfSome};
ghost use Rattle.slopes.specs.Fractions.{as_slope, Pickable, Near};
ghost use Rattle.slopes.specs.Passes.{Alike, Roomy, Pivoted, Bracketed};

use super::gather::sample;
use super::scan::{Rest, not_above, not_below};
use super::{Slope, pick};

// How the ends are found: one of every so many slopes is sampled, and in the sample they stand so many places below and above the rank.
#[derive(Clone, Copy)]
struct Sampling {
    every: usize,
    reach: usize,
}

impl Sampling {
    // For n slopes. The reach is four fifths of the root of the sample's size: the rank falls outside about once in ten times.
    fn of(n: usize) -> Sampling
        requires { 400 ≤ n }
        ensures { (8 ≤ result.every) × (result.every ≤ n) × (result.reach ≤ 13) }
    {
        if n < 1500 {
            Sampling {
                every: n / 36,
                reach: 5,
            }
        } else if n < 8000 {
            Sampling {
                every: n / 100,
                reach: 8,
            }
        } else {
            Sampling {
                every: n / 256,
                reach: 13,
            }
        }
    }
}

// One of the n slopes: that of rank r in a sample of one of every d, or the greatest of a smaller sample.
fn sampled(w: &mut [u32], n: usize, d: usize, r: usize) -> Slope
    requires { Roomy n w.old × (40 ≤ n) × (8 ≤ d) × (d ≤ n) × (1 ≤ r) }
    ensures { Pivoted n w.old w.new (as_slope result) }
{
    let g = sample(w, n, d);
    pick(&mut w[2 * n..], g, r.min(g), false)
}

// Keeps the slopes from low up to high behind the n, and says how many they are and which rank is sought among them: none where it is not, or where they are more than
// half.
fn enclosed(w: &mut [u32], n: usize, r: usize, low: Slope, high: Slope) -> Option<Rest>
    requires { Pickable n r w.old × Near (as_slope low) × Near (as_slope high) }
    ensures same { Alike (2 * n) w.old w.new }
    ensures few { IfSome result (λ s. Bracketed n r w.old w.new s.n s.r) }
{
    let a = not_below(w, n, low);
    let below = n - a;
    if r <= below {
        return None;
    }
    let k = not_above(&mut w[2 * n..], a, high);
    let t = r - below;
    if k < t || n < 2 * k {
        return None;
    }
    Some(Rest { n: k, r: t })
}

// The same, from one a little below rank r up to one a little above it: none of fewer than 400.
pub fn bracket(w: &mut [u32], n: usize, r: usize) -> Option<Rest>
    requires { Pickable n r w.old }
    ensures same { Alike (2 * n) w.old w.new }
    ensures few { IfSome result (λ s. Bracketed n r w.old w.new s.n s.r) }
{
    if n < 400 {
        return None;
    }
    let Sampling { every, reach } = Sampling::of(n);
    let m = r / every;
    let low = sampled(w, n, every, m.saturating_sub(reach).max(1));
    let high = sampled(w, n, every, m + reach + 1);
    enclosed(w, n, r, low, high)
}
