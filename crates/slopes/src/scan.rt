// Passes over the slopes at the front of scratch.
ghost use mathlib.Core.List.{Memᴰ};
ghost use Rattle.std.specs.Prelude.{◌≡◌, ◌*◌, ◌≤◌, Bool, MatchOption};
ghost use Rattle.rules.specs.Round.{slope_le};
ghost use Rattle.rules.specs.Round as rules;
ghost use Rattle.laws_ranks.specs.Counts.{not_by};
ghost use Rattle.laws_ranks.specs.Ranks.{under, over};
ghost use Rattle.slopes.specs.Fractions.{as_slope, fractions, Near, Pickable};
ghost use Rattle.slopes.specs.Passes.{Listed, Roomy, Clear, Parted, Kept, KeptFrom, Lifted, Answers, Narrowed};

use super::words::copy;
use super::{Fraction, Slope};
use std::hint::select_unpredictable;

// How many slopes lie below another, and how many above.
// This and Rest stand in picker too: neither crate uses the other, and a crate for two pairs of numbers is no plainer.
#[derive(Clone, Copy)]
struct Counts {
    below: usize,
    above: usize,
}

// Parts the n slopes at the front: those below p are left at the front, and those above it behind the n, in their order. Each is stored at both places, and the
// places move on by the tests.
fn part(w: &mut [u32], n: usize, p: Slope) -> Counts
    requires { Roomy n w.old × Near (as_slope p) }
    ensures { Parted n w.old w.new (as_slope p) result }
{
    let mut below: usize = 0;
    let mut above: usize = 0;
    for i in 0..n {
        let s = Slope::at(w, i);
        copy(w, i, n + above);
        copy(w, i, below);
        below += s.below(p) as usize;
        above += p.below(s) as usize;
    }
    Counts { below, above }
}

// Keeps those of the n slopes at the front that pass, in their order, from place m on, and says how many they are: the first place, or one behind the n. Each is
// stored, and the place moves on by the test.
fn keep<F: Fn(Slope) -> bool>(w: &mut [u32], n: usize, m: usize, passes: F) -> usize
    ghost test: { rules.Slope → Bool }
    requires clear { Clear n m w.old }
    requires called { (s : _) → Near (as_slope s) → F.pre passes s }
    requires told { (s : _) (t : _) → Near (as_slope s) → F.post passes s t → t ≡ test (as_slope s) }
    ensures { KeptFrom test n m w.old w.new result }
{
    let mut kept: usize = 0;
    for i in 0..n {
        let s = Slope::at(w, i);
        copy(w, i, m + kept);
        kept += passes(s) as usize;
    }
    kept
}

// Keeps those that are not below p behind the n.
pub fn not_below(w: &mut [u32], n: usize, p: Slope) -> usize
    requires { Roomy n w.old × Near (as_slope p) }
    ensures { KeptFrom (not_by (under slope_le (as_slope p))) n n w.old w.new result }
{
    keep(w, n, n, move |s| !s.below(p))
}

// Keeps those that are not above p at the front.
pub fn not_above(w: &mut [u32], n: usize, p: Slope) -> usize
    requires { Listed n w.old × Near (as_slope p) }
    ensures { Kept (not_by (over slope_le (as_slope p))) n w.old w.new result }
{
    keep(w, n, 0, move |s| !p.below(s))
}

// Takes the least of the n slopes at the front out; the others close up.
fn least(w: &mut [u32], n: usize) -> Slope
    requires { Listed n w.old × (1 ≤ n) }
    ensures { Lifted n w.old (as_slope result) w.new }
{
    let mut p = Fraction::at(w, 0);
    for i in 0..n - 1 {
        let f = Fraction::at(w, i + 1);
        let under = f.slope().below(p.slope());
        select_unpredictable(under, p, f).store(w, i);
        p = select_unpredictable(under, f, p);
    }
    p.slope()
}

// The slope of rank r in a short list: the least is taken out until it has the rank.
// As in picker, but over two words for each item: a trait for both lists is longer than the loop.
pub fn short(w: &mut [u32], n: usize, r: usize) -> Slope
    requires { Pickable n r w.old }
    ensures { Answers r (fractions n w.old) (as_slope result) }
{
    for i in 0..r - 1 {
        least(w, n - i);
    }
    least(w, n - (r - 1))
}

// How many slopes are left, and which rank is sought among them.
#[derive(Clone, Copy)]
pub struct Rest {
    pub n: usize,
    pub r: usize,
}

// One step by the pivot p, one of the n slopes: those below it are left, or those above it, whichever have the rank; none where p itself has it.
pub fn narrow(w: &mut [u32], n: usize, r: usize, p: Slope) -> Option<Rest>
    requires { Pickable n r w.old × Memᴰ (as_slope p) (fractions n w.old) }
    ensures { MatchOption result (Answers r (fractions n w.old) (as_slope p)) (λ s. Narrowed n r w.old w.new s.n s.r) }
{
    let Counts { below, above } = part(w, n, p);
    let upto = n - above;
    if r <= below {
        return Some(Rest { n: below, r });
    }
    if r <= upto {
        return None;
    }
    w.copy_within(2 * n..2 * (n + above), 0);
    Some(Rest {
        n: above,
        r: r - upto,
    })
}
