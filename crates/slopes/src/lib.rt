// The pick of a slope: the slope of a given rank among those that lie at the front of scratch, two words each. Slopes are compared by cross products and
// never divided. A step parts the slopes below a pivot from those above it and goes on with the side that has the rank; correctness needs only that the pivot is
// one of the slopes. Of twelve slopes or fewer the least is taken out until it has the rank. Of 400 or more, first those well below the rank and well above it are left
// out. The scratch w is longer than the slopes: a count beside it says how many lie at its front, and the room behind them is worked in. So memory is fixed.
#![tactic(auto)]

mod bracket;
mod gather;
mod scan;
mod words;

ghost use Rattle.std.specs.Prelude.{◌≤◌};
ghost use Rattle.slopes.specs.Fractions.{as_slope, fractions, Pickable, Picked};
ghost use Rattle.slopes.specs.Passes.{Roomy, Pivoted, Answers};

// Rise over run, the run above zero.
#[derive(Clone, Copy)]
pub struct Slope {
    pub rise: i32,
    pub run: i32,
}

// The two words of a slope in scratch: the rise plus 2,000,000, and the run.
// Not one generic type with Slope: the two rises differ by 2,000,000, and neither may pass for the other.
#[derive(Clone, Copy)]
pub struct Fraction {
    pub rise: u32,
    pub run: u32,
}

// The slope of rank r among the q at the front of w: among those of a bracket, or among all where that has not the rank.
pub fn pick_slope(w: &mut [u32], q: usize, r: usize) -> Slope
    requires { Pickable q r w.old }
    ensures { Picked r (fractions q w.old) (as_slope result) }
{
    match bracket::bracket(w, q, r) {
        Some(b) => pick(&mut w[2 * q..], b.n, b.r, false),
        None => pick(w, q, r, false),
    }
}

// The same; wide says that the step before left more than 3/4 of its slopes.
#[cycle(pick_pivot)]
fn pick(w: &mut [u32], n: usize, r: usize, wide: bool) -> Slope
    requires { Pickable n r w.old }
    ensures { Answers r (fractions n w.old) (as_slope result) }
{
    if n <= 12 {
        return scan::short(w, n, r);
    }
    let p = pivot(w, n, wide);
    match scan::narrow(w, n, r, p) {
        Some(s) => pick(w, s.n, s.r, 3 * n < 4 * s.n),
        None => p,
    }
}

// One of the n slopes at the front of w, found by picking: the middle of a sample, or after a wide step the middle of the middles of groups of five. Of fewer than
// 40 it is the middle of three.
#[cycle(pick_pivot)]
fn pivot(w: &mut [u32], n: usize, wide: bool) -> Slope
    requires { Roomy n w.old × (1 ≤ n) }
    ensures { Pivoted n w.old w.new (as_slope result) }
{
    if n < 40 {
        return Slope::at(w, gather::middle_of_three(w, n / 4, n / 2, n - 1));
    }
    let g = gather::few(w, n, wide);
    pick(&mut w[2 * n..], g, g.div_ceil(2), false)
}
