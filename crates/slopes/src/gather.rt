// A few of the slopes at the front of scratch, gathered behind them, for a pivot to be picked from.
ghost use Rattle.std.specs.Prelude.{◌+◌, ◌≤◌, ◌<◌};
ghost use Rattle.slopes.specs.Passes.{Stands, Listed, Roomy, Capped, Gathered};

use super::Slope;
use super::words::copy;

// Two places, in the order of their slopes. No tuple, nor Counts: the names say at each use which of the two is meant.
#[derive(Clone, Copy)]
struct Pair {
    low: usize,
    high: usize,
}

fn ordered(w: &[u32], i: usize, j: usize) -> Pair
    requires { Stands w.now i × Stands w.now j }
    ensures { Capped i j result.low result.high }
{
    if Slope::at(w, j).below(Slope::at(w, i)) {
        Pair { low: j, high: i }
    } else {
        Pair { low: i, high: j }
    }
}

// The place of the middle of three slopes; k is the last of their places.
pub fn middle_of_three(w: &[u32], i: usize, j: usize, k: usize) -> usize
    requires { Listed (k + 1) w.now × (i ≤ k) × (j ≤ k) }
    ensures { result ≤ k }
{
    let a = ordered(w, i, j);
    let b = ordered(w, a.high, k);
    let c = ordered(w, a.low, b.low);
    c.high
}

// The place of the middle of the five slopes from i on: of the first four the least and the greatest are left out, then of three.
fn middle(w: &[u32], i: usize) -> usize
    requires { Listed (i + 5) w.now }
    ensures { result < i + 5 }
{
    let a = ordered(w, i, i + 1);
    let b = ordered(w, i + 2, i + 3);
    let c = ordered(w, a.low, b.low);
    let d = ordered(w, a.high, b.high);
    middle_of_three(w, c.high, d.low, i + 4)
}

// Gathers the middles of the groups of five, and says how many they are.
fn middles(w: &mut [u32], n: usize) -> usize
    requires { Roomy n w.old × (40 ≤ n) }
    ensures { Gathered n w.old w.new result }
{
    let g = n / 5;
    for i in 0..g {
        let j = middle(w, 5 * i);
        copy(w, j, n + i);
    }
    g
}

// From how many slopes a sample takes one: 25 or a few more are taken, of fewer than 200 every eighth.
fn stride(n: usize) -> usize
    ensures { (8 ≤ result) × (result ≤ n + 8) }
{
    if n < 200 { 8 } else { n / 25 }
}

// Gathers a sample, one of every d slopes, and says how many it has.
pub fn sample(w: &mut [u32], n: usize, d: usize) -> usize
    requires { Roomy n w.old × (40 ≤ n) × (8 ≤ d) × (d ≤ n + 8) }
    ensures { Gathered n w.old w.new result }
{
    let g = n.div_ceil(d);
    for i in 0..g {
        copy(w, d * i, n + i);
    }
    g
}

// Gathers the middles, or a sample.
// A flag and no closure: it is a fact about the step before, made anew at each call.
pub fn few(w: &mut [u32], n: usize, wide: bool) -> usize
    requires { Roomy n w.old × (40 ≤ n) }
    ensures { Gathered n w.old w.new result }
{
    if wide {
        middles(w, n)
    } else {
        sample(w, n, stride(n))
    }
}
