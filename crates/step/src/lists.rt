// The lists of sample numbers that chain steps work on, each written in one pass: a number is stored, and the place moves on by the test.
ghost use Rattle.std.specs.Prelude.{◌≡◌, map, ◌+◌, ◌≤◌, length, take};
ghost use Rattle.std.proofs.Math.Seq.{paste};
ghost use Rattle.picker.specs.Keys.{key_of};
ghost use Rattle.laws_rounds.specs.WholeList.{numbers};
ghost use Rattle.samples.specs.Positions.{east_of};
ghost use Rattle.step.specs.NumberLists.{between, past, first_numbers, beyond_numbers, FirstAsks, PassAsks, BeyondAsks, EastsAsk, Passed, Beyond, Listing};

use picker::keys::key;
use samples::streams::east;

// x lies strictly between two easts.
fn between(x: i64, from: i64, to: i64) -> bool
    ensures { result ≡ between from to x }
{
    from < x && x < to
}

// Writes the samples strictly between two easts, in sample order, from place 2 on, and says how many they are.
fn inner(e: &[i32], w: &mut [u32], from: i64, to: i64) -> usize
    requires { (length e.now ≤ 65536) × (length e.now + 2 ≤ length w.old) }
    ensures { Passed (λ x. between from to (east_of e.now x)) (numbers (length e.now)) w.old 2 result w.new }
{
    let mut k = 0;
    for x in 0..e.len() as u32 {
        w[2 + k] = x;
        k += between(east(e, x), from, to) as usize;
    }
    k
}

// Writes the first list at the front of w, and says how many numbers it has: the left end p, the right end q, and all samples strictly between in east.
pub fn first(e: &[i32], w: &mut [u32], p: u32, q: u32) -> usize
    requires { FirstAsks e.now w.old p q }
    ensures { Listing (first_numbers e.now p q) result w.new }
{
    w[0] = p;
    w[1] = q;
    inner(e, w, east(e, p), east(e, q)) + 2
}

// x lies west of a, or else east of it.
fn past(x: i64, a: i64, west: bool) -> bool
    ensures { result ≡ past west a x }
{
    if west { x < a } else { a < x }
}

// Writes those of the t numbers at the front of w that lie past a at `to` and after it, in list order, and says how many they are.
fn pass(e: &[i32], w: &mut [u32], t: usize, to: usize, a: i64, west: bool) -> usize
    requires { PassAsks e.now w.old t to }
    ensures { Passed (λ x. past west a (east_of e.now x)) (take t w.old) w.old to result w.new }
{
    let mut k = 0;
    for i in 0..t {
        let x = w[i];
        w[to + k] = x;
        k += past(east(e, x), a, west) as usize;
    }
    k
}

// Writes x and those of the t numbers at the front of w that lie past it at `to` and after it, and says how many they are: the left list of a bridge's
// left end, or the right list of its right end.
pub fn beyond(e: &[i32], w: &mut [u32], t: usize, to: usize, x: u32, west: bool) -> usize
    requires { BeyondAsks e.now w.old t to x }
    ensures { Beyond (beyond_numbers e.now west x (take t w.old)) w.old to result w.new }
{
    w[to] = x;
    pass(e, w, t, to + 1, east(e, x), west) + 1
}

// Writes the keys of the easts of the t numbers at the front of w behind these.
pub fn easts(e: &[i32], w: &mut [u32], t: usize)
    requires { EastsAsk e.now w.old t }
    ensures { w.new ≡ paste w.old t (map (λ x. key_of (east_of e.now x)) (take t w.old)) t }
{
    for i in 0..t {
        w[t + i] = key(e[w[i] as usize]);
    }
}
