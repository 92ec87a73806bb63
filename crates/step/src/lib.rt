// The chain step, over a list of sample numbers at the front of a lent part of scratch with free room behind it. A list from its left end to its right end
// is cut at a middle of its easts, and the bridge over the cut leaves a left list and a right list; their chains, one after the other, are its chain. This is
// Kirkpatrick and Seidel's marriage before conquest: the bridge is found before the two sides are looked at, so what lies under it is never looked at again.
// Memory is fixed, and a step moves lists within w and lends parts of it: so a count t beside w says how long the list is.
#![tactic(auto)]

pub mod ends;
pub mod lists;

ghost use Rattle.std.specs.Prelude.{cond, ◌&&◌, ◌≡◌, ◌<◌, length, take};
ghost use Rattle.std.specs.Int.Signed.{le_z, lt_z};
ghost use Rattle.samples.specs.Positions.{east_of};
ghost use Rattle.samples.specs.Sides.{easts, norths, size, seen};
ghost use Rattle.step.specs.Stepping.{naming, CutAsks, CutSays, BehindAsks, BehindSays, HalvesAsk, HalvesSay, SplitAsks, SplitSays, ChainAsks, StepAsks, ChainSays};

use bridge::{Ends, bridge_of};
use ends::together;
use samples::sides::Side;
use samples::streams::east;

// A list split at the bridge from i to j: how many numbers its left list has, and how many its right list.
// No Ends and Halves in it: both have a left and a right, and the step reads plainer with four names.
#[derive(Clone, Copy)]
pub struct Split {
    pub i: u32,
    pub j: u32,
    pub left: usize,
    pub right: usize,
}

// A list halved at a bridge: how many numbers its left list has, and how many its right list.
#[derive(Clone, Copy)]
pub struct Halves {
    pub left: usize,
    pub right: usize,
}

// The cut of the t numbers at the front of w: the rank floor(t/2) of their easts, picked in the room behind them.
fn cut(e: &[i32], w: &mut [u32], t: usize) -> i64
    requires { CutAsks e.now w.old t }
    ensures { CutSays e.now w.old t result w.new }
{
    lists::easts(e, w, t);
    let (keys, room) = w[t..].split_at_mut(t);
    let key = picker::pick_key(keys, room, t / 2);
    picker::keys::number(key) as i64
}

// A list from p to q has a bridge over a: a lies from p's east to below q's.
fn bridged(e: &[i32], p: u32, q: u32, a: i64) -> bool
    requires { (p < length e.now) × (q < length e.now) }
    ensures { result ≡ (le_z (east_of e.now p) a && lt_z a (east_of e.now q)) }
{
    east(e, p) <= a && a < east(e, q)
}

// The bridge over a of the t numbers at the front of w, found in a copy of them behind them. Its ends are the first of the list at their positions.
fn bridge_behind(s: Side, w: &mut [u32], t: usize, a: i64) -> Ends
    requires { BehindAsks (size s) (seen s) w.old t a }
    ensures { BehindSays (seen s.entry) w.old t a result w.new }
{
    w.copy_within(0..t, t);
    bridge_of(s, a, &mut w[t..], t)
}

// Halves the t numbers at the front of w at the bridge from i to j: the right list of j takes their place, and behind it stands the left list of i.
fn halve(e: &[i32], w: &mut [u32], t: usize, i: u32, j: u32) -> Halves
    requires { HalvesAsk e.now w.old t i j }
    ensures { HalvesSay e.now (take t w.old) i j result.left result.right w.new }
{
    let right = lists::beyond(e, w, t, t, j, false);
    let left = lists::beyond(e, w, t, t + right, i, true);
    w.copy_within(t..t + right + left, 0);
    Halves { left, right }
}

// Splits the t numbers at the front of w, from p to q, at the bridge over a, if there is one.
fn split_over(s: Side, w: &mut [u32], t: usize, p: u32, q: u32, a: i64) -> Option<Split>
    requires { SplitAsks (easts s) (norths s) s.lower w.old t p q }
    ensures { SplitSays (easts s.entry) (norths s.entry) s.entry.lower (take t w.old) p q a result w.new }
{
    let e = s.samples.east;
    if !bridged(e, p, q, a) {
        return None;
    }
    let b = bridge_behind(s, w, t, a);
    let h = halve(e, w, t, b.left, b.right);
    Some(Split {
        i: b.left,
        j: b.right,
        left: h.left,
        right: h.right,
    })
}

// A step over the t numbers at the front of w, from p to q at another position: the count of its chain's corners, unless the list has no bridge over its cut.
// The left list's chain is made before the right list's, which lies before it meanwhile; then both chains stand side by side and move to the front.
#[cycle(chain_step)]
fn step(s: Side, w: &mut [u32], t: usize, p: u32, q: u32) -> Option<usize>
    requires { StepAsks (easts s) (norths s) s.lower w.old t p q }
    ensures { ChainSays (seen s.entry) (naming s.entry) (take t w.old) p q result w.new }
{
    let a = cut(s.samples.east, w, t);
    let k = split_over(s, w, t, p, q, a)?;
    let u = chain(s, &mut w[k.right..], k.left, p, k.i)?;
    let m = k.right + u;
    w.copy_within(0..k.right, m);
    let v = chain(s, &mut w[m..], k.right, k.j, q)?;
    w.copy_within(k.right..m + v, 0);
    Some(u + v)
}

// The chain from p to q of the t numbers at the front of w, left at the front by the lowest sample number at each corner: the count of its corners, unless a
// step's list has no bridge over its cut. Ends at one position make no step.
#[cycle(chain_step)]
pub fn chain(s: Side, w: &mut [u32], t: usize, p: u32, q: u32) -> Option<usize>
    requires { ChainAsks (easts s) (norths s) s.lower w.old t p q }
    ensures { ChainSays (seen s.entry) (naming s.entry) (take t w.old) p q result w.new }
{
    if together(s, p, q) {
        w[0] = p;
        return Some(1);
    }
    step(s, w, t, p, q)
}
