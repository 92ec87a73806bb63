// The bridge over a: rounds from a list until one answers. Easts and norths come as two lent lists: the C interface, and the form that the rules fix.
#![tactic(auto)]

ghost use Rattle.std.specs.Prelude.{◌≡◌, ◌≤◌, length, take};
ghost use Rattle.rules.specs.Bridge.{ends};
ghost use Rattle.rules.specs.Refusals.{unless};
ghost use Rattle.laws_rounds.specs.Rounds.{Found};
ghost use Rattle.laws_rounds.specs.WholeList.{numbers};
ghost use Rattle.samples.specs.Answers.{answer_as};
ghost use Rattle.samples.specs.Listed.{parts_of};
ghost use Rattle.samples.specs.Sides.{size, seen};
ghost use Rattle.bridge.specs.Promise.{BridgeAsks, bridge_tests, BridgePromise};

use round::turn::{Said, round_of};
use samples::listed::Samples;
use samples::refusals::{Reason, Refusal};
use samples::sides::Side;
use samples::tests::spans;
use samples::words::clear;

// The two ends of a bridge, by their numbers.
#[derive(Clone, Copy)]
pub struct Ends {
    pub left: u32,
    pub right: u32,
}

// The bridge over a of the count samples whose numbers lie at the front of w: its ends are the first of the list at their positions. Of what is lent only
// the length stays. Memory is fixed, and each round shortens the list: so a count beside w says how long it is.
pub fn bridge_of(s: Side, a: i64, w: &mut [u32], count: usize) -> Ends
    requires { BridgeAsks (size s) (seen s) a w.old count }
    ensures { Found (seen s.entry) a (take count w.old) (ends result.left result.right) }
{
    let mut t = count;
    loop {
        match round_of(s, a, w, t) {
            Said::Found { left, right } => {
                return Ends { left, right };
            }
            Said::Kept(m) => {
                t = m;
            }
        }
    }
}

// Writes the numbers from 0 to below n at the front of w.
fn number(w: &mut [u32], n: usize)
    requires { (n ≤ length w.old) × (n ≤ 65536) }
    ensures { take n w.new ≡ numbers n }
{
    for i in 0..n {
        w[i] = i as u32;
    }
}

// The tests of a bridge, with so many words of scratch: 1, 2, 3, 4, 6.
fn tested<'a>(
    east: &'a [i32],
    north: &'a [i32],
    a: i32,
    room: usize,
) -> Result<Samples<'a>, Refusal>
    ensures { answer_as parts_of result ≡ unless (bridge_tests east.now north.now a room) (east.now, north.now) }
{
    let samples = Samples::tested_with(east, north, room)?;
    if !spans(east, a) {
        return Err(Reason::NotSpanned.into());
    }
    Ok(samples)
}

// The bridge over a of all the samples, its ends by the lowest sample number at their position, or a refusal. The scratch has at least 16 words for each
// sample and 64 more.
pub fn bridge(east: &[i32], north: &[i32], a: i32, scratch: &mut [u32]) -> Result<Ends, Refusal>
    ensures { BridgePromise east.now north.now a scratch.old result scratch.new }
{
    let samples = tested(east, north, a, scratch.len())?;
    let count = east.len();
    number(scratch, count);
    let side = Side {
        samples,
        lower: false,
    };
    let found = bridge_of(side, a as i64, scratch, count);
    clear(scratch);
    Ok(found)
}
