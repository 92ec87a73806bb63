// The rank picker. The numbers are carried as keys at the front of a lent part of scratch, with free room behind them. The picker splits them
// at a pivot and goes on with one side; the pivot finder picks the middle of the middles of groups of five, which is known as the median of medians.
#![tactic(auto)]

mod five;
pub mod keys;
mod scan;

ghost use Rattle.std.specs.Prelude.{◌≡◌, ◌≤◌, leb, length};
ghost use Rattle.laws_ranks.specs.Middles.{middle_of_middles};
ghost use Rattle.laws_ranks.specs.Ranks.{HasRank};
ghost use Rattle.picker.specs.Picking.{Pickable};
ghost use Rattle.picker.specs.Promise.{PickPromise};

use samples::refusals::{Reason, Refusal};
use samples::tests::MOST;
use samples::words::clear;

// The key of rank r, in room for as many keys again. More than twenty keys are narrowed by the pivot to the side that has the rank, where the pick goes on; of
// twenty or fewer the least is taken out until it has the rank. Of what is lent only the length stays.
#[cycle(pick_key_pivot)]
pub fn pick_key(keys: &mut [u32], room: &mut [u32], r: usize) -> u32
    requires { Pickable keys.old room.old r }
    ensures { HasRank leb r keys.old result }
{
    if keys.len() <= 20 {
        return scan::short(keys, r);
    }
    let p = pivot(keys, room);
    match scan::narrow(keys, r, p) {
        None => p,
        Some(rest) => pick_key(&mut keys[..rest.n], room, rest.r),
    }
}

// The middle of the middles of the groups of five among the keys. The middles are written into the room and picked among there.
#[cycle(pick_key_pivot)]
fn pivot(keys: &[u32], room: &mut [u32]) -> u32
    requires { (5 ≤ length keys.now) × (length keys.now ≤ length room.old) }
    ensures { result ≡ middle_of_middles leb 0 keys.now }
{
    let g = keys.len() / 5;
    let (middles, behind) = room.split_at_mut(g);
    five::middles(keys, middles);
    pick_key(middles, behind, g.div_ceil(2))
}

// The number of rank r among xs, repeats counted, in scratch of at least 16 words for each number and 64 more.
#[tactic(auto, unfolding(rules::specs::Entries::pick_answer))]
pub fn pick(xs: &[i32], r: usize, scratch: &mut [u32]) -> Result<i32, Refusal>
    ensures { PickPromise xs.now r scratch.old result scratch.new }
{
    let n = xs.len();
    if MOST < n {
        return Err(Reason::TooMany.into());
    }
    if r == 0 || n < r {
        return Err(Reason::NoSuchRank.into());
    }
    if scratch.len() < 16 * n + 64 {
        return Err(Reason::ScratchShort.into());
    }
    keys::load(xs, scratch);
    let (keys, room) = scratch.split_at_mut(n);
    let key = pick_key(keys, room, r);
    clear(scratch);
    Ok(keys::number(key))
}
