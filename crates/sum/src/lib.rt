// The sum of two rings: the ring of all positions got by adding a corner of one to a corner of the other, in time linear in the corners, by following the
// two outlines together. Easts and norths come as two lent lists for each ring, and go to two: the C interface, and the form that the rules fix.
#![tactic(auto)]

ghost use Rattle.rules.specs.Entries.{sum_answer};
ghost use Rattle.closing.specs.RingPromise.{Outcome};

use crate::reach::{Ring, too_far};
use crate::writing::write_sum;
use envelope::test::two_rings;
use samples::refusals::{Reason, Refusal};
use samples::words::clear;

mod follow;
mod reach;
mod ways;
mod writing;

// The sum of two rings, at the front of the outputs, unless refused: each ring's 1, 2, 3, 9, then 2 for both, 4, 19, 5. Where a ring is empty the sum has no
// corner. Scratch is zero where the sum is written and after 5; any other refusal alters nothing.
pub fn sum(
    east: &[i32],
    north: &[i32],
    east2: &[i32],
    north2: &[i32],
    out_east: &mut [i32],
    out_north: &mut [i32],
    scratch: &mut [u32],
) -> Result<usize, Refusal>
    ensures { Outcome
        (sum_answer east.now north.now east2.now north2.now out_east.old
        out_north.old scratch.old)
        result out_east.old out_east.new out_north.old out_north.new scratch.old scratch.new }
{
    two_rings(east, north, east2, north2, scratch)?;
    if east.is_empty() || east2.is_empty() {
        clear(scratch);
        return Ok(0);
    }
    let first = Ring { east, north };
    let second = Ring {
        east: east2,
        north: north2,
    };
    if too_far(first, second) {
        return Err(Reason::SumBeyond.into());
    }
    write_sum(first, second, out_east, out_north, scratch)
}
