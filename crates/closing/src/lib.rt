// A ring closed from two chains: the upper chain, then the lower chain right to left, leaving out the lower right end if it equals the upper right end and the
// lower left end if it equals the upper left end. Corners are those of two rings, at one run of places; the second ring may be empty.
// Easts and norths go to two lent lists: the C interface, and the form that the rules fix. Both chains lie in one lent scratch, as memory is fixed: u and l say how
// long they are.
#![tactic(auto)]

ghost use Rattle.rules.specs.Ring.{closed};
ghost use Rattle.laws_stack.specs.Places.{listed};
ghost use Rattle.walk.specs.HeldRings.{size};
ghost use Rattle.closing.specs.TwoChains.{Both};
ghost use Rattle.closing.specs.HeldChains.{upper_in, lower_in};
ghost use Rattle.closing.specs.RingPromise.{unless_short, Outcome};

use crate::lower::left_in;
use crate::writing::put;
use samples::refusals::{Reason, Refusal};
use samples::tests::too_short;
use samples::words::clear;
use walk::corners::Rings;

mod lower;
mod writing;

// The upper chain's u places and the lower chain's l places at the front of scratch, closed to a ring: written, unless an output is too short. Scratch is
// zero either way.
pub fn close(
    rings: Rings,
    u: usize,
    l: usize,
    out_east: &mut [i32],
    out_north: &mut [i32],
    scratch: &mut [u32],
) -> Result<usize, Refusal>
    requires { Both (size rings) scratch.old u l }
    ensures { Outcome
        (unless_short out_east.old out_north.old
        (closed
        (listed (upper_in rings.entry scratch.old u) u)
        (listed (lower_in rings.entry scratch.old u) l)))
        result out_east.old out_east.new out_north.old out_north.new scratch.old scratch.new }
{
    let k = left_in(rings, scratch, u, l);
    let n = u + (k.end - k.start);
    if too_short(out_east.len(), out_north.len(), n) {
        clear(scratch);
        return Err(Reason::OutputShort.into());
    }
    put(rings, scratch, u, k.end, n, out_east, out_north);
    clear(scratch);
    Ok(n)
}
