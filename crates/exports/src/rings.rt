// The entries that make a ring: of samples, and of two rings.
ghost use Rattle.rules.specs.Entries.{ring_answer, join_answer, sum_answer};
ghost use Rattle.exports.specs.Rings.{RingFace};

use crate::counts::{CountedC, counted};

#[unsafe(no_mangle)]
pub extern "C" fn nuoskelma_ring(
    east: &[i32],
    north: &[i32],
    easts: &mut [i32],
    norths: &mut [i32],
    scratch: &mut [u32],
) -> CountedC
    ensures { RingFace
        (ring_answer east.now north.now easts.old norths.old scratch.old)
        result easts.old easts.new norths.old norths.new scratch.old scratch.new }
{
    counted(ring::ring(east, north, easts, norths, scratch))
}

#[unsafe(no_mangle)]
pub extern "C" fn nuoskelma_join(
    east: &[i32],
    north: &[i32],
    east2: &[i32],
    north2: &[i32],
    easts: &mut [i32],
    norths: &mut [i32],
    scratch: &mut [u32],
) -> CountedC
    ensures { RingFace
        (join_answer east.now north.now east2.now north2.now easts.old norths.old scratch.old)
        result easts.old easts.new norths.old norths.new scratch.old scratch.new }
{
    counted(join::join(east, north, east2, north2, easts, norths, scratch))
}

#[unsafe(no_mangle)]
pub extern "C" fn nuoskelma_sum(
    east: &[i32],
    north: &[i32],
    east2: &[i32],
    north2: &[i32],
    easts: &mut [i32],
    norths: &mut [i32],
    scratch: &mut [u32],
) -> CountedC
    ensures { RingFace
        (sum_answer east.now north.now east2.now north2.now easts.old norths.old scratch.old)
        result easts.old easts.new norths.old norths.new scratch.old scratch.new }
{
    counted(sum::sum(east, north, east2, north2, easts, norths, scratch))
}
