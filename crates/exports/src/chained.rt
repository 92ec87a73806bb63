// Both chains.
ghost use Rattle.std.specs.Prelude.{◌≡◌};
ghost use Rattle.rules.specs.Refusals.{output_after, scratch_after};
ghost use Rattle.rules.specs.Entries.{chains_answer};
ghost use Rattle.exports.specs.Chains.{chains_face, uppers, lowers};

use crate::told::told;
use chains::Counts;

#[repr(C)]
#[derive(Clone, Copy)]
pub struct ChainsC {
    pub number: u32,
    pub place: usize,
    pub upper: usize,
    pub lower: usize,
}

#[unsafe(no_mangle)]
pub extern "C" fn nuoskelma_chains(
    east: &[i32],
    north: &[i32],
    upper: &mut [u32],
    lower: &mut [u32],
    scratch: &mut [u32],
) -> ChainsC
    ensures answer { result ≡ chains_face (chains_answer east.now north.now upper.old lower.old scratch.old) }
    ensures upper { upper.new ≡ output_after uppers
        (chains_answer east.now north.now upper.old lower.old scratch.old) upper.old }
    ensures lower { lower.new ≡ output_after lowers
        (chains_answer east.now north.now upper.old lower.old scratch.old) lower.old }
    ensures scratch { scratch.new ≡ scratch_after
        (chains_answer east.now north.now upper.old lower.old scratch.old) scratch.old }
{
    let none = Counts { upper: 0, lower: 0 };
    let (number, place, counts) = told(chains::chains(east, north, upper, lower, scratch), none);
    ChainsC {
        number,
        place,
        upper: counts.upper,
        lower: counts.lower,
    }
}
