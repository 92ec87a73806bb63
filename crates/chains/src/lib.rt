// The chains of samples. Both chains are made in scratch, by chain steps; outputs are written when the whole result is known and fits.
// Easts and norths come as two lent lists, and the chains go to two: the C interface, and the form that the rules fix.
#![tactic(auto)]

pub mod sides;
mod write;

ghost use Rattle.chains.specs.Promise.{ChainsPromise};

use samples::refusals::Refusal;
use sides::sides_of;

// How many corners the upper and the lower chain have.
#[derive(Clone, Copy)]
pub struct Counts {
    pub upper: usize,
    pub lower: usize,
}

// Both chains of the samples, each left to right by the lowest sample number at its corners. The scratch has at least 16 words for each sample and 64 more.
pub fn chains(
    east: &[i32],
    north: &[i32],
    upper: &mut [u32],
    lower: &mut [u32],
    scratch: &mut [u32],
) -> Result<Counts, Refusal>
    ensures { ChainsPromise east.now north.now upper.old lower.old scratch.old result
        upper.new lower.new scratch.new }
{
    let counts = sides_of(east, north, scratch)?;
    write::both(counts, upper, lower, scratch)
}
