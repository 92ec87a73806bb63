// Samples as they lie in two lent lists of parts, once these have passed their tests.
ghost use Rattle.samples.specs.Positions.{Sampled};

use super::corners::{Lists, first_beyond};
use super::refusals::{Reason, Refusal};
use super::tests::MOST;

// Sample i has the east and the north at place i: two lists of one length, every part within the limit.
#[derive(Clone, Copy)]
pub struct Samples<'a> {
    pub east: &'a [i32],
    pub north: &'a [i32],
    ghost sampled: { Sampled east.now north.now },
}

impl<'a> Samples<'a> {
    ghost use Rattle.std.specs.Prelude.{◌≡◌};
    ghost use Rattle.rules.specs.Refusals.{unless, ring_tests};
    ghost use Rattle.samples.specs.Answers.{answer_as};
    ghost use Rattle.samples.specs.InOrder.{room_tests};
    ghost use Rattle.samples.specs.Listed.{parts_of};

    // The samples of two lists that pass 1, 2, 3.
    pub fn tested(east: &'a [i32], north: &'a [i32]) -> Result<Samples<'a>, Refusal>
        ensures { answer_as parts_of result ≡ unless (ring_tests east.now north.now) (east.now, north.now) }
    {
        let count = east.len();
        if count != north.len() {
            return Err(Reason::LengthsDiffer.into());
        }
        if MOST < count {
            return Err(Reason::TooMany.into());
        }
        let place = first_beyond(&Lists { east, north });
        if place < count {
            return Err(Reason::PartBeyond.at(place));
        }
        Ok(Samples { east, north })
    }

    // Those that pass 4 too, with so many words of scratch.
    pub fn tested_with(
        east: &'a [i32],
        north: &'a [i32],
        room: usize,
    ) -> Result<Samples<'a>, Refusal>
        ensures { answer_as parts_of result ≡ unless (room_tests east.now north.now room) (east.now, north.now) }
    {
        let samples = Samples::tested(east, north)?;
        if room < 16 * east.len() + 64 {
            return Err(Reason::ScratchShort.into());
        }
        Ok(samples)
    }
}
