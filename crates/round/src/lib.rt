// A round of the bridge finder. Easts and norths come as two lent lists: the C interface, and the form that the rules fix.
#![tactic(auto)]

mod keep;
mod pairs;
mod scaled;
mod tops;
pub mod turn;

ghost use Rattle.std.specs.Prelude.{◌≡◌, ◌≤◌, length};
ghost use Rattle.rules.specs.Refusals.{unless};
ghost use Rattle.samples.specs.Answers.{answer_of};
ghost use Rattle.round.specs.Saying.{kept_count};
ghost use Rattle.round.specs.Promise.{round_tests, Answered, RoundPromise};

use self::turn::{Said, round_of};
use samples::corners::{Lists, first_beyond};
use samples::listed::Samples;
use samples::refusals::{Reason, Refusal};
use samples::sides::Side;
use samples::tests::{MOST, first_unlisted, list_spans};
use samples::words::{clear, write};

// The tests of a round before 5, with so many words of scratch: 1, 2, 3, 7, 4, 6.
// Not `Samples::tested`: here 2 counts the list items too, before 3.
fn tested(east: &[i32], north: &[i32], list: &[u32], a: i64, room: usize) -> Result<(), Refusal>
    ensures { answer_of result ≡ unless (round_tests east.now north.now list.now a room) tt }
{
    let count = east.len();
    if count != north.len() {
        return Err(Reason::LengthsDiffer.into());
    }
    if MOST < count || MOST < list.len() {
        return Err(Reason::TooMany.into());
    }
    let place = first_beyond(&Lists { east, north });
    if place < count {
        return Err(Reason::PartBeyond.at(place));
    }
    let unlisted = first_unlisted(list, count);
    if unlisted < list.len() {
        return Err(Reason::Unlisted.at(unlisted));
    }
    if room < 16 * list.len() + 64 {
        return Err(Reason::ScratchShort.into());
    }
    if !list_spans(east, list, a) {
        return Err(Reason::NotSpanned.into());
    }
    Ok(())
}

// Writes what is kept, at the front of scratch, to the output if it fits, and clears the scratch.
fn answered(said: Said, output: &mut [u32], scratch: &mut [u32]) -> Result<Said, Refusal>
    requires { kept_count said ≤ length scratch.old }
    ensures { Answered said output.old scratch.old result output.new scratch.new }
{
    if let Said::Kept(m) = said {
        if output.len() < m {
            clear(scratch);
            return Err(Reason::OutputShort.into());
        }
        write(&scratch[..m], output);
    }
    clear(scratch);
    Ok(said)
}

// A round of the list at a: the two ends of the bridge, or how many numbers are kept, which lie in list order at the front of the output. The scratch has at
// least 16 words for each list item and 64 more.
pub fn round(
    east: &[i32],
    north: &[i32],
    list: &[u32],
    a: i32,
    output: &mut [u32],
    scratch: &mut [u32],
) -> Result<Said, Refusal>
    ensures { RoundPromise east.now north.now list.now a output.old scratch.old result
        output.new scratch.new }
{
    tested(east, north, list, a as i64, scratch.len())?;
    write(list, scratch);
    let side = Side {
        samples: Samples { east, north },
        lower: false,
    };
    let said = round_of(side, a as i64, scratch, list.len());
    answered(said, output, scratch)
}
