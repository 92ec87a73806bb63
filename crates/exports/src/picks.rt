// The rank picker.
ghost use Rattle.std.specs.Prelude.{◌≡◌};
ghost use Rattle.rules.specs.Refusals.{scratch_after};
ghost use Rattle.rules.specs.Entries.{pick_answer};
ghost use Rattle.exports.specs.Picks.{picked_face};

use crate::told::told;

#[repr(C)]
#[derive(Clone, Copy)]
pub struct PickedC {
    pub number: u32,
    pub place: usize,
    pub value: i32,
}

#[unsafe(no_mangle)]
pub extern "C" fn nuoskelma_pick(numbers: &[i32], rank: usize, scratch: &mut [u32]) -> PickedC
    ensures answer { result ≡ picked_face (pick_answer numbers.now rank scratch.old) }
    ensures scratch { scratch.new ≡ scratch_after (pick_answer numbers.now rank scratch.old) scratch.old }
{
    let (number, place, value) = told(picker::pick(numbers, rank, scratch), 0);
    PickedC {
        number,
        place,
        value,
    }
}
