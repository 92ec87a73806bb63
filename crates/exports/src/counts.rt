// How many corners, or bytes, an entry wrote.
ghost use Rattle.std.specs.Prelude.{◌≡◌};
ghost use Rattle.samples.specs.Answers.{answer_of};
ghost use Rattle.exports.specs.Rings.{count_face};

use crate::told::told;
use samples::refusals::Refusal;

#[repr(C)]
#[derive(Clone, Copy)]
pub struct CountedC {
    pub number: u32,
    pub place: usize,
    pub count: usize,
}

// The count, or the refusal.
pub fn counted(said: Result<usize, Refusal>) -> CountedC
    ensures { result ≡ count_face (answer_of said) }
{
    let (number, place, count) = told(said, 0);
    CountedC {
        number,
        place,
        count,
    }
}
