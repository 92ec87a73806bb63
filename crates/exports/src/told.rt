// What a result tells of an answer.
ghost use Rattle.std.specs.Prelude.{◌≡◌};
ghost use Rattle.samples.specs.Answers.{answer_of};
ghost use Rattle.exports.specs.Told.{number_told, place_told, value_told};

use samples::refusals::Refusal;

// Number 0, place 0 and what is done; or a refusal's number and place, and what stands for nothing.
pub fn told<A: Copy>(said: Result<A, Refusal>, nothing: A) -> (u32, usize, A)
    ensures number { result.0 ≡ number_told (answer_of said) }
    ensures place { result.1 ≡ place_told (answer_of said) }
    ensures value { result.2 ≡ value_told nothing (answer_of said) }
{
    match said {
        Ok(done) => (0, 0, done),
        Err(refusal) => (refusal.reason.number(), refusal.place, nothing),
    }
}
