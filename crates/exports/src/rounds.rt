// A round.
ghost use Rattle.std.specs.Prelude.{◌≡◌};
ghost use Rattle.rules.specs.Refusals.{output_after, scratch_after};
ghost use Rattle.rules.specs.Entries.{round_answer, kept_list};
ghost use Rattle.exports.specs.Rounds.{round_face};

use round::turn::Said;

// Kind 1 is a bridge, left and right; kind 2 is a kept list of so many numbers; a refusal has kind 0.
#[repr(C)]
#[derive(Clone, Copy, Default)]
pub struct RoundSaid {
    pub number: u32,
    pub place: usize,
    pub kind: u32,
    pub left: u32,
    pub right: u32,
    pub kept: usize,
}

#[unsafe(no_mangle)]
pub extern "C" fn nuoskelma_round(
    east: &[i32],
    north: &[i32],
    list: &[u32],
    a: i32,
    output: &mut [u32],
    scratch: &mut [u32],
) -> RoundSaid
    ensures answer { result ≡ round_face (round_answer east.now north.now list.now a output.old scratch.old) }
    ensures output { output.new ≡ output_after kept_list
        (round_answer east.now north.now list.now a output.old scratch.old) output.old }
    ensures scratch { scratch.new ≡ scratch_after
        (round_answer east.now north.now list.now a output.old scratch.old) scratch.old }
{
    match round::round(east, north, list, a, output, scratch) {
        Ok(Said::Found { left, right }) => RoundSaid {
            kind: 1,
            left,
            right,
            ..RoundSaid::default()
        },
        Ok(Said::Kept(kept)) => RoundSaid {
            kind: 2,
            kept,
            ..RoundSaid::default()
        },
        Err(refusal) => RoundSaid {
            number: refusal.reason.number(),
            place: refusal.place,
            ..RoundSaid::default()
        },
    }
}
