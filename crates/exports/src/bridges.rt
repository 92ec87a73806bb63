// The bridge over a.
ghost use Rattle.std.specs.Prelude.{◌≡◌};
ghost use Rattle.rules.specs.Refusals.{scratch_after};
ghost use Rattle.rules.specs.Entries.{bridge_answer};
ghost use Rattle.exports.specs.Bridges.{bridge_face};

use crate::told::told;
use bridge::Ends;

#[repr(C)]
#[derive(Clone, Copy)]
pub struct Bridged {
    pub number: u32,
    pub place: usize,
    pub left: u32,
    pub right: u32,
}

#[unsafe(no_mangle)]
pub extern "C" fn nuoskelma_bridge(
    east: &[i32],
    north: &[i32],
    a: i32,
    scratch: &mut [u32],
) -> Bridged
    ensures answer { result ≡ bridge_face (bridge_answer east.now north.now a scratch.old) }
    ensures scratch { scratch.new ≡ scratch_after (bridge_answer east.now north.now a scratch.old) scratch.old }
{
    let none = Ends { left: 0, right: 0 };
    let (number, place, ends) = told(bridge::bridge(east, north, a, scratch), none);
    Bridged {
        number,
        place,
        left: ends.left,
        right: ends.right,
    }
}
