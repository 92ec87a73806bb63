// Using a ring: the strongest set, the cover test, turning about.
ghost use Rattle.std.specs.Prelude.{◌≡◌};
ghost use Rattle.rules.specs.Refusals.{output_after};
ghost use Rattle.rules.specs.Entries.{strongest_answer, cover_answer, turn_answer};
ghost use Rattle.exports.specs.Rings.{strongest_face, cover_face, counted_face, parts_east, parts_north};

use crate::counts::{CountedC, counted};
use crate::told::told;
use envelope::strongest::Greatest;

#[repr(C)]
#[derive(Clone, Copy)]
pub struct StrongestC {
    pub number: u32,
    pub place: usize,
    pub set: i64,
    pub at: usize,
}

#[repr(C)]
#[derive(Clone, Copy)]
pub struct CoverTold {
    pub number: u32,
    pub place: usize,
    pub covered: u32,
}

#[unsafe(no_mangle)]
pub extern "C" fn nuoskelma_strongest(east: &[i32], north: &[i32], x: i32, y: i32) -> StrongestC
    ensures { result ≡ strongest_face (strongest_answer east.now north.now x y) }
{
    let none = Greatest { set: 0, place: 0 };
    let (number, place, greatest) = told(envelope::strongest::strongest(east, north, x, y), none);
    StrongestC {
        number,
        place,
        set: greatest.set,
        at: greatest.place,
    }
}

#[unsafe(no_mangle)]
pub extern "C" fn nuoskelma_cover(east: &[i32], north: &[i32], x: i32, y: i32) -> CoverTold
    ensures { result ≡ cover_face (cover_answer east.now north.now x y) }
{
    let (number, place, covered) = told(envelope::cover::cover(east, north, x, y), false);
    CoverTold {
        number,
        place,
        covered: covered as u32,
    }
}

#[unsafe(no_mangle)]
pub extern "C" fn nuoskelma_turn_about(
    east: &[i32],
    north: &[i32],
    easts: &mut [i32],
    norths: &mut [i32],
) -> CountedC
    ensures answer { result ≡ counted_face (turn_answer east.now north.now easts.old norths.old) }
    ensures east { easts.new ≡ output_after parts_east
        (turn_answer east.now north.now easts.old norths.old) easts.old }
    ensures north { norths.new ≡ output_after parts_north
        (turn_answer east.now north.now easts.old norths.old) norths.old }
{
    counted(envelope::turn::turn_about(east, north, easts, norths))
}
