// The float door.
ghost use Rattle.std.specs.Prelude.{◌≡◌};
ghost use Rattle.rules.specs.Door.{part, readings};
ghost use Rattle.rules.specs.Entries.{door_answer, door_output_after, taken_east, taken_north};
ghost use Rattle.exports.specs.Doors.{part_face, readings_face};

use door::PartAnswer;
use samples::refusals::Reason;

#[repr(C)]
#[derive(Clone, Copy, Default)]
pub struct PartTaken {
    pub number: u32,
    pub value: i32,
    pub back: f64,
}

#[repr(C)]
#[derive(Clone, Copy, Default)]
pub struct ReadingsTaken {
    pub number: u32,
    pub place: usize,
    pub count: usize,
    pub back: f64,
}

#[unsafe(no_mangle)]
pub extern "C" fn nuoskelma_part(x: f64) -> PartTaken
    ensures { result ≡ part_face (part x) }
{
    match door::part(x) {
        PartAnswer::Whole(value) => PartTaken {
            value,
            ..PartTaken::default()
        },
        PartAnswer::NotANumber => PartTaken {
            number: Reason::NotANumber.number(),
            ..PartTaken::default()
        },
        PartAnswer::TooLarge(back) => PartTaken {
            number: Reason::TooLarge.number(),
            back,
            ..PartTaken::default()
        },
        PartAnswer::Fraction(back) => PartTaken {
            number: Reason::Fraction.number(),
            back,
            ..PartTaken::default()
        },
    }
}

#[unsafe(no_mangle)]
pub extern "C" fn nuoskelma_readings(
    es: &[f64],
    ns: &[f64],
    east: &mut [i32],
    north: &mut [i32],
) -> ReadingsTaken
    ensures answer { result ≡ readings_face (door_answer es.now ns.now east.old north.old) }
    ensures east { east.new ≡ door_output_after (taken_east (readings 0 es.now ns.now))
        (door_answer es.now ns.now east.old north.old) east.old }
    ensures north { north.new ≡ door_output_after (taken_north (readings 0 es.now ns.now))
        (door_answer es.now ns.now east.old north.old) north.old }
{
    match door::take_readings(es, ns, east, north) {
        Ok(count) => ReadingsTaken {
            count,
            ..ReadingsTaken::default()
        },
        Err(refused) => ReadingsTaken {
            number: refused.refusal.reason.number(),
            place: refused.refusal.place,
            back: refused.float.unwrap_or(0.0),
            ..ReadingsTaken::default()
        },
    }
}
