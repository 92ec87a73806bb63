// The float door: readings that come as 64-bit floats, taken as parts where their values are whole numbers within the limit.
// Easts and norths come as two lent lists, and go to two: the C interface, and the form that the rules fix.
#![tactic(auto)]

ghost use Rattle.std.specs.Prelude.{◌≡◌, ◌<◌, ◌≤◌, None, length, slice_index_or};
ghost use Rattle.std.specs.Float.{nan};
ghost use Rattle.rules.specs.Lists.{written};
ghost use Rattle.rules.specs.Door.{part, readings};
ghost use Rattle.rules.specs.Entries.{door_answer, door_output_after, taken_east, taken_north};
ghost use Rattle.door.specs.DoorAnswers.{part_as, door_as, part_taken, part_at, reading_taken, reading_at as taken_at, whole_of, wholes, readings_as};

use samples::refusals::{Reason, Refusal};
use samples::streams::Stream;
use samples::tests::{MOST, too_short};

// each part lies from -LIMIT to LIMIT
const LIMIT: f64 = 1000000.0;

// What the door makes of one float. An enum of its own, as the rules fix it: 13 and 14 hand back the float itself.
#[derive(Clone, Copy)]
pub enum PartAnswer {
    Whole(i32),
    NotANumber,
    TooLarge(f64),
    Fraction(f64),
}

// An east and a north together.
#[derive(Clone, Copy)]
pub struct Reading {
    pub east: f64,
    pub north: f64,
}

// Why the door refuses two lists, with the float itself where it is handed back.
#[derive(Clone, Copy)]
pub struct DoorRefusal {
    pub refusal: Refusal,
    pub float: Option<f64>,
}

// One that names no place and hands back no float.
impl From<Reason> for DoorRefusal {
    ghost from_gives = { λ reason r. r ≡ record { refusal = record { reason = reason; place = 0 }; float = None } };

    fn from(reason: Reason) -> DoorRefusal {
        DoorRefusal {
            refusal: reason.into(),
            float: None,
        }
    }
}

// A part is taken exactly if its value is a whole number within the limit; minus zero is taken as 0.
pub fn part(x: f64) -> PartAnswer
    ensures { part_as result ≡ part x }
{
    if x != x {
        return PartAnswer::NotANumber;
    }
    if x < -LIMIT || LIMIT < x {
        return PartAnswer::TooLarge(x);
    }
    if std::num::truncating_f64_to_i64(x) as f64 != x {
        return PartAnswer::Fraction(x);
    }
    // minus zero too, whose sign the cast would lose
    if x == 0.0 {
        return PartAnswer::Whole(0);
    }
    PartAnswer::Whole(x as i32)
}

impl PartAnswer {
    // The whole number that a part of the reading at a place is taken as, or its refusal.
    fn taken(self, place: usize) -> Result<i32, DoorRefusal>
        ensures { part_taken result ≡ part_at (part_as self) place }
    {
        let (reason, float) = match self {
            PartAnswer::Whole(n) => return Ok(n),
            PartAnswer::NotANumber => (Reason::NotANumber, None),
            PartAnswer::TooLarge(x) => (Reason::TooLarge, Some(x)),
            PartAnswer::Fraction(x) => (Reason::Fraction, Some(x)),
        };
        Err(DoorRefusal {
            refusal: reason.at(place),
            float,
        })
    }

    // The whole number that a part is taken as. The entry asks it only of parts that are taken.
    fn whole(self) -> i32
        ensures { result ≡ whole_of (part_as self) }
    {
        match self {
            PartAnswer::Whole(n) => n,
            _ => 0,
        }
    }
}

impl Reading {
    // The stream that the reading at a place is taken as, or the refusal of its first bad part, east before north.
    fn taken(self, place: usize) -> Result<Stream, DoorRefusal>
        ensures { reading_taken result ≡ taken_at (part self.east) (part self.north) place }
    {
        let east = part(self.east).taken(place)?;
        let north = part(self.north).taken(place)?;
        Ok(Stream { east, north })
    }
}

// The reading at a place of the two lists.
fn reading_at(es: &[f64], ns: &[f64], place: usize) -> Reading
    requires { (place < length es.now) × (place < length ns.now) }
    ensures { result ≡ record { east = slice_index_or es.now place nan; north = slice_index_or ns.now place nan } }
{
    Reading {
        east: es[place],
        north: ns[place],
    }
}

// The refusal of the first bad reading, where there is one.
fn first_bad(es: &[f64], ns: &[f64]) -> Result<(), DoorRefusal>
    requires { length es.now ≡ length ns.now }
    ensures { readings_as (wholes es.now) (wholes ns.now) result ≡ readings 0 es.now ns.now }
{
    for place in 0..es.len() {
        reading_at(es, ns, place).taken(place)?;
    }
    Ok(())
}

// Writes the whole number of each part at its place, once all readings are found to be taken.
fn write_wholes(parts: &[f64], output: &mut [i32])
    requires { length parts.now ≤ length output.old }
    ensures { output.new ≡ written (wholes parts.now) output.old }
{
    for (i, x) in parts.iter().enumerate() {
        output[i] = part(*x).whole();
    }
}

// Takes the readings of two lists: their parts at the front of two output lists. The first bad reading decides.
pub fn take_readings(
    es: &[f64],
    ns: &[f64],
    east: &mut [i32],
    north: &mut [i32],
) -> Result<usize, DoorRefusal>
    ensures answer { door_as result ≡ door_answer es.now ns.now east.old north.old }
    ensures east { east.new ≡ door_output_after (taken_east (readings 0 es.now ns.now))
        (door_answer es.now ns.now east.old north.old) east.old }
    ensures north { north.new ≡ door_output_after (taken_north (readings 0 es.now ns.now))
        (door_answer es.now ns.now east.old north.old) north.old }
{
    let count = es.len();
    if count != ns.len() {
        return Err(Reason::LengthsDiffer.into());
    }
    if MOST < count {
        return Err(Reason::TooMany.into());
    }
    first_bad(es, ns)?;
    if too_short(east.len(), north.len(), count) {
        return Err(Reason::OutputShort.into());
    }
    write_wholes(es, east);
    write_wholes(ns, north);
    Ok(count)
}
