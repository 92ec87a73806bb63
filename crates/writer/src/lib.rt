// The record writer: the record of a ring that comes as two lists, in a version and a sense, if it is an envelope.
// Version and sense come as bytes, easts and norths as two lent lists: the C interface, and the form that the rules fix.
#![tactic(auto)]

ghost use Rattle.std.specs.Prelude.{◌&&◌, ◌++◌, ◌≡◌, ◌+◌, ◌-◌, ◌^◌, ◌≤◌, ◌<◌, eqb, length};
ghost use Rattle.rules.specs.Record.{head_size, corner_size, corner_bytes, corners_bytes, sense_bytes, head_bytes};
ghost use Rattle.rules.specs.Refusals.{unless, output_after, ring_tests};
ghost use Rattle.rules.specs.Entries.{counted, form_tests, write_answer};
ghost use Rattle.samples.specs.Answers.{answer_of, answer_as};
ghost use Rattle.samples.specs.Forms.{version_byte, sense_byte};
ghost use Rattle.samples.specs.HeldStream.{stream_of};
ghost use Rattle.samples.specs.Placed.{Put};
ghost use Rattle.envelope.specs.Begins.{Begins, turned_if};
ghost use Rattle.envelope.specs.CornersNear.{CornersNear};
ghost use Rattle.writer.specs.Form.{form_as};

use envelope::test::is_envelope;
use envelope::turn::{first_corner, turned_corner};
use samples::corners::{Corners, Lists};
use samples::forms::{Sense, Version};
use samples::listed::Samples;
use samples::refusals::{Reason, Refusal};
use samples::streams::Stream;

// The version and the length, and the bytes of a corner.
const HEAD: usize = 5;

const CORNER: usize = 8;

// The record at the front of the output, and how many bytes it has. The ring is going-to; a coming-from record has it turned about. A refusal alters nothing.
pub fn write_record(
    version: u8,
    sense: u8,
    east: &[i32],
    north: &[i32],
    out: &mut [u8],
) -> Result<usize, Refusal>
    ensures answer { answer_of result ≡ counted (write_answer version sense east.now north.now out.old) }
    ensures out { out.new ≡ output_after (λ bs. bs) (write_answer version sense east.now north.now out.old) out.old }
{
    let form = tests(version, sense, east, north)?;
    let ring = Lists { east, north };
    let size = HEAD + form.version.sense_size() + CORNER * ring.count();
    let is = is_envelope(&ring);
    if !is {
        return Err(Reason::NotEnvelope.into());
    }
    if out.len() < size {
        return Err(Reason::OutputShort.into());
    }
    let about = form.sense == Sense::ComingFrom;
    let first = first_corner(about, &ring);
    let from = put_head(form, size, out);
    put_corners(about, first, &ring, out, from);
    Ok(size)
}

// A version and a sense that it can say.
#[derive(Clone, Copy)]
struct Form {
    version: Version,
    sense: Sense,
}

// The tests of the version and the sense, and of the two lists: 16, 22, 1, 2, 3.
fn tests(version: u8, sense: u8, east: &[i32], north: &[i32]) -> Result<Form, Refusal>
    ensures { answer_as form_as result ≡ unless (form_tests version sense ++ ring_tests east.now north.now) (version, sense) }
{
    let version = Version::try_from(version)?;
    let sense = Sense::try_from(sense)?;
    if unsaid(version, sense) {
        return Err(Reason::OtherSense.into());
    }
    Samples::tested(east, north)?;
    Ok(Form { version, sense })
}

// Sense 1 with version 1.
fn unsaid(version: Version, sense: Sense) -> bool
    ensures { result ≡ (eqb (sense_byte sense) 1 && eqb (version_byte version) 1) }
{
    match sense {
        Sense::GoingTo => false,
        Sense::ComingFrom => version == Version::First,
    }
}

// Each function below writes at a place and answers the next: with slices cut off instead, each caller would have to say how the parts stand in the whole.

// What stands before the corners in a record of so many bytes: the version, the length of the rest, and the sense.
fn put_head(form: Form, size: usize, out: &mut [u8]) -> usize
    requires { (head_size ≤ size) × (size < 2 ^ 32)
        × (head_size + length (sense_bytes (version_byte form.version) (sense_byte form.sense)) ≤ length out.old) }
    ensures { Put (head_bytes (version_byte form.version) (size - head_size)
        ++ sense_bytes (version_byte form.version) (sense_byte form.sense)) 0 out.old out.new result }
{
    out[0] = form.version.byte();
    let next = put_bytes(((size - HEAD) as u32).to_be_bytes(), out, 1);
    put_sense(form, out, next)
}

// The sense, where the version says it.
fn put_sense(form: Form, out: &mut [u8], place: usize) -> usize
    requires { place + length (sense_bytes (version_byte form.version) (sense_byte form.sense)) ≤ length out.old }
    ensures { Put (sense_bytes (version_byte form.version) (sense_byte form.sense)) place out.old out.new result }
{
    match form.version {
        Version::First => place,
        Version::Second => {
            out[place] = form.sense.byte();
            place + 1
        }
    }
}

// The corners, in ring order, as they are or turned about.
fn put_corners<C: Corners>(
    about: bool,
    first: usize,
    ring: &C,
    out: &mut [u8],
    from: usize,
) -> usize
    requires near { CornersNear (C.corners ring.now) }
    requires begins { Begins about (C.corners ring.now) first }
    requires room { from + length (corners_bytes (turned_if about (C.corners ring.now))) ≤ length out.old }
    ensures { Put (corners_bytes (turned_if about (C.corners ring.now))) from out.old out.new result }
{
    let mut place = from;
    for i in 0..ring.count() {
        let c = turned_corner(about, first, ring, i);
        place = put_corner(c, out, place);
    }
    place
}

// East, then north.
fn put_corner(s: Stream, out: &mut [u8], place: usize) -> usize
    requires { place + corner_size ≤ length out.old }
    ensures { Put (corner_bytes (stream_of s)) place out.old out.new result }
{
    let next = put_bytes(s.east.to_be_bytes(), out, place);
    put_bytes(s.north.to_be_bytes(), out, next)
}

// Four bytes.
fn put_bytes(bytes: [u8; 4], out: &mut [u8], place: usize) -> usize
    requires { place + 4 ≤ length out.old }
    ensures { Put bytes place out.old out.new result }
{
    let next = place + 4;
    out[place..next].copy_from_slice(&bytes);
    next
}
