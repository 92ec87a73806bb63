// The record reader: the going-to ring that a record's bytes mean, if the corners stored are an envelope.
#![tactic(auto)]

ghost use Rattle.std.specs.Prelude.{◌≡◌, ◌+◌, ◌≤◌, length};
ghost use Rattle.rules.specs.Lists.{written};
ghost use Rattle.rules.specs.Record.{head_size, size_of_sense, word, twos, version, corners_in, sense};
ghost use Rattle.rules.specs.Refusals.{unless, output_after};
ghost use Rattle.rules.specs.Entries.{frame_tests, record_answer, easts, norths, counted};
ghost use Rattle.samples.specs.Answers.{answer_of, answer_as};
ghost use Rattle.samples.specs.Forms.{version_byte, sense_byte, ReadsSense};
ghost use Rattle.envelope.specs.Begins.{Begins, turned_if};
ghost use Rattle.envelope.specs.CornersNear.{CornersNear};
ghost use Rattle.reader.specs.RecordAnswers.{CornersRead, Room, corners_answer, framed_as, found};

use envelope::test::is_envelope;
use envelope::turn::{first_corner, turned_corner};
use samples::corners::{Corners, first_beyond};
use samples::forms::{Sense, Version};
use samples::refusals::{Reason, Refusal};
use samples::streams::Stream;
use samples::tests::{MOST, too_short};

// The ring that a record means, at the front of the two outputs. A refusal alters neither.
pub fn read_record(bytes: &[u8], east: &mut [i32], north: &mut [i32]) -> Result<usize, Refusal>
    ensures answer { answer_of result ≡ counted (record_answer bytes.now east.old north.old) }
    ensures east { east.new ≡ output_after easts (record_answer bytes.now east.old north.old) east.old }
    ensures north { north.new ≡ output_after norths (record_answer bytes.now east.old north.old) north.old }
{
    let record = frame(bytes)?;
    read_corners(record.sense, record.corners, east, north)
}

// What stands in a record whose frame is right: the sense, and the bytes of the corners.
#[derive(Clone, Copy)]
struct Framed<'a> {
    sense: Sense,
    corners: &'a [u8],
}

// A record's frame, by the tests of the bytes around the corners: 17 if empty, 16, 17 for under 5 bytes, 21, 17 or 20, 22.
fn frame(bytes: &[u8]) -> Result<Framed, Refusal>
    ensures { answer_as framed_as result ≡ unless (frame_tests bytes.now) (found bytes.now) }
{
    if bytes.len() == 0 {
        return Err(Reason::EndsEarly.into());
    }
    let version = Version::try_from(bytes[0])?;
    if bytes.len() < 5 {
        return Err(Reason::EndsEarly.at(bytes.len()));
    }
    let rest = bytes.len() - 5;
    let said = word(bytes, 1) as usize;
    if said % 8 != version.sense_size() {
        return Err(Reason::OddLength.at(1));
    }
    if rest < said {
        return Err(Reason::EndsEarly.at(5 + rest));
    }
    if said < rest {
        return Err(Reason::BytesFollow.at(5 + said));
    }
    let start = 5 + version.sense_size();
    match sense(version, bytes) {
        Ok(sense) => Ok(Framed {
            sense,
            corners: &bytes[start..],
        }),
        Err(reason) => Err(reason.at(5)),
    }
}

// What the record says of its sense; version 1 says nothing, and is going to.
fn sense(of: Version, bytes: &[u8]) -> Result<Sense, Reason>
    requires { (version bytes.now ≡ version_byte of) × (head_size + size_of_sense (version_byte of) ≤ length bytes.now) }
    ensures { ReadsSense (sense bytes.now) result }
{
    match of {
        Version::First => Ok(Sense::GoingTo),
        Version::Second => Sense::try_from(bytes[5]),
    }
}

// The corners that bytes have, 4 bytes east and 4 bytes north for each.
#[derive(Clone, Copy)]
struct Stored<'a> {
    bytes: &'a [u8],
}

impl<'a> Corners for Stored<'a> {
    ghost corners = { λ ring. corners_in ring.bytes.now };

    fn count(&self) -> usize {
        self.bytes.len() / 8
    }

    fn corner(&self, i: usize) -> Stream {
        let at = 8 * i;
        Stream {
            east: part(self.bytes, at),
            north: part(self.bytes, at + 4),
        }
    }
}

// The ring of corners that are stored in a sense, at the front of the two outputs, unless refused: 2, 3, 9, 5.
fn read_corners(
    sense: Sense,
    bytes: &[u8],
    east: &mut [i32],
    north: &mut [i32],
) -> Result<usize, Refusal>
    ensures { CornersRead (corners_answer (sense_byte sense) bytes.now east.old north.old) east.old north.old result east.new north.new }
{
    let ring = Stored { bytes };
    let n = ring.count();
    if MOST < n {
        return Err(Reason::TooMany.into());
    }
    let place = first_beyond(&ring);
    if place < n {
        return Err(Reason::PartBeyond.at(place));
    }
    if !is_envelope(&ring) {
        return Err(Reason::NotEnvelope.into());
    }
    if too_short(east.len(), north.len(), n) {
        return Err(Reason::OutputShort.into());
    }
    let about = sense == Sense::ComingFrom;
    let first = first_corner(about, &ring);
    write(about, first, &ring, east, north);
    Ok(n)
}

// The corners, written, as they are or turned about.
fn write(about: bool, first: usize, ring: &Stored, east: &mut [i32], north: &mut [i32])
    requires near { CornersNear (corners_in ring.now.bytes.now) }
    requires begins { Begins about (corners_in ring.now.bytes.now) first }
    requires room { Room (length (corners_in ring.now.bytes.now)) east.old north.old }
    ensures east { east.new ≡ written (easts (turned_if about (corners_in ring.now.bytes.now))) east.old }
    ensures north { north.new ≡ written (norths (turned_if about (corners_in ring.now.bytes.now))) north.old }
{
    for i in 0..ring.count() {
        let c = turned_corner(about, first, ring, i);
        east[i] = c.east;
        north[i] = c.north;
    }
}

// Four bytes in two's complement, the first the highest.
fn part(bytes: &[u8], at: usize) -> i32
    requires { at + 4 ≤ length bytes.now }
    ensures { result ≡ twos (word bytes.now at) }
{
    i32::from_be_bytes([bytes[at], bytes[at + 1], bytes[at + 2], bytes[at + 3]])
}

// Four bytes as a number, the first the highest.
fn word(bytes: &[u8], at: usize) -> u32
    requires { at + 4 ≤ length bytes.now }
    ensures { result ≡ word bytes.now at }
{
    u32::from_be_bytes([bytes[at], bytes[at + 1], bytes[at + 2], bytes[at + 3]])
}
