// The strongest set on a course: the greatest x * east + y * north over a ring's corners, and the first place that has it.

ghost use Rattle.std.specs.Prelude.{◌≡◌, ◌&&◌, ◌<◌, pos, length};
ghost use Rattle.rules.specs.Streams.{streams, eqZ};
ghost use Rattle.rules.specs.Entries.{strongest_answer};
ghost use Rattle.samples.specs.Positions.{Near, Sampled};
ghost use Rattle.samples.specs.HeldStream.{stream_of};
ghost use Rattle.samples.specs.Answers.{answer_as};
ghost use Rattle.envelope.specs.UseAnswers.{strongest_as};
ghost use Rattle.envelope.specs.FirstBest.{First, stronger};

use crate::test::of_ring_and_stream;
use samples::refusals::{Reason, Refusal};
use samples::streams::{Stream, at, set_on};

// The greatest set and the first place that has it.
#[derive(Clone, Copy)]
pub struct Greatest {
    pub set: i64,
    pub place: usize,
}

// The first place that no corner beats.
pub fn strongest_place(east: &[i32], north: &[i32], course: Stream) -> usize
    requires { Sampled east.now north.now × Near (stream_of course) × (0 < length east.now) }
    ensures { First (stronger course.east course.north) (streams east.now north.now)
        (length east.now) result }
{
    let mut best = 0;
    for i in 1..east.len() {
        if set_on(course, at(east, north, best)) < set_on(course, at(east, north, i)) {
            best = i;
        }
    }
    best
}

// The course (0, 0).
fn nowhere(course: Stream) -> bool
    requires { Near (stream_of course) }
    ensures { result ≡ (eqZ course.east (pos 0) && eqZ course.north (pos 0)) }
{
    if course.east == 0 {
        return course.north == 0;
    }
    false
}

// The strongest set on the course (x, y), unless refused: 1, 2 and 3 for the ring, 3 for the course, 9, 10, 11.
pub fn strongest(east: &[i32], north: &[i32], x: i32, y: i32) -> Result<Greatest, Refusal>
    ensures { answer_as strongest_as result ≡ strongest_answer east.now north.now x y }
{
    let course = Stream { east: x, north: y };
    of_ring_and_stream(east, north, course)?;
    if east.len() == 0 {
        return Err(Reason::NoCorner.into());
    }
    if nowhere(course) {
        return Err(Reason::NoCourse.into());
    }
    let place = strongest_place(east, north, course);
    let set = set_on(course, at(east, north, place));
    Ok(Greatest { set, place })
}
