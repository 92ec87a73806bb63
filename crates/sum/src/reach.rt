// How far the sum reaches: it has a corner beyond the limit exactly if on one of the four plain courses the strongest corners of both rings add up beyond it.

ghost use Rattle.std.specs.Prelude.{◌≡◌};
ghost use Rattle.rules.specs.Lists.{some_of};
ghost use Rattle.rules.specs.Streams.{streams, beyond};
ghost use Rattle.rules.specs.Use.{sum};
ghost use Rattle.laws_sums.specs.Beyond.{Outermost};
ghost use Rattle.samples.specs.Positions.{Near};
ghost use Rattle.samples.specs.HeldStream.{stream_of};
ghost use Rattle.sum.specs.Reaches.{One, StrongestCorner};

use crate::ways::added;
use envelope::strongest::strongest_place;
use samples::streams::{Stream, at, beyond};

// A ring within the limit that has a corner. Samples may have none, so it is no Samples.
#[derive(Clone, Copy)]
pub struct Ring<'a> {
    pub east: &'a [i32],
    pub north: &'a [i32],
    ghost one: { One east.now north.now },
}

impl Ring<'_> {
    // The corner that sets strongest on a course.
    fn strongest(self, course: Stream) -> Stream
        requires { Near (stream_of course) }
        ensures { StrongestCorner course.east course.north self.entry.east.now self.entry.north.now (stream_of result) }
    {
        at(
            self.east,
            self.north,
            strongest_place(self.east, self.north, course),
        )
    }
}

// The sum of the strongest corners of both on a course, which no other sum sets stronger than.
fn outermost(first: Ring, second: Ring, course: Stream) -> Stream
    requires { Near (stream_of course) }
    ensures { Outermost course.east course.north
        (streams first.entry.east.now first.entry.north.now) (streams second.entry.east.now second.entry.north.now)
        (stream_of result) }
{
    added(first.strongest(course), second.strongest(course))
}

// A corner of the sum is beyond the limit.
pub fn too_far(first: Ring, second: Ring) -> bool
    ensures { result
        ≡ some_of beyond
        (sum (streams first.entry.east.now first.entry.north.now) (streams second.entry.east.now second.entry.north.now)) }
{
    let courses = [
        Stream { east: 1, north: 0 },
        Stream { east: -1, north: 0 },
        Stream { east: 0, north: 1 },
        Stream { east: 0, north: -1 },
    ];
    for course in courses {
        if beyond(outermost(first, second, course)) {
            return true;
        }
    }
    false
}
