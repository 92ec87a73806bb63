// The corners of a ring by place, wherever they are kept: in two lent lists, or in the bytes of a record.

ghost use Rattle.std.specs.Prelude.{◌≡◌, ◌<◌, List, ℕ, length};
ghost use Rattle.rules.specs.Lists.{first_place};
ghost use Rattle.rules.specs.Streams.{Stream, streams, sample, beyond};
ghost use Rattle.samples.specs.HeldStream.{stream_of};

use super::streams::{Stream, at, beyond};

pub trait Corners {
    ghost corners: { Self → List Stream };

    // How many corners there are.
    fn count(&self) -> usize
        ensures { result ≡ length (corners self.now) };

    // The corner at place i.
    fn corner(&self, i: usize) -> Stream
        requires { i < length (corners self.now) }
        ensures { stream_of result ≡ sample (corners self.now) i };
}

// Two lent lists of one length, easts and norths.
#[derive(Clone, Copy)]
pub struct Lists<'a> {
    pub east: &'a [i32],
    pub north: &'a [i32],
    ghost even: { length east.now ≡ length north.now },
}

impl<'a> Corners for Lists<'a> {
    ghost corners = { λ ring. streams ring.east.now ring.north.now };

    fn count(&self) -> usize {
        self.east.len()
    }

    fn corner(&self, i: usize) -> Stream {
        at(self.east, self.north, i)
    }
}

// The first place of a corner with a part beyond the limit; the number of corners where there is none.
pub fn first_beyond<C: Corners>(ring: &C) -> usize
    ensures { result ≡ first_place beyond (C.corners ring.now) }
{
    let n = ring.count();
    for i in 0..n {
        if beyond(ring.corner(i)) {
            return i;
        }
    }
    n
}
