// Samples as a side sees them, by number.
use super::listed::Samples;
use super::streams::{Stream, at, east, faced};

// The samples as they are, for the upper side, or, for the lower, with every north negated.
#[derive(Clone, Copy)]
pub struct Side<'a> {
    pub samples: Samples<'a>,
    pub lower: bool,
}

impl<'a> Side<'a> {
    ghost use Rattle.std.specs.Prelude.{◌≡◌, ◌<◌};
    ghost use Rattle.samples.specs.Positions.{east_of};
    ghost use Rattle.samples.specs.HeldStream.{stream_of};
    ghost use Rattle.samples.specs.Sides.{size, seen, easts};

    // The position of sample x.
    pub fn position(self, x: u32) -> Stream
        requires { x < size self }
        ensures { stream_of result ≡ seen self.entry x }
    {
        faced(
            self.lower,
            at(self.samples.east, self.samples.north, x as usize),
        )
    }

    // Its east, the same for either side.
    pub fn east(self, x: u32) -> i64
        requires { x < size self }
        ensures { result ≡ east_of (easts self.entry) x }
    {
        east(self.samples.east, x)
    }
}
