// The corners of both rings at one run of places, the second ring's after the first's, and how two corners lie to each other.

ghost use Rattle.std.specs.Prelude.{◌≡◌};
ghost use Rattle.std.specs.Int.Signed.{lt_z};
ghost use Rattle.walk.specs.TwoRings.{Corners};

use samples::streams::{Stream, at, faced};

// Two rings as they lie in four lent lists: two lists of one length for each, every part within the limit, and no more corners together than may be.
#[derive(Clone, Copy)]
pub struct Rings<'a> {
    pub east: &'a [i32],
    pub north: &'a [i32],
    pub east2: &'a [i32],
    pub north2: &'a [i32],
    ghost corners: { Corners east.now north.now east2.now north2.now },
}

impl<'a> Rings<'a> {
    ghost use Rattle.std.specs.Prelude.{◌≡◌, ◌<◌, length, get_or};
    ghost use Rattle.rules.specs.Streams.{sample};
    ghost use Rattle.samples.specs.HeldStream.{stream_of};
    ghost use Rattle.walk.specs.HeldRings.{size, all, seen_at, listed_in};

    // The corner at place k of both rings.
    fn corner(self, k: usize) -> Stream
        requires { k < size self }
        ensures { stream_of result ≡ sample (all self.entry) k }
    {
        if k < self.east.len() {
            return at(self.east, self.north, k);
        }
        at(self.east2, self.north2, k - self.east.len())
    }

    // The same as a side sees it.
    pub fn seen(self, lower: bool, k: usize) -> Stream
        requires { k < size self }
        ensures { stream_of result ≡ seen_at self.entry lower k }
    {
        faced(lower, self.corner(k))
    }

    // The corner whose place stands at i in a list of places.
    pub fn listed(self, lower: bool, w: &[u32], i: usize) -> Stream
        requires { (i < length w.now) × (get_or w.now i 0 < size self) }
        ensures { stream_of result ≡ listed_in self.entry lower w.now i }
    {
        self.seen(lower, w[i] as usize)
    }
}

// p is further west than q. No order of Stream: this and `south` compare one part alone, as the contracts do.
pub fn west(p: Stream, q: Stream) -> bool
    ensures { result ≡ lt_z p.east q.east }
{
    p.east < q.east
}

// p is further south than q.
pub fn south(p: Stream, q: Stream) -> bool
    ensures { result ≡ lt_z p.north q.north }
{
    p.north < q.north
}
