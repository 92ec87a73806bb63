// Two stretches of rings followed together: the sum of the corners where both start, then always along the steeper of the two next sides, along both at once
// where they have one slope.

ghost use Rattle.std.specs.Prelude.{◌≡◌, ◌+◌, ◌≤◌, ◌<◌, length};
ghost use Rattle.std.proofs.Math.Seq.{slice};
ghost use Rattle.rules.specs.Lists.{written};
ghost use Rattle.rules.specs.Streams.{sample, most};
ghost use Rattle.rules.specs.Use.{added};
ghost use Rattle.rules.specs.Entries.{easts, norths};
ghost use Rattle.laws_sums.specs.MergePlaces.{Next};
ghost use Rattle.samples.specs.HeldStream.{stream_of};
ghost use Rattle.sum.specs.Stretches.{On, last_corner, Steps, Reached};

use crate::reach::Ring;
use crate::ways::{added, bend};
use halves::corner;
use samples::streams::Stream;

// A stretch of a ring: from a place on, over so many sides. Not walk's Way, which counts corners and may go back.
#[derive(Clone, Copy)]
pub struct Stretch {
    pub from: usize,
    pub sides: usize,
}

// A ring, and a stretch of it.
#[derive(Clone, Copy)]
pub struct Followed<'a> {
    pub ring: Ring<'a>,
    pub over: Stretch,
    ghost on: { On ring.east.now ring.north.now over },
}

// Two rings followed together.
#[derive(Clone, Copy)]
pub struct Together<'a> {
    pub first: Followed<'a>,
    pub second: Followed<'a>,
    ghost few: { length first.ring.east.now + length second.ring.east.now ≤ most },
}

// A place of each of two stretches.
#[derive(Clone, Copy)]
pub struct Places {
    pub first: usize,
    pub second: usize,
}

// Where both start.
const START: Places = Places {
    first: 0,
    second: 0,
};

impl Followed<'_> {
    ghost use Rattle.sum.specs.Corners.{corners_of};

    // The corner at place i of the stretch.
    fn at(self, i: usize) -> Stream
        requires { i ≤ self.over.sides }
        ensures { stream_of result ≡ sample (corners_of self.entry) i }
    {
        corner(self.ring.east, self.ring.north, self.over.from + i)
    }
}

impl Together<'_> {
    ghost use Rattle.sum.specs.Corners.{corners_of, merged_of, PairOf};

    // The sum of the corners at two places.
    fn sum_at(self, at: Places) -> Stream
        requires { PairOf self at.first at.second }
        ensures { stream_of result
            ≡ added
            (sample (corners_of self.entry.first) at.first)
            (sample (corners_of self.entry.second) at.second) }
    {
        added(self.first.at(at.first), self.second.at(at.second))
    }

    // The next pair of places.
    fn next(self, at: Places) -> Places
        requires { PairOf self at.first at.second
            × (at.first + at.second < self.first.over.sides + self.second.over.sides) }
        ensures { Next
            (corners_of self.entry.first) (corners_of self.entry.second)
            at.first at.second result.first result.second }
    {
        let i = at.first;
        let j = at.second;
        if self.first.over.sides == i {
            return Places {
                first: i,
                second: j + 1,
            };
        }
        if self.second.over.sides == j {
            return Places {
                first: i + 1,
                second: j,
            };
        }
        let z = bend(
            self.first.at(i),
            self.first.at(i + 1),
            self.second.at(j),
            self.second.at(j + 1),
        );
        if z < 0 {
            return Places {
                first: i + 1,
                second: j,
            };
        }
        if 0 < z {
            return Places {
                first: i,
                second: j + 1,
            };
        }
        Places {
            first: i + 1,
            second: j + 1,
        }
    }

    // The sum of the corners where both start, which is the first.
    pub fn first_corner(self) -> Stream
        ensures { stream_of result ≡ sample (merged_of self.entry) 0 }
    {
        self.sum_at(START)
    }

    // The sum of the corners where both end, which is the last.
    pub fn last_corner(self) -> Stream
        ensures { stream_of result ≡ last_corner (merged_of self.entry) }
    {
        self.sum_at(Places {
            first: self.first.over.sides,
            second: self.second.over.sides,
        })
    }

    // How many corners there are.
    pub fn count(self) -> usize
        ensures { result ≡ length (merged_of self.entry) }
    {
        // a step goes along one side or two, so how many steps there are only the walk tells
        let mut n = 1;
        let mut at = START;
        while at.first + at.second < self.first.over.sides + self.second.over.sides {
            at = self.next(at);
            n += 1;
        }
        n
    }

    // The next pair of places, or the same at the end.
    fn step(self, at: Places) -> Places
        requires { PairOf self at.first at.second }
        ensures { PairOf self.entry result.first result.second
            × Steps
            (corners_of self.entry.first) (corners_of self.entry.second)
            at.first at.second result.first result.second }
    {
        if at.first + at.second < self.first.over.sides + self.second.over.sides {
            return self.next(at);
        }
        at
    }

    // Where corner lo stands, which is the first or the second.
    fn start(self, lo: usize) -> Places
        requires { lo ≤ 1 }
        ensures { PairOf self.entry result.first result.second
            × Reached
            (corners_of self.entry.first) (corners_of self.entry.second)
            lo result.first result.second }
    {
        if lo == 1 {
            return self.step(START);
        }
        START
    }

    // From corner lo on n corners at the front of the outputs.
    pub fn put(self, lo: usize, n: usize, out_east: &mut [i32], out_north: &mut [i32])
        requires { (lo ≤ 1)
            × (lo + n ≤ length (merged_of self))
            × (n ≤ length out_east.old) × (n ≤ length out_north.old) }
        ensures { (out_east.new
            ≡ written (easts (slice lo (lo + n) (merged_of self.entry))) out_east.old)
            × (out_north.new
            ≡ written (norths (slice lo (lo + n) (merged_of self.entry))) out_north.old) }
    {
        let mut at = self.start(lo);
        for k in 0..n {
            let s = self.sum_at(at);
            out_east[k] = s.east;
            out_north[k] = s.north;
            at = self.step(at);
        }
    }
}
