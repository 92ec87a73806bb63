// Two ways walked together, one over corners of each ring, both from west to east: the next corner of the way that is further west is drawn.
// The side and the two ways are no part of Rings: one struct of rings serves both sides, and closing, which has no ways.

ghost use Rattle.std.specs.Prelude.{◌≡◌, ◌<◌};
ghost use Rattle.walk.specs.Ways.{way_place, Inside, Ways, Stands, Second, Drawn};

use crate::corners::{Rings, west};

// A way over so many corners of a ring: from a place on, or, for the lower side, from a place back.
#[derive(Clone, Copy)]
pub struct Way {
    pub from: usize,
    pub count: usize,
}

// A step of the walk: the place that is drawn, and how many corners of each way are drawn with it.
#[derive(Clone, Copy)]
pub struct Step {
    pub place: usize,
    pub first: usize,
    pub second: usize,
}

impl Way {
    // Where its corner i stands among the m corners of its ring, place 0 again after the last.
    fn place(self, lower: bool, m: usize, i: usize) -> usize
        requires { Inside lower m self × (i < self.count) }
        ensures { result ≡ way_place lower m self.from i }
    {
        if !lower {
            return self.from + i;
        }
        let k = self.from - i;
        if k == m {
            return 0;
        }
        k
    }
}

// The second way is the next: the first is over, or the second's next corner is further west.
fn second_next(rings: Rings, lower: bool, a: Way, b: Way, i: usize, j: usize) -> bool
    requires { Ways rings.east.now rings.north.now rings.east2.now rings.north2.now lower a b × Stands a b i j }
    ensures { Second rings.entry.east.now rings.entry.north.now rings.entry.east2.now rings.entry.north2.now lower a b i j result }
{
    if i == a.count {
        return true;
    }
    if j == b.count {
        return false;
    }
    let x = a.place(lower, rings.east.len(), i);
    let y = rings.east.len() + b.place(lower, rings.east2.len(), j);
    west(rings.seen(lower, y), rings.seen(lower, x))
}

// The next corner of both ways is drawn, after i of the first and j of the second.
pub fn draw(rings: Rings, lower: bool, a: Way, b: Way, i: usize, j: usize) -> Step
    requires { Ways rings.east.now rings.north.now rings.east2.now rings.north2.now lower a b × Stands a b i j }
    ensures { Drawn rings.entry.east.now rings.entry.north.now rings.entry.east2.now rings.entry.north2.now lower a b i j
        result.place result.first result.second }
{
    if second_next(rings, lower, a, b, i, j) {
        return Step {
            place: rings.east.len() + b.place(lower, rings.east2.len(), j),
            first: i,
            second: j + 1,
        };
    }
    Step {
        place: a.place(lower, rings.east.len(), i),
        first: i + 1,
        second: j,
    }
}
