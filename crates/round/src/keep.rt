// What the pairs of a list keep, once it is known where the tops lie.
ghost use Rattle.std.specs.Prelude.{◌≡◌, ◌<◌};
ghost use Rattle.rules.specs.Round.{pair, keeps};
ghost use Rattle.slopes.specs.Fractions.{as_slope};
ghost use Rattle.slopes.specs.Fractions as fractions;
ghost use Rattle.samples.specs.Positions.{Near};
ghost use Rattle.samples.specs.HeldStream.{stream_of};
ghost use Rattle.samples.specs.Sides.{size, seen};
ghost use Rattle.round.specs.Keeping.{excess, towards, chosen, PairAsks, KeepAsks, KeptFront};

use samples::sides::Side;
use samples::streams::Stream;
use slopes::Slope;

// Which of a pair are kept.
#[derive(Clone, Copy)]
pub struct Keeps {
    pub first: bool,
    pub second: bool,
}

// How much steeper than K the way from p to q is, times K's run and the way's. The way may go east or west.
fn excess(p: Stream, q: Stream, k: Slope) -> i64
    requires { Near (stream_of p) × (Near (stream_of q) × fractions.Near (as_slope k)) }
    ensures { result ≡ excess (as_slope k) (stream_of p) (stream_of q) }
{
    (q.north as i64 - p.north as i64) * (k.run as i64)
        - (k.rise as i64) * (q.east as i64 - p.east as i64)
}

// What a pair keeps where the tops lie west, all at most a, or else all above a.
fn of_pair(side: Side, x: u32, y: u32, k: Slope, west: bool) -> Keeps
    requires { PairAsks (size side) x y (as_slope k) }
    ensures { keeps (seen side.entry) (towards west (as_slope k)) (pair x y) ≡ chosen result.first result.second x y }
{
    let p = side.position(x);
    let q = side.position(y);
    let c = excess(p, q, k);
    let d = q.east as i64 - p.east as i64;
    // how far the second stands beyond the first, seen from the tops
    let g = if west { d } else { -d };
    // of two at one east the excess tells the higher, and of two at one position the first is kept
    Keeps {
        first: (g < 0) | (c < 0) | ((g == 0) & (c == 0)),
        second: (0 < g) | (0 < c),
    }
}

// Keeps at the front of the list what its pairs keep, in list order, and says how many they are. Both of a pair are stored, and the place moves on by
// the tests. An odd last one is kept. What is kept is written over the list that is read, so no `chunks` of it can be held.
pub fn keep(side: Side, w: &mut [u32], k: Slope, west: bool) -> usize
    requires { KeepAsks (size side) w.old (as_slope k) }
    ensures { KeptFront (seen side.entry) (towards west (as_slope k)) w.old result w.new }
{
    let mut out: usize = 0;
    for i in 0..w.len() / 2 {
        let x = w[2 * i];
        let y = w[2 * i + 1];
        let g = of_pair(side, x, y, k, west);
        w[out] = x;
        out += g.first as usize;
        w[out] = y;
        out += g.second as usize;
    }
    if w.len() % 2 == 1 {
        w[out] = w[w.len() - 1];
        out += 1;
    }
    out
}
