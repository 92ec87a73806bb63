// The slopes of the pairs of a list, written behind it.
ghost use Rattle.std.specs.Prelude.{◌<◌};
ghost use Rattle.samples.specs.Positions.{Near};
ghost use Rattle.samples.specs.HeldStream.{stream_of};
ghost use Rattle.samples.specs.Sides.{size, seen};
ghost use Rattle.round.specs.Slopes.{PairSlope, SlopesAsk, Sloped};

use samples::sides::Side;
use samples::streams::Stream;
use slopes::Fraction;

// The slope of two positions, ordered by east.
// No Option: a run of 0 stands for no slope, so that the slopes are stored without a branch.
fn slope_between(p: Stream, q: Stream) -> Fraction
    requires { Near (stream_of p) × Near (stream_of q) }
    ensures { PairSlope (stream_of p) (stream_of q) result.rise result.run }
{
    let run = q.east - p.east;
    let rise = q.north - p.north;
    if run < 0 {
        return Fraction {
            rise: (2000000 - rise) as u32,
            run: (-run) as u32,
        };
    }
    Fraction {
        rise: (2000000 + rise) as u32,
        run: run as u32,
    }
}

// The slope of a pair of samples.
fn slope_of_pair(side: Side, x: u32, y: u32) -> Fraction
    requires { (x < size side) × (y < size side) }
    ensures { PairSlope (seen side.entry x) (seen side.entry y) result.rise result.run }
{
    slope_between(side.position(x), side.position(y))
}

// Writes the slopes of the pairs among the t numbers at the front of w behind these, and says how many they are. Each is stored, and the place moves on
// by the test. The list and its slopes lie in one lent part: memory is fixed.
pub fn slopes(side: Side, w: &mut [u32], t: usize) -> usize
    requires { SlopesAsk (size side) w.old t }
    ensures { Sloped (seen side.entry) w.old t result w.new }
{
    let mut q: usize = 0;
    for i in 0..t / 2 {
        let f = slope_of_pair(side, w[2 * i], w[2 * i + 1]);
        w[t + 2 * q] = f.rise;
        w[t + 2 * q + 1] = f.run;
        q += (0 < f.run) as usize;
    }
    q
}
