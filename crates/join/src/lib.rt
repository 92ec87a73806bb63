// Join: the ring of both rings' positions, in time linear in the corners: the upper chain, walked over the upper halves of both rings, the lower chain,
// walked over the lower halves, closed. Easts and norths come as two lent lists for each ring, and go to two: the C interface, and the form that the rules fix.
#![tactic(auto)]

ghost use Rattle.std.specs.Prelude.{◌+◌, ◌≤◌, length};
ghost use Rattle.rules.specs.Streams.{streams};
ghost use Rattle.rules.specs.Use.{join};
ghost use Rattle.rules.specs.Entries.{join_answer};
ghost use Rattle.samples.specs.Positions.{east_of};
ghost use Rattle.envelope.specs.TwoRings as tested;
ghost use Rattle.walk.specs.TwoRings.{count};
ghost use Rattle.closing.specs.RingPromise.{unless_short, Outcome};
ghost use Rattle.join.specs.RingWays.{WaysHeld};

use closing::close;
use envelope::test::of_ring;
use halves::scan;
use samples::refusals::{Reason, Refusal};
use samples::tests::MOST;
use walk::chain::chain;
use walk::corners::Rings;
use walk::draw::Way;

// The ways over an envelope's corners from west to east: above over the half that goes there, below back over the other.
#[derive(Clone, Copy)]
struct BothWays {
    above: Way,
    below: Way,
}

impl BothWays {
    // Those that the easts tell. A ring without corners has none to go over.
    fn of(east: &[i32]) -> BothWays
        ensures { WaysHeld (east_of east.now) (length east.now) result.above result.below }
    {
        if east.is_empty() {
            return BothWays {
                above: Way { from: 0, count: 0 },
                below: Way { from: 0, count: 0 },
            };
        }
        let h = scan(east);
        BothWays {
            above: Way {
                from: 0,
                count: h.there + 1,
            },
            below: Way {
                from: h.turn + h.back,
                count: h.back + 1,
            },
        }
    }
}

// The join of two rings that passed their tests, with room in scratch: both chains, closed. Scratch is zero afterwards.
fn write_join(
    east: &[i32],
    north: &[i32],
    east2: &[i32],
    north2: &[i32],
    out_east: &mut [i32],
    out_north: &mut [i32],
    scratch: &mut [u32],
) -> Result<usize, Refusal>
    requires { tested.Rings east.now north.now east2.now north2.now
        × (count east.now east2.now + count east.now east2.now + 4 ≤ length scratch.old) }
    ensures { Outcome
        (unless_short out_east.old out_north.old
        (join (streams east.now north.now) (streams east2.now north2.now)))
        result out_east.old out_east.new out_north.old out_north.new scratch.old scratch.new }
{
    let first = BothWays::of(east);
    let second = BothWays::of(east2);
    let rings = Rings {
        east,
        north,
        east2,
        north2,
    };
    let upper = chain(rings, false, first.above, second.above, scratch);
    let lower = chain(
        rings,
        true,
        first.below,
        second.below,
        &mut scratch[upper..],
    );
    close(rings, upper, lower, out_east, out_north, scratch)
}

// The ring of both rings' positions, at the front of the outputs, unless refused: each ring's 1, 2, 3, 9, then 2 for both, 4, 5. Scratch is zero where
// the ring is written and after 5; any other refusal alters nothing.
pub fn join(
    east: &[i32],
    north: &[i32],
    east2: &[i32],
    north2: &[i32],
    out_east: &mut [i32],
    out_north: &mut [i32],
    scratch: &mut [u32],
) -> Result<usize, Refusal>
    ensures { Outcome
        (join_answer east.now north.now east2.now north2.now out_east.old
        out_north.old scratch.old)
        result out_east.old out_east.new out_north.old out_north.new scratch.old scratch.new }
{
    // the tests of envelope's `two_rings`, one by one: each edit of this entry changes one of them
    of_ring(east, north)?;
    of_ring(east2, north2)?;
    let both = east.len() + east2.len();
    if MOST < both {
        return Err(Reason::TooMany.into());
    }
    if scratch.len() < 16 * both + 64 {
        return Err(Reason::ScratchShort.into());
    }
    write_join(east, north, east2, north2, out_east, out_north, scratch)
}
