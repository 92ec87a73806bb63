// The sum of two rings that passed their tests: both halves followed, counted, and written one behind the other.

ghost use Rattle.std.specs.Prelude.{◌≡◌};
ghost use Rattle.rules.specs.Streams.{streams};
ghost use Rattle.rules.specs.Use.{sum};
ghost use Rattle.laws_halves.specs.Closing.{LeftIn};
ghost use Rattle.closing.specs.RingPromise.{unless_short, Outcome};
ghost use Rattle.sum.specs.Corners.{merged_of};
ghost use Rattle.envelope.specs.TwoRings.{Rings};

use crate::follow::{Followed, Stretch, Together};
use crate::reach::Ring;
use halves::scan;
use samples::refusals::{Reason, Refusal};
use samples::streams::same;
use samples::tests::too_short;
use samples::words::clear;
use std::ops::Range;

// The places of the half that goes back that are not left out.
fn left_in(there: Together, back: Together) -> Range<usize>
    ensures { LeftIn (merged_of there.entry) (merged_of back.entry) result.start result.end }
{
    let n = back.count();
    let lo = same(there.last_corner(), back.first_corner()) as usize;
    if lo < n && same(there.first_corner(), back.last_corner()) {
        return lo..n - 1;
    }
    lo..n
}

// The sum of two rings that have corners, unless an output is too short for it. Scratch is zero afterwards.
pub fn write_sum<'a>(
    first: Ring<'a>,
    second: Ring<'a>,
    out_east: &mut [i32],
    out_north: &mut [i32],
    scratch: &mut [u32],
) -> Result<usize, Refusal>
    requires { Rings first.east.now first.north.now second.east.now second.north.now }
    ensures { Outcome
        (unless_short out_east.old out_north.old
        (sum (streams first.entry.east.now first.entry.north.now) (streams second.entry.east.now second.entry.north.now)))
        result out_east.old out_east.new out_north.old out_north.new scratch.old scratch.new }
{
    let h = scan(first.east);
    let g = scan(second.east);
    let there = Together {
        first: Followed {
            ring: first,
            over: Stretch {
                from: 0,
                sides: h.there,
            },
        },
        second: Followed {
            ring: second,
            over: Stretch {
                from: 0,
                sides: g.there,
            },
        },
    };
    let back = Together {
        first: Followed {
            ring: first,
            over: Stretch {
                from: h.turn,
                sides: h.back,
            },
        },
        second: Followed {
            ring: second,
            over: Stretch {
                from: g.turn,
                sides: g.back,
            },
        },
    };
    let corners = there.count();
    let part = left_in(there, back);
    let rest = part.end - part.start;
    clear(scratch);
    if too_short(out_east.len(), out_north.len(), corners + rest) {
        return Err(Reason::OutputShort.into());
    }
    there.put(0, corners, out_east, out_north);
    back.put(
        part.start,
        rest,
        &mut out_east[corners..],
        &mut out_north[corners..],
    );
    Ok(corners + rest)
}
