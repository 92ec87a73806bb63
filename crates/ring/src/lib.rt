// The ring of samples: both chains, made in scratch by chain steps, closed and written.

#![tactic(auto)]

ghost use Rattle.rules.specs.Entries.{ring_answer};
ghost use Rattle.closing.specs.RingPromise.{Outcome};

use chains::sides::sides_of;
use closing::close;
use samples::refusals::Refusal;
use walk::corners::Rings;

// The ring's corners in ring order, at the front of the outputs, unless refused: 1, 2, 3, 4, 18, 5. The scratch has at least 16 words for each sample and 64
// more; it is zero where the ring is written and after 5 and 18; any other refusal alters nothing.
pub fn ring(
    east: &[i32],
    north: &[i32],
    out_east: &mut [i32],
    out_north: &mut [i32],
    scratch: &mut [u32],
) -> Result<usize, Refusal>
    ensures { Outcome
        (ring_answer east.now north.now out_east.old out_north.old scratch.old)
        result out_east.old out_east.new out_north.old out_north.new scratch.old scratch.new }
{
    // no `?`: an edit gives the refusal another number, on its own line
    match sides_of(east, north, scratch) {
        Err(refusal) => Err(refusal),
        Ok(counts) => {
            // with no second ring
            let rings = Rings {
                east,
                north,
                east2: &east[..0],
                north2: &north[..0],
            };
            close(
                rings,
                counts.upper,
                counts.lower,
                out_east,
                out_north,
                scratch,
            )
        }
    }
}
