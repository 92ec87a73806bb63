// What lies in scratch, written to the outputs if it fits; then all the scratch is cleared.
ghost use Rattle.std.specs.Prelude.{◌+◌, ◌≤◌, length, take, drop};
ghost use Rattle.chains.specs.Promise.{ChainsWritten};

use super::Counts;
use samples::refusals::{Reason, Refusal};
use samples::words::{clear, write};

// Two chains of so many numbers at the front of scratch.
pub fn both(
    counts: Counts,
    upper: &mut [u32],
    lower: &mut [u32],
    scratch: &mut [u32],
) -> Result<Counts, Refusal>
    requires { counts.upper + counts.lower ≤ length scratch.old }
    ensures { ChainsWritten (take counts.upper scratch.old) (take counts.lower (drop counts.upper scratch.old))
        upper.old lower.old scratch.old result upper.new lower.new scratch.new }
{
    let u = counts.upper;
    let v = counts.lower;
    if upper.len() < u || lower.len() < v {
        clear(scratch);
        return Err(Reason::OutputShort.into());
    }
    let end = u + v;
    write(&scratch[..u], upper);
    write(&scratch[u..end], lower);
    clear(scratch);
    Ok(counts)
}
