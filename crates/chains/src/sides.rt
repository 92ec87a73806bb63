// The two sides: the samples are tested, and from the first list the chain of each side is made, both side by side in scratch.
ghost use Rattle.std.specs.Prelude.{◌≡◌};
ghost use Rattle.rules.specs.Lists.{zeros};
ghost use Rattle.samples.specs.Sides.{easts, norths};
ghost use Rattle.samples.specs.declared.refusals.Reason.TheVariants.{StepWithoutBridge};
ghost use Rattle.chains.specs.BothSides.{SideAsks, SideSays, SidesSay};

use super::Counts;
use samples::listed::Samples;
use samples::refusals::{Reason, Refusal};
use samples::sides::Side;
use samples::words::clear;
use step::chain;
use step::ends::end_of;
use step::lists::first;

// The chain of one side of the samples at the front of w, and how many corners it has.
fn side(s: Side, w: &mut [u32]) -> Option<usize>
    requires { SideAsks (easts s) w.old }
    ensures { SideSays (easts s.entry) (norths s.entry) s.entry.lower result w.new }
{
    let e = s.samples.east;
    if e.len() == 0 {
        return Some(0);
    }
    let p = end_of(s, false);
    let q = end_of(s, true);
    let t = first(e, w, p, q);
    chain(s, w, t, p, q)
}

// The refusal where a chain step's list has no bridge over its cut: the scratch is left zero.
fn no_bridge(scratch: &mut [u32]) -> Refusal
    ensures { (result ≡ record { reason = StepWithoutBridge; place = 0 }) × (scratch.new ≡ zeros scratch.old) }
{
    clear(scratch);
    Reason::StepWithoutBridge.into()
}

// The upper chain at the front of scratch and the lower chain behind it, unless refused: 1, 2, 3, 4, 18. After 18 the scratch is zero; any other refusal alters
// nothing.
pub fn sides_of(e: &[i32], n: &[i32], scratch: &mut [u32]) -> Result<Counts, Refusal>
    ensures { SidesSay e.now n.now scratch.old result scratch.new }
{
    let samples = Samples::tested_with(e, n, scratch.len())?;
    let above = Side {
        samples,
        lower: false,
    };
    let below = Side {
        samples,
        lower: true,
    };
    let Some(upper) = side(above, scratch) else {
        return Err(no_bridge(scratch));
    };
    let Some(lower) = side(below, &mut scratch[upper..]) else {
        return Err(no_bridge(scratch));
    };
    Ok(Counts { upper, lower })
}
