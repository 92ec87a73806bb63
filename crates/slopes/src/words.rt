// A slope as it lies in scratch, and the one comparison of slopes.
ghost use Rattle.std.specs.Prelude.{◌≡◌, ◌+◌, ◌*◌, ◌<◌, ◌*ℤ◌, length, get_or};
ghost use Rattle.rules.specs.Round.{slope_le};
ghost use Rattle.laws_ranks.specs.Ranks.{under};
ghost use Rattle.slopes.specs.Fractions.{as_slope, put, Part, Near};
ghost use Rattle.slopes.specs.Passes.{Shows, Read, Stands, copied};

use super::{Fraction, Slope};

impl Fraction {
    // The words of slope k of those at the front of w.
    pub(super) fn at(w: &[u32], k: usize) -> Fraction
        requires { 2 * k + 1 < length w.now }
        ensures { Read w.now k result }
    {
        Fraction {
            rise: w[2 * k],
            run: w[2 * k + 1],
        }
    }

    // The slope of the two words.
    pub(super) fn slope(self) -> Slope
        requires { Part self.rise self.run }
        ensures { Shows self.rise self.run (as_slope result) }
    {
        Slope {
            rise: (self.rise as i32) - 2000000,
            run: self.run as i32,
        }
    }

    // Stores the words as slope k.
    pub(super) fn store(self, w: &mut [u32], k: usize)
        requires { 2 * k + 1 < length w.old }
        ensures { w.new ≡ put w.old k self.rise self.run }
    {
        w[2 * k] = self.rise;
        w[2 * k + 1] = self.run;
    }
}

impl Slope {
    // Slope k of those at the front of w.
    pub(super) fn at(w: &[u32], k: usize) -> Slope
        requires { Stands w.now k }
        ensures { Shows (get_or w.now (2 * k) 0) (get_or w.now (2 * k + 1) 0) (as_slope result) }
    {
        Fraction::at(w, k).slope()
    }

    // One of the two cross products with k.
    fn cross(self, k: Slope) -> i64
        requires { Near (as_slope self) × Near (as_slope k) }
        ensures { result ≡ self.rise *ℤ k.run }
    {
        (self.rise as i64) * (k.run as i64)
    }

    // It is below k. The products fit in 64 bits where both slopes are near, so that it is no `<`, which asks nothing.
    pub(super) fn below(self, k: Slope) -> bool
        requires { Near (as_slope self) × Near (as_slope k) }
        ensures { result ≡ under slope_le (as_slope k) (as_slope self) }
    {
        self.cross(k) < k.cross(self)
    }
}

// Copies slope i to the place of slope k.
pub fn copy(w: &mut [u32], i: usize, k: usize)
    requires { (2 * i + 1 < length w.old) × (2 * k + 1 < length w.old) }
    ensures { w.new ≡ copied w.old i k }
{
    Fraction::at(w, i).store(w, k);
}
