// Heights by a slope that is scaled, and the keys by which tops are found: scaled heights, beside which the east counts only where heights are equal.
ghost use Rattle.whole.specs.Fits.{Within};

use samples::streams::Stream;
use slopes::Slope;

// more than two easts can differ by
const SPREAD: i64 = 2000001;

// A slope times SPREAD: so is the height of a position by it.
#[derive(Clone, Copy)]
pub struct Scaled {
    pub rise: i64,
    pub run: i64,
    ghost rise_near: { Within rise 4000002000000 },
    ghost run_near: { Within run 4000002000000 },
}

// The keys of a position: the top furthest west is the first with the greatest of the one, the top furthest east the first with the greatest of the other.
#[derive(Clone, Copy)]
pub struct Keys {
    pub west: i64,
    pub east: i64,
}

impl Scaled {
    ghost use Rattle.std.specs.Prelude.{◌≡◌};
    ghost use Rattle.rules.specs.Round.{height};
    ghost use Rattle.slopes.specs.Fractions.{as_slope};
    ghost use Rattle.slopes.specs.Fractions as fractions;
    ghost use Rattle.samples.specs.Positions.{Near};
    ghost use Rattle.samples.specs.HeldStream.{stream_of};
    ghost use Rattle.round.specs.Tops.{as_scaled, scaled, KeysAre};

    // K times SPREAD.
    pub fn of(k: Slope) -> Scaled
        requires { fractions.Near (as_slope k) }
        ensures { as_scaled result ≡ scaled (as_slope k) }
    {
        Scaled {
            rise: (k.rise as i64) * SPREAD,
            run: (k.run as i64) * SPREAD,
        }
    }

    // The height of a position, times K's run and SPREAD.
    pub fn height(self, p: Stream) -> i64
        requires { Near (stream_of p) }
        ensures { result ≡ height (as_scaled self) (stream_of p) }
    {
        self.run * (p.north as i64) - self.rise * (p.east as i64)
    }

    // The height less the east, and the height with the east.
    pub fn keys(self, p: Stream) -> Keys
        requires { Near (stream_of p) }
        ensures { KeysAre (as_scaled self) (stream_of p) result }
    {
        let east = p.east as i64;
        let h = self.height(p);
        Keys {
            west: h - east,
            east: h + east,
        }
    }
}
