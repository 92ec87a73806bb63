// Two streams added, and how one way bends from another.

ghost use Rattle.std.specs.Prelude.{◌≡◌};
ghost use Rattle.rules.specs.Use.{added};
ghost use Rattle.laws_sums.specs.Ways.{bend};
ghost use Rattle.samples.specs.Positions.{Near};
ghost use Rattle.samples.specs.HeldStream.{stream_of};

use samples::streams::Stream;

// How the way from u to v bends from the way from p to q, both going east: below zero where it is less steep, above zero where it is steeper.
pub fn bend(p: Stream, q: Stream, u: Stream, v: Stream) -> i64
    requires { Near (stream_of p) × Near (stream_of q) × Near (stream_of u) × Near (stream_of v) }
    ensures { result ≡ bend (stream_of p) (stream_of q) (stream_of u) (stream_of v) }
{
    let pe = p.east as i64;
    let pn = p.north as i64;
    let qe = q.east as i64;
    let qn = q.north as i64;
    let ue = u.east as i64;
    let un = u.north as i64;
    let ve = v.east as i64;
    let vn = v.north as i64;
    (qe - pe) * (vn - un) - (qn - pn) * (ve - ue)
}

// Two streams within the limit added.
pub fn added(p: Stream, q: Stream) -> Stream
    requires { Near (stream_of p) × Near (stream_of q) }
    ensures { stream_of result ≡ added (stream_of p) (stream_of q) }
{
    Stream {
        east: p.east + q.east,
        north: p.north + q.north,
    }
}
