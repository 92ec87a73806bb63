// The cover test: whether the stream is a weighted mean of corners, told by sidedness.

ghost use Rattle.std.specs.Prelude.{◌≡◌, [], ◌∷◌, ◌<◌, length};
ghost use Rattle.rules.specs.Streams.{streams};
ghost use Rattle.rules.specs.Use.{between, covers};
ghost use Rattle.rules.specs.Entries.{cover_answer};
ghost use Rattle.samples.specs.Positions.{Near, Sampled};
ghost use Rattle.samples.specs.HeldStream.{stream_of};
ghost use Rattle.samples.specs.Answers.{answer_of};
ghost use Rattle.envelope.specs.RoundTheRing.{beside_from};

use crate::test::of_ring_and_stream;
use samples::refusals::Refusal;
use samples::streams::{Stream, at, not_left, same, side};

// x lies from a to b or from b to a, ends included.
fn between(a: i32, b: i32, x: i32) -> bool
    ensures { result ≡ between a b x }
{
    ((a <= x) & (x <= b)) | ((b <= x) & (x <= a))
}

// The stream lies on the segment from p to q.
fn on_segment(p: Stream, q: Stream, s: Stream) -> bool
    requires { Near (stream_of p) × Near (stream_of q) × Near (stream_of s) }
    ensures { result ≡ covers (stream_of p ∷ stream_of q ∷ []) (stream_of s) }
{
    let level = side(p, q, s) == 0;
    level & between(p.east, q.east, s.east) & between(p.north, q.north, s.north)
}

// The stream lies right of or on every edge, from place 0 on and back.
fn beside(east: &[i32], north: &[i32], s: Stream) -> bool
    requires { Sampled east.now north.now × Near (stream_of s) × (0 < length east.now) }
    ensures { result ≡ beside_from (streams east.now north.now) (stream_of s) 1 }
{
    let n = east.len();
    for i in 1..n {
        if !not_left(at(east, north, i - 1), at(east, north, i), s) {
            return false;
        }
    }
    not_left(at(east, north, n - 1), at(east, north, 0), s)
}

// The corners cover the stream: none nothing, one its position, two the segment between them, more what lies right of or on every edge.
fn covers(east: &[i32], north: &[i32], s: Stream) -> bool
    requires { Sampled east.now north.now × Near (stream_of s) }
    ensures { result ≡ covers (streams east.now north.now) (stream_of s) }
{
    let n = east.len();
    if n == 0 {
        return false;
    }
    if n == 1 {
        return same(at(east, north, 0), s);
    }
    if n == 2 {
        return on_segment(at(east, north, 0), at(east, north, 1), s);
    }
    beside(east, north, s)
}

// Whether the ring covers the stream (x, y), unless refused: 1, 2 and 3 for the ring, 3 for the stream, 9.
pub fn cover(east: &[i32], north: &[i32], x: i32, y: i32) -> Result<bool, Refusal>
    ensures { answer_of result ≡ cover_answer east.now north.now x y }
{
    let s = Stream { east: x, north: y };
    of_ring_and_stream(east, north, s)?;
    Ok(covers(east, north, s))
}
