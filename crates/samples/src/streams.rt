// A stream by value: read from two lent lists, as it stands or as a side sees it; the test of its parts, position, sidedness, how strong it sets on a course.

ghost use Rattle.std.specs.Prelude.{not, ◌≡◌, ◌<◌, pos, length};
ghost use Rattle.std.specs.Int.Signed.{le_z, lt_z};
ghost use Rattle.rules.specs.Streams.{streams, sample, within, beyond, same, side};
ghost use Rattle.rules.specs.Chain.{leftmost};
ghost use Rattle.rules.specs.Use.{set_on};
ghost use Rattle.samples.specs.Positions.{facing, at, east_of, Near, Sampled};
ghost use Rattle.samples.specs.HeldStream.{stream_of};

// each part lies from -LIMIT to LIMIT
const LIMIT: i32 = 1000000;

// A stream: an east part and a north part.
#[derive(Clone, Copy, PartialEq, Eq)]
pub struct Stream {
    pub east: i32,
    pub north: i32,
}

// The stream of sample i.
pub fn at(east: &[i32], north: &[i32], i: usize) -> Stream
    requires { (length east.now ≡ length north.now) × (i < length east.now) }
    ensures { stream_of result ≡ sample (streams east.now north.now) i }
{
    Stream {
        east: east[i],
        north: north[i],
    }
}

// The stream as it is, or, for the lower side, mirrored.
pub fn faced(lower: bool, s: Stream) -> Stream
    requires { Near (stream_of s) }
    ensures { stream_of result ≡ facing lower (stream_of s) }
{
    Stream {
        east: s.east,
        north: if lower { -s.north } else { s.north },
    }
}

// The east of sample x, the same for either side.
pub fn east(e: &[i32], x: u32) -> i64
    requires { x < length e.now }
    ensures { result ≡ east_of e.now x }
{
    e[x as usize] as i64
}

// A part beyond the limit.
pub fn part_beyond(x: i32) -> bool
    ensures { result ≡ not (within x) }
{
    (x < -LIMIT) | (LIMIT < x)
}

// A stream with a part beyond the limit.
pub fn beyond(s: Stream) -> bool
    ensures { result ≡ beyond (stream_of s) }
{
    part_beyond(s.east) | part_beyond(s.north)
}

// p and q stand at one position.
pub fn same(p: Stream, q: Stream) -> bool
    ensures { result ≡ same (stream_of p) (stream_of q) }
{
    p == q
}

// The side of r seen on the way from p to q: above zero on the left, below zero on the right.
pub fn side(p: Stream, q: Stream, r: Stream) -> i64
    requires { Near (stream_of p) × Near (stream_of q) × Near (stream_of r) }
    ensures { result ≡ side (stream_of p) (stream_of q) (stream_of r) }
{
    let pe = p.east as i64;
    let pn = p.north as i64;
    let qe = q.east as i64;
    let qn = q.north as i64;
    let re = r.east as i64;
    let rn = r.north as i64;
    (qe - pe) * (rn - pn) - (qn - pn) * (re - pe)
}

// On the way from p to q, r lies strictly right.
pub fn strictly_right(p: Stream, q: Stream, r: Stream) -> bool
    requires { Near (stream_of p) × Near (stream_of q) × Near (stream_of r) }
    ensures { result ≡ lt_z (side (stream_of p) (stream_of q) (stream_of r)) (pos 0) }
{
    side(p, q, r) < 0
}

// On the way from p to q, r lies right or on the line.
pub fn not_left(p: Stream, q: Stream, r: Stream) -> bool
    requires { Near (stream_of p) × Near (stream_of q) × Near (stream_of r) }
    ensures { result ≡ le_z (side (stream_of p) (stream_of q) (stream_of r)) (pos 0) }
{
    side(p, q, r) <= 0
}

// How strong s sets on a course.
pub fn set_on(course: Stream, s: Stream) -> i64
    requires { Near (stream_of course) × Near (stream_of s) }
    ensures { result ≡ set_on course.east course.north (stream_of s) }
{
    let x = course.east as i64;
    let y = course.north as i64;
    let e = s.east as i64;
    let n = s.north as i64;
    x * e + y * n
}

// p is nearer the left end than q: further west, or north of it.
pub fn leftmost(p: Stream, q: Stream) -> bool
    ensures { result ≡ leftmost (stream_of p) (stream_of q) }
{
    (p.east < q.east) | ((p.east == q.east) & (q.north < p.north))
}
