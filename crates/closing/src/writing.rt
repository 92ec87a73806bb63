// The ring's corners, written: the upper chain's, then the lower chain's on the way back.

ghost use Rattle.std.specs.Prelude.{◌≡◌, ◌++◌, ◌+◌, ◌^◌, ◌<◌, drop};
ghost use Rattle.laws_stack.specs.Places.{listed};
ghost use Rattle.walk.specs.HeldRings.{size};
ghost use Rattle.closing.specs.TwoChains.{ring_place, Room};
ghost use Rattle.closing.specs.HeldChains.{corner_in};

use walk::corners::Rings;

// Where the ring's corner i stands in w: on the upper chain, or on the way back.
fn place(u: usize, hi: usize, i: usize) -> usize
    requires { (i < u + hi) × (u + hi < 2 ^ 64) }
    ensures { result ≡ ring_place u hi i }
{
    if i < u {
        return i;
    }
    u + (hi - 1 - (i - u))
}

// The ring's n corners at the front of the outputs.
pub fn put(
    rings: Rings,
    w: &[u32],
    u: usize,
    hi: usize,
    n: usize,
    out_east: &mut [i32],
    out_north: &mut [i32],
)
    requires { Room (size rings) w.now u hi n out_east.old out_north.old }
    ensures { (out_east.new
        ≡ listed (λ i. (corner_in rings.entry w.now u hi i).east) n ++ drop n out_east.old)
        × (out_north.new
        ≡ listed (λ i. (corner_in rings.entry w.now u hi i).north) n ++ drop n out_north.old) }
{
    for i in 0..n {
        let s = rings.listed(false, w, place(u, hi, i));
        out_east[i] = s.east;
        out_north[i] = s.north;
    }
}
