// The tops of a list: the samples with greatest north minus K times east. The one furthest west and the one furthest east are found by their keys. In a long
// list most samples are below the tops so far: those are passed by their heights alone.
ghost use Rattle.std.specs.Prelude.{◌≡◌, ◌≤◌, length};
ghost use Rattle.rules.specs.Lists.{first_place};
ghost use Rattle.slopes.specs.Fractions.{as_slope};
ghost use Rattle.samples.specs.Sides.{size, seen};
ghost use Rattle.round.specs.Tops.{as_scaled, better_of, reaches, next_place, ReachAsks, TopsAsk, Topped};

use super::scaled::Scaled;
use samples::sides::Side;
use slopes::Slope;

// of so many samples a list is long: in a shorter one too many of them reach the tops so far
const LONG: usize = 100;

// A sample with its key.
#[derive(Clone, Copy)]
pub struct Top {
    pub key: i64,
    pub number: u32,
}

// The top furthest west and the one furthest east, each with its east.
#[derive(Clone, Copy)]
pub struct Tops {
    pub left: u32,
    pub from: i64,
    pub right: u32,
    pub to: i64,
}

// The sample of the greater key. Samples of equal keys stand at one position, and the earlier stays.
fn better(t: Top, key: i64, number: u32) -> Top
    ensures { result ≡ better_of t key number }
{
    if t.key < key { Top { key, number } } else { t }
}

// The first place of the list whose sample reaches the height of sample top, or the list's length where there is none.
fn reach(side: Side, list: &[u32], top: u32, k: Scaled) -> usize
    requires { ReachAsks (size side) list.now top }
    ensures { result ≡ first_place (reaches (seen side.entry) (as_scaled k) top) list.now }
{
    let h = k.height(side.position(top));
    for i in 0..list.len() {
        if h <= k.height(side.position(list[i])) {
            return i;
        }
    }
    list.len()
}

// Where the search goes on with the tops so far, one of which is top: at place i, or in a long list at the next place that reaches the height of top.
fn next(side: Side, list: &[u32], i: usize, top: u32, k: Scaled) -> usize
    requires { ReachAsks (size side) list.now top × (i ≤ length list.now) }
    ensures { result ≡ next_place (seen side.entry) (as_scaled k) top list.now i }
{
    if list.len() < LONG {
        return i;
    }
    i + reach(side, &list[i..], top, k)
}

// The tops of the whole list.
pub fn of_list(side: Side, list: &[u32], k: Slope) -> Tops
    requires { TopsAsk (size side) list.now (as_slope k) }
    ensures { Topped (seen side.entry) (as_slope k) list.now result }
{
    let scaled = Scaled::of(k);
    let x = list[0];
    let c = scaled.keys(side.position(x));
    let mut left = Top {
        key: c.west,
        number: x,
    };
    let mut right = Top {
        key: c.east,
        number: x,
    };
    let mut i = 1;
    // no range: the place jumps, by `next`
    while i < list.len() {
        let x = list[i];
        let c = scaled.keys(side.position(x));
        left = better(left, c.west, x);
        right = better(right, c.east, x);
        i = next(side, list, i + 1, left.number, scaled);
    }
    Tops {
        left: left.number,
        from: side.east(left.number),
        right: right.number,
        to: side.east(right.number),
    }
}
