// The tests that entries make of lists.
ghost use Rattle.std.specs.Prelude.{◌||◌, map, ◌≡◌, leb, ltb, length};
ghost use Rattle.rules.specs.Lists.{first_place};
ghost use Rattle.samples.specs.Positions.{Listed, east_of, easts_span};

use super::streams::east;

// at most so many samples, readings, items of a list (numbers, sample numbers), corners, and corners of two rings together
pub const MOST: usize = 65536;

// Either output is too short for so many items.
pub fn too_short(east: usize, north: usize, n: usize) -> bool
    ensures { result ≡ (ltb east n || ltb north n) }
{
    (east < n) | (north < n)
}

// The first place of the list with a number not below the count, or the list's length where there is none.
pub fn first_unlisted(list: &[u32], count: usize) -> usize
    ensures { result ≡ first_place (λ x. leb count x) list.now }
{
    for i in 0..list.len() {
        if count <= list[i] as usize {
            return i;
        }
    }
    list.len()
}

// Some listed sample has east at most a, and some has east above a.
pub fn list_spans(e: &[i32], list: &[u32], a: i64) -> bool
    requires { Listed (length e.now) list.now }
    ensures { result ≡ easts_span a (map (east_of e.now) list.now) }
{
    let mut west: usize = 0;
    let mut beyond: usize = 0;
    for number in list {
        let x = east(e, *number);
        west += (x <= a) as usize;
        beyond += (a < x) as usize;
    }
    (0 < west) & (0 < beyond)
}

// Some sample has east at most a, and some has east above a.
pub fn spans(e: &[i32], a: i32) -> bool
    ensures { result ≡ easts_span a e.now }
{
    let mut west: usize = 0;
    let mut beyond: usize = 0;
    for x in e {
        west += (*x <= a) as usize;
        beyond += (a < *x) as usize;
    }
    (0 < west) & (0 < beyond)
}
