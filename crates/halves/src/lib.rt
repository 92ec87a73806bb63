// A ring by its two halves: where they stand among its corners, as the easts tell it, and the corner at a place of either.
#![tactic(auto)]

ghost use Rattle.std.specs.Prelude.{◌≡◌, ◌≤◌, ◌<◌, length};
ghost use Rattle.rules.specs.Streams.{streams};
ghost use Rattle.laws_halves.specs.Scanned.{corner, Scanned};
ghost use Rattle.samples.specs.Positions.{east_of};
ghost use Rattle.samples.specs.HeldStream.{stream_of};
ghost use Rattle.halves.specs.Scans.{Crest, turn_of, home_of};

use samples::streams::{Stream, at};

// The half that goes there stands from place 0 over so many sides; the one that goes back from place `turn` over so many, place 0 again after the last.
#[derive(Clone, Copy)]
pub struct Halves {
    pub there: usize,
    pub turn: usize,
    pub back: usize,
}

// The last place up to which easts rise.
fn crest(east: &[i32]) -> usize
    requires { 0 < length east.now }
    ensures { Crest (east_of east.now) (length east.now) result }
{
    let last = east.len() - 1;
    for k in 0..last {
        if east[k + 1] <= east[k] {
            return k;
        }
    }
    last
}

// Where the half that goes back starts: at the crest, or straight below it.
fn turn(east: &[i32], k: usize) -> usize
    requires { k < length east.now }
    ensures { result ≡ turn_of (east_of east.now) (length east.now) k }
{
    if k + 1 < east.len() && east[k + 1] == east[k] {
        return k + 1;
    }
    k
}

// Where it ends: straight below the first corner, or at it again.
fn home(east: &[i32]) -> usize
    requires { 0 < length east.now }
    ensures { result ≡ home_of (east_of east.now) (length east.now) }
{
    let last = east.len() - 1;
    if east[last] == east[0] {
        return last;
    }
    east.len()
}

// Both halves of an envelope that has a corner.
pub fn scan(east: &[i32]) -> Halves
    requires { 0 < length east.now }
    ensures { Scanned (east_of east.now) (length east.now) result.there result.turn result.back }
{
    let there = crest(east);
    let turn = turn(east, there);
    let back = home(east) - turn;
    Halves { there, turn, back }
}

// The corner at a place, place 0 again after the last. Two lent lists, as the rules fix it.
pub fn corner(east: &[i32], north: &[i32], i: usize) -> Stream
    requires { (length east.now ≡ length north.now) × (0 < length east.now) × (i ≤ length east.now) }
    ensures { stream_of result ≡ corner (streams east.now north.now) i }
{
    if i == east.len() {
        return at(east, north, 0);
    }
    at(east, north, i)
}
