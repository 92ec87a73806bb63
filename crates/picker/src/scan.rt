// Passes over keys, written without branches: a test is added as 0 or 1, and of two keys each is chosen by a test.
ghost use Rattle.std.specs.Prelude.{◌-◌, ◌≤◌, leb, length, take, ◌≡◌, MatchOption};
ghost use Rattle.laws_ranks.specs.Kept.{Kept};
ghost use Rattle.laws_ranks.specs.Ranks.{HasRank};
ghost use Rattle.laws_ranks.specs.Least.{LeastOut};
ghost use Rattle.picker.specs.Picking.{Counted, side, Narrowable, Narrowed};

// How many keys are below a key, and how many above it.
// This and Rest stand in slopes too: neither crate uses the other, and a crate for two pairs of numbers is no plainer.
#[derive(Clone, Copy)]
struct Counts<N> {
    below: N,
    above: N,
}

// The counts of a run of keys, in words, which the compiler adds several at once.
fn count_run(keys: &[u32], p: u32) -> Counts<u32>
    requires { length keys.now ≤ 65536 }
    ensures { Counted keys.now p result.below result.above }
{
    let mut below: u32 = 0;
    let mut above: u32 = 0;
    for &x in keys {
        below += (x < p) as u32;
        above += (p < x) as u32;
    }
    Counts { below, above }
}

// How many of the keys are below p, and how many above it, run by run.
fn count(keys: &[u32], p: u32) -> Counts<usize>
    ensures { Counted keys.now p result.below result.above }
{
    let mut below: usize = 0;
    let mut above: usize = 0;
    for run in keys.chunks(65536) {
        let c = count_run(run, p);
        below += c.below as usize;
        above += c.above as usize;
    }
    Counts { below, above }
}

// x lies on one side of p: above it, or below it.
fn beside(x: u32, p: u32, above: bool) -> bool
    ensures { result ≡ side above p x }
{
    if above { p < x } else { x < p }
}

// Leaves at the front those of the keys that lie on one side of p, in their order, and says how many they are. Each is stored, and the place moves on by the
// test.
fn keep(keys: &mut [u32], p: u32, above: bool) -> usize
    ensures { Kept (side above p) keys.old result keys.new }
{
    let mut k: usize = 0;
    for i in 0..keys.len() {
        let x = keys[i];
        keys[k] = x;
        k += beside(x, p, above) as usize;
    }
    k
}

// How many keys are left, and which rank is sought among them.
#[derive(Clone, Copy)]
pub struct Rest {
    pub n: usize,
    pub r: usize,
}

// One step by the pivot p. The keys below p and those above it are counted first; then those on the side that has the rank are left at the front, which alone are
// moved. Where p itself has the rank, nothing is left to seek.
pub fn narrow(keys: &mut [u32], r: usize, p: u32) -> Option<Rest>
    requires { Narrowable keys.old r p }
    ensures { MatchOption result (HasRank leb r keys.old p) (λ rest. Narrowed keys.old r rest keys.new) }
{
    let c = count(keys, p);
    let below = c.below;
    let upto = keys.len() - c.above;
    if r <= below {
        let n = keep(keys, p, false);
        return Some(Rest { n, r });
    }
    if r <= upto {
        return None;
    }
    let n = keep(keys, p, true);
    Some(Rest { n, r: r - upto })
}

// Takes the least of the keys out; the others close up.
fn least(keys: &mut [u32]) -> u32
    requires { 1 ≤ length keys.old }
    ensures { LeastOut leb keys.old result (take (length keys.old - 1) keys.new) }
{
    let mut p = keys[0];
    for i in 0..keys.len() - 1 {
        let x = keys[i + 1];
        keys[i] = p.max(x);
        p = p.min(x);
    }
    p
}

// The key of rank r, of a short list: the least is taken out until it has the rank.
pub fn short(keys: &mut [u32], r: usize) -> u32
    requires { (1 ≤ r) × (r ≤ length keys.old) }
    ensures { HasRank leb r keys.old result }
{
    let n = keys.len();
    for taken in 1..r {
        least(&mut keys[..n + 1 - taken]);
    }
    least(&mut keys[..n + 1 - r])
}
