// Groups of five keys, and their middles.
ghost use Rattle.std.specs.Prelude.{◌≡◌, [], ◌∷◌, ◌*◌, ◌/◌, ◌≤◌, ◌<◌, leb, length};
ghost use Rattle.laws_ranks.specs.Middles.{column, middle, middles};

// The middle of five keys. The least and the greatest of the first four are left out, and of the three that remain the middle is taken.
fn middle_of(a: u32, b: u32, c: u32, d: u32, e: u32) -> u32
    ensures { result ≡ middle leb 0 (a ∷ b ∷ c ∷ d ∷ e ∷ []) }
{
    let f = a.min(b).max(c.min(d));
    let g = a.max(b).min(c.max(d));
    f.min(g).max(f.max(g).min(e))
}

// The middle of group i of g: a group goes across the five rows of g keys each.
fn middle_at(keys: &[u32], g: usize, i: usize) -> u32
    requires { (i < g) × (5 * g ≤ length keys.now) }
    ensures { result ≡ middle leb 0 (column 0 g keys.now i) }
{
    middle_of(
        keys[i],
        keys[g + i],
        keys[2 * g + i],
        keys[3 * g + i],
        keys[4 * g + i],
    )
}

// Writes the middles of the groups of five among the keys. A group's keys lie as far apart as there are groups, so that the compiler finds the middles of
// several groups at once.
pub fn middles(keys: &[u32], out: &mut [u32])
    requires { length out.old ≡ length keys.now / 5 }
    ensures { out.new ≡ middles leb 0 keys.now }
{
    let g = out.len();
    for i in 0..g {
        out[i] = middle_at(keys, g, i);
    }
}
