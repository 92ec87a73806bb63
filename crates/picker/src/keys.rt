// The keys of 32-bit signed numbers: each number plus 2 to the 31. The sum is written as it is said: by bits turned over it is no plainer.
ghost use Rattle.std.specs.Prelude.{◌≡◌, map, ◌≤◌, length, take};
ghost use Rattle.picker.specs.Keys.{key_of, number_of, Words};

pub fn key(x: i32) -> u32
    ensures { result ≡ key_of x }
{
    ((x as i64) + 2147483648) as u32
}

pub fn number(k: u32) -> i32
    ensures { result ≡ number_of k }
{
    ((k as i64) - 2147483648) as i32
}

// Writes the keys of the numbers at the front of w. It may be longer: what a public function asks may not grow.
pub fn load(xs: &[i32], w: &mut [u32])
    requires { length xs.now ≤ length w.old }
    ensures w_after { take (length xs.now) w.new ≡ map key_of xs.now }
    ensures words { Words xs.now }
{
    for (i, &x) in xs.iter().enumerate() {
        w[i] = key(x);
    }
}
