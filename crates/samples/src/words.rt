// The words of scratch and of an output.
ghost use Rattle.std.specs.Prelude.{◌≡◌, ◌≤◌, length};
ghost use Rattle.rules.specs.Lists.{written, zeros};

// Leaves every word zero.
// By a name of its own, not `fill` at each call: edits put a function that does nothing in its place.
pub fn clear(w: &mut [u32])
    ensures { w.new ≡ zeros w.old }
{
    w.fill(0);
}

// Writes the result at the front of the output, whose content beyond it stays.
// Word by word: for the library's `copy_from_slice` the archive would need `memmove` from outside.
pub fn write(res: &[u32], output: &mut [u32])
    requires { length res.now ≤ length output.old }
    ensures { output.new ≡ written res.now output.old }
{
    for i in 0..res.len() {
        output[i] = res[i];
    }
}
