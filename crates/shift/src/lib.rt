// A packed list in a lent slice: its tail is shifted to put words in and to take words out, and the words that come free are set to 0.
#![tactic(auto)]

ghost use Rattle.std.specs.Prelude.{◌≡◌, ◌++◌, ◌+◌, ◌-◌, ◌≤◌, length, take, drop, replicate};

// The words of `src`, which is as long. Word by word: for the slice's own copy an archive for C would need memmove.
pub fn copy(dst: &mut [u16], src: &[u16])
    requires { length dst.old ≡ length src.now }
    ensures { dst.new ≡ src.now }
{
    for i in 0..src.len() {
        dst[i] = src[i];
    }
}

// The words from `at` to `end`, `d` further on.
pub fn right(s: &mut [u16], at: usize, end: usize, d: usize)
    requires { (at ≤ end) × (end + d ≤ length s.old) }
    ensures { s.new ≡ take (at + d) s.old ++ (take (end - at) (drop at s.old) ++ drop (end + d) s.old) }
{
    s.copy_within(at..end, at + d);
}

// The `d` words at `at` go; what follows, up to `end`, moves back, and zeros follow it.
pub fn remove(s: &mut [u16], at: usize, end: usize, d: usize)
    requires { (at + d ≤ end) × (end ≤ length s.old) }
    ensures { s.new ≡ take at s.old ++ (take (end - (at + d)) (drop (at + d) s.old) ++ (replicate d 0 ++ drop end s.old)) }
{
    s.copy_within(at + d..end, at);
    let from = end - d;
    s[from..end].fill(0);
}
