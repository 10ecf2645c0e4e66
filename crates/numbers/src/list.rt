// Numbers with one space between, at most so many.
ghost use Rattle.std.specs.Prelude.{◌≡◌, ◌≤◌, length};
ghost use Rattle.text.specs.Format.{list_within};
ghost use Rattle.numbers.specs.Lists.{count_of, Filled};

use crate::bytes::SPACE;
use crate::{bytes, number};

// How many numbers, None where the list is broken. They stand first in out, the rest is untouched; of a broken list, out has any words.
pub fn list(s: &[u8], limit: usize, out: &mut [u16]) -> Option<usize>
    requires { limit ≤ length out.old }
    ensures { (result ≡ count_of (list_within limit s.now)) × Filled (list_within limit s.now) out.old out.new }
{
    let mut t = s;
    let mut n = 0;
    loop {
        if n == limit {
            return None;
        }
        let e = bytes::span(t, SPACE);
        let v = number::number(&t[..e])?;
        out[n] = v;
        n += 1;
        if e == t.len() {
            return Some(n);
        }
        let from = e + 1;
        t = &t[from..];
    }
}
