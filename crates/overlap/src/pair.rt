// Two rows side by side.
ghost use Rattle.std.specs.Prelude.{◌≡◌};
ghost use Rattle.signature.specs.Lists.{is_some};
ghost use Rattle.row.specs.Row.{combine};
ghost use Rattle.overlap.specs.Pair.{TwoRows};

use cell::cell::{START, join, look, next, opens};
use sets::heads::is_empty;

// Whether the two rows at the front of a and b are one row.
pub fn rows_meet(t: &[u16], a: &[u64], b: &[u64]) -> bool
    requires { TwoRows t.now a.now b.now }
    ensures { (g : TwoRows t.now a.now b.now) → result ≡ is_some (combine g.r g.s) }
{
    let mut x = START;
    let mut y = START;
    let mut left = 1;
    while left > 0 {
        let p = look(a, x);
        let q = look(b, y);
        let c = join(p, q);
        if is_empty(c.allowed) {
            return false;
        }
        let w = opens(t, c.tag);
        left = left - 1 + w;
        x = next(x, p.tag, w);
        y = next(y, q.tag, w);
    }
    true
}
