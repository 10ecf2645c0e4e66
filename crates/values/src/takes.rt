// Whether a row takes a value.
ghost use Rattle.std.specs.Prelude.{◌≡◌, length};
ghost use Rattle.row.specs.RowFits.{row_fits};
ghost use Rattle.signature.specs.Decoded.{decoded_length};
ghost use Rattle.values.specs.Takes.{GivenTakes, Near, allows_of};

use cell::cell::{Cell, FREE_TAG, KIND_TAG, START, look, next};
use sets::heads::has;
use signature::decoded::{first_of, head_arity};

// Whether the head c may stand where a row has the cell p.
fn allows(t: &[u16], p: Cell, c: u16) -> bool
    requires { (length t.now ≡ decoded_length) × Near t.now p.tag c }
    ensures { result ≡ allows_of t.now p c }
{
    if p.tag < KIND_TAG {
        return p.tag == c as u64;
    }
    if p.tag >= FREE_TAG {
        return true;
    }
    let f = first_of(t, (p.tag - KIND_TAG) as usize);
    has(p.allowed, (c - f) as u32)
}

// Whether the row at the front of row takes the value whose words are b.
pub fn takes(t: &[u16], row: &[u64], b: &[u16]) -> bool
    requires { GivenTakes t.now row.now b.now }
    ensures { (g : GivenTakes t.now row.now b.now) → result ≡ row_fits g.r g.value }
{
    let mut y = START;
    for &c in b {
        let p = look(row, y);
        if !allows(t, p, c) {
            return false;
        }
        let n = head_arity(t, c) as usize;
        y = next(y, p.tag, n);
    }
    true
}
