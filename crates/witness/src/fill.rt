// A value that a row takes.
ghost use Rattle.witness.specs.Fill.{GivenRow, Filled};

use cell::cell::{CELL, cell_at, opens};
use overlap::least::place;

// A value that the row at the front of row takes, first in out; how many words.
pub fn fill(t: &[u16], row: &[u64], out: &mut [u16]) -> usize
    requires { GivenRow t.now row.now out.old }
    ensures { (g : GivenRow t.now row.now out.old) → Filled g result out.new }
{
    let mut i = 0;
    let mut n = 0;
    let mut left = 1;
    while left > 0 {
        let c = cell_at(row, i);
        let w = opens(t, c.tag);
        n += place(t, c.tag, c.allowed, &mut out[n..]);
        left = left - 1 + w;
        i += CELL;
    }
    n
}
