// The first cells of a row that are not kept.
ghost use Rattle.views.specs.Write.{GivenRow, Frontier};

use cell::cell::{CELL, cell_at, opens};
use meeting::part::part_end;
use sets::set::{has, with};

// The open cells of the row at the front of row that stand below no open cell.
pub fn frontier(t: &[u16], row: &[u64], opened: u64) -> u64
    requires { GivenRow t.now row.now }
    ensures { (g : GivenRow t.now row.now) → Frontier g opened result }
{
    let mut at = 0;
    let mut left = 1;
    let mut m = 0;
    while left > 0 {
        let i = (at / CELL) as u32;
        if has(opened, i) {
            m = with(m, i);
            at = part_end(t, row, at);
            left -= 1;
            continue;
        }
        let c = cell_at(row, at);
        left = left - 1 + opens(t, c.tag);
        at += CELL;
    }
    m
}
