// A row left at one of its cells.
ghost use Rattle.std.specs.Prelude.{◌≡◌};
ghost use Rattle.views.specs.Write.{GivenCell, GivenView, Outside, Viewed};

use cell::cell::{CELL, Cell, KIND_TAG, cell_at, kind_at, opens, put};
use meeting::part::part_end;
use sets::heads::{full, is_empty, minus};
use sets::set::has;
use signature::decoded::count_of;

// What stands for the part of a cell that is not kept: anything of its kind, and where the row is left what the row does not allow.
fn outside(t: &[u16], c: Cell, left: bool) -> Cell
    requires { GivenCell t.now c.tag }
    ensures { Outside t.now c left result }
{
    let kind = kind_at(t, c.tag);
    let tag = KIND_TAG + kind as u64;
    let all = full(count_of(t, kind) as u32);
    let allowed = if left { minus(all, c.allowed) } else { all };
    Cell {
        tag,
        vars: 0,
        allowed,
    }
}

// The row at the front of row, left at a cell, where the cells of `opened` are not kept: first in out, and how many words; None where no value leaves it there.
pub fn view(t: &[u16], row: &[u64], opened: u64, left: usize, out: &mut [u64]) -> Option<usize>
    requires { GivenView t.now row.now out.old }
    ensures { (g : GivenView t.now row.now out.old) → Viewed g opened left result out.new }
{
    let mut at = 0;
    let mut n = 0;
    let mut todo = 1;
    while todo > 0 {
        let c = cell_at(row, at);
        let i = at / CELL;
        if has(opened, i as u32) {
            let rest = outside(t, c, i == left);
            if is_empty(rest.allowed) {
                return None;
            }
            put(out, n, rest);
            n += CELL;
            at = part_end(t, row, at);
            todo -= 1;
            continue;
        }
        put(out, n, c);
        n += CELL;
        todo = todo - 1 + opens(t, c.tag);
        at += CELL;
    }
    Some(n)
}
