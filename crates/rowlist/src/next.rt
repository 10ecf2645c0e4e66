// The rows of a constructor that are begun, with one argument more.
ghost use Rattle.std.specs.Prelude.{[], ◌++◌, true, false, ◌≤◌, length};
ghost use Rattle.sets.specs.Heads.{number_of};
ghost use Rattle.cell.specs.Cell.{cell_code};
ghost use Rattle.cell.specs.RowList.{WrittenFirst};
ghost use Rattle.rowlist.specs.Next.{GivenNext, GivenNextMinus, GivenNextAt, next_made, next_rows, GivenOthers, others_code};
ghost use Rattle.rowlist.specs.Grow.{words_list};
ghost use Rattle.rowlist.specs.Product.{Product};

use crate::grow::{append_all, append_each, copy, count};
use cell::cell::{CELL, Cell, put};
use pattern::limits::PART_WEIGHT;
use sets::heads::{Heads, is_empty};

// Each row with each row of the argument behind it; none where there would be more than a part may weigh, for then an argument that is still to come has none.
fn next_plus(lists: &[u64], at: usize, out: &mut [u64]) -> usize
    requires { GivenNext lists.now at (length out.old) }
    ensures { (g : GivenNext lists.now at (length out.old)) → Product (words_list (next_rows true [] g.left.rows g.right.rows)) result out.new }
{
    let m = count(lists);
    let n = count(&lists[at..]);
    if m * n > PART_WEIGHT as usize {
        out[0] = 0;
        return 0;
    }
    append_each(lists, &lists[at..], out)
}

// Each row with a wildcard behind it, then the first with each row of the argument.
fn next_minus(tag: u64, full: Heads, lists: &[u64], at: usize, out: &mut [u64]) -> usize
    requires { GivenNextMinus lists.now at (length out.old) }
    ensures { (g : GivenNextMinus lists.now at (length out.old)) → Product (words_list (next_rows false (cell_code tag 0 (number_of full)) g.next.left.rows g.next.right.rows)) result out.new }
{
    let mut wild = [0u64; 5];
    wild[0] = CELL as u64;
    let cell = Cell {
        tag,
        vars: 0,
        allowed: full,
    };
    put(&mut wild, 1, cell);
    let n = append_each(lists, &wild, out);
    let first = lists[0] as usize;
    let m = append_all(&lists[1..], first, &lists[at..], &mut out[n..]);
    let end = n + m;
    out[end] = 0;
    end
}

// One argument more, on one side.
pub fn next_rows(
    plus: bool,
    tag: u64,
    full: Heads,
    lists: &[u64],
    at: usize,
    out: &mut [u64],
) -> usize
    requires { GivenNextAt plus lists.now at (length out.old) }
    ensures { (g : GivenNextAt plus lists.now at (length out.old)) → Product (next_made plus tag (number_of full) lists.now at (length out.old) g) result out.new }
{
    if plus {
        return next_plus(lists, at, out);
    }
    next_minus(tag, full, lists, at, out)
}

// The row of the other heads first in out, if there are any; how many words.
fn other_row(tag: u64, rest: Heads, out: &mut [u64]) -> usize
    requires { 4 ≤ length out.old }
    ensures { WrittenFirst (others_code tag (number_of rest)) result out.new }
{
    if is_empty(rest) {
        return 0;
    }
    out[0] = CELL as u64;
    let cell = Cell {
        tag,
        vars: 0,
        allowed: rest,
    };
    put(out, 1, cell);
    4
}

// The list without its first row, behind the row of the other heads, if there are any.
pub fn others(tag: u64, rest: Heads, used: usize, out: &mut [u64], work: &mut [u64]) -> usize
    requires { GivenOthers used out.old (length work.old) }
    ensures { (g : GivenOthers used out.old (length work.old)) → Product (others_code tag (number_of rest) ++ words_list g.vs) result out.new }
{
    let at = used + 1;
    copy(out, at, work, 0);
    let skip = work[0] as usize + 1;
    let left = at - skip;
    let n = other_row(tag, rest, out);
    copy(&work[skip..], left, out, n);
    n + left - 1
}
