// The table of rows: for each where its words begin and end, its rule, its plan, and how many columns are its own at each of its cells; behind them the default's plan.
ghost use Rattle.std.specs.Prelude.{◌≡◌, ◌+◌, ◌*◌, ◌≤◌, length};
ghost use Rattle.cell.specs.Cell.{cell_width};
ghost use Rattle.cell.specs.Cursor.{cell_at};
ghost use Rattle.path.specs.State.{row_stride, start_of, cell_of};

use cell::cell::{CELL, Cell, cell_at};
use pattern::limits::PATTERN_WORDS;
use rowset::set::ROWS;

// The words of a row before the counts of columns.
pub const OWN: usize = 4;

// A count at each cell and one behind the last, and 3 words that are free: 72 is a multiple of 8.
pub const ROW: usize = OWN + PATTERN_WORDS + 1 + 3;

// Behind all rows: the default's plan.
pub const DEFAULT_PLAN: usize = ROWS * ROW;

// For all rows: their table, cursors and visits.
pub const INDEX_ROOM: usize = DEFAULT_PLAN + 1;

pub const CURSORS: usize = ROWS;

pub const VISITS: usize = ROWS * PATTERN_WORDS;

pub fn start_of(rows: &[u16], r: usize) -> u16
    requires { row_stride * r + row_stride ≤ length rows.now }
    ensures { result ≡ start_of rows.now r }
{
    rows[ROW * r]
}

// The cell q of row r.
pub fn cell_of(a: &[u64], rows: &[u16], r: usize, q: usize) -> Cell
    requires { (row_stride * r + row_stride ≤ length rows.now) × (cell_of rows.now r q + cell_width ≤ length a.now) }
    ensures { result ≡ cell_at a.now (cell_of rows.now r q) }
{
    cell_at(a, start_of(rows, r) as usize + CELL * q)
}
