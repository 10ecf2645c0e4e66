// A row in the table of rows.
ghost use Rattle.std.specs.Prelude.{◌+◌, ◌*◌, ◌≤◌, ◌<◌, ◌≡◌, length};
ghost use Rattle.signature.specs.Decoded.{decoded_length};
ghost use Rattle.cell.specs.Cell.{cell_width};
ghost use Rattle.cell.specs.Cursor.{cell_at, opens_of};
ghost use Rattle.path.specs.State.{row_stride};
ghost use Rattle.path.specs.Rows.{GivenRow, RowCounted, RowIndexed, Before};
ghost use Rattle.signature.specs.Limits.{word_limit};

use cell::cell::{CELL, cell_at, opens};
use path::rows::{OWN, ROW};

// How many columns the cell opens whose words begin at a word.
fn opens_at(t: &[u16], a: &[u64], at: usize) -> usize
    requires { (at + cell_width ≤ length a.now) × (length t.now ≡ decoded_length) }
    ensures { result ≡ opens_of t.now (cell_at a.now at).tag }
{
    let c = cell_at(a, at);
    opens(t, c.tag)
}

// How many columns are row r's own at each of its cells.
fn count_columns(t: &[u16], a: &[u64], start: usize, len: usize, r: usize, rows: &mut [u16])
    requires { GivenRow t.now a.now start len × (row_stride * r + row_stride ≤ length rows.old) }
    ensures { RowCounted t.now a.now rows.new r start len × Before (row_stride * r + 4) rows.old rows.new }
{
    let mut left = 1;
    let mut i = 0;
    while left > 0 {
        rows[ROW * r + OWN + i] = left as u16;
        left = left - 1 + opens_at(t, a, start + CELL * i);
        i += 1;
    }
    rows[ROW * r + OWN + i] = 0;
}

// Row r of the table: of so many words from a word on.
pub fn index_row(
    t: &[u16],
    a: &[u64],
    start: usize,
    len: usize,
    rule: u16,
    plan: u16,
    r: usize,
    rows: &mut [u16],
)
    requires { GivenRow t.now a.now start len × (row_stride * r + row_stride ≤ length rows.old) × (start + len < word_limit) }
    ensures { RowIndexed t.now a.now rows.new r start len rule plan × Before (row_stride * r) rows.old rows.new }
{
    rows[ROW * r] = start as u16;
    rows[ROW * r + 1] = (start + len) as u16;
    rows[ROW * r + 2] = rule;
    rows[ROW * r + 3] = plan;
    count_columns(t, a, start, len, r, rows);
}
