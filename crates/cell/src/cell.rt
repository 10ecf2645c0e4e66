// Rows as preorder cells of three words, a cursor over them, and two rows as one.
ghost use Rattle.std.specs.Prelude.{◌≡◌, ◌+◌, ◌≤◌, ◌<◌, ◌^◌, length, set};
ghost use Rattle.cell.specs.Cell.{cell_width, kind_tag, first_word};
ghost use Rattle.cell.specs.Cursor.{Room, cell_at, look_at, past_column, next_of, join_of, opens_of, cell_kind, put_cell};
ghost use Rattle.row.specs.Row.{combine as combined};
ghost use Rattle.cell.specs.Coded.{row_code_of};
ghost use Rattle.cell.specs.Lockstep.{GivenRows, Result};
ghost use Rattle.cell.specs.RowList.{from};
ghost use Rattle.signature.specs.Decoded.{decoded_length};

use sets::heads::{Heads, all, is_empty, meet};
use signature::decoded::{arity_of, kind_of};

// A tag below it names a constructor, any other is this and a kind.
pub const KIND_TAG: u64 = 256;

// The tag of a column that no cell stands for: above each other, so that the other is kept.
pub const FREE_TAG: u64 = 512;

// Every tag is below it: a cell's first word has its tag, and its variables from here on.
const TAG_LIMIT: u64 = 65536;

// The words of a cell.
pub const CELL: usize = 3;

// A cell: the constructor that is named, or KIND_TAG and the kind; the variables; the heads still allowed.
#[derive(Clone, Copy)]
pub struct Cell {
    pub tag: u64,
    pub vars: u64,
    pub allowed: Heads,
}

// The columns still to take: so many wildcards, then the cells from a word on.
#[derive(Clone, Copy)]
pub struct Cursor {
    pub at: usize,
    pub wildcards: usize,
}

// All columns of the row in front.
pub const START: Cursor = Cursor {
    at: 0,
    wildcards: 0,
};

// The cell whose words begin at a word.
pub fn cell_at(row: &[u64], at: usize) -> Cell
    requires { at + cell_width ≤ length row.now }
    ensures { result ≡ cell_at row.now at }
{
    let word = row[at];
    let low = row[at + 1];
    let high = row[at + 2];
    let allowed = Heads { low, high };
    Cell {
        tag: word % TAG_LIMIT,
        vars: word / TAG_LIMIT,
        allowed,
    }
}

// The first column's cell.
pub fn look(row: &[u64], c: Cursor) -> Cell
    requires { Room row.now c }
    ensures { result ≡ look_at row.now c }
{
    if c.wildcards > 0 {
        return Cell {
            tag: FREE_TAG,
            vars: 0,
            allowed: all(),
        };
    }
    cell_at(row, c.at)
}

// Past the first column, with so many wildcards in its place.
fn step(c: Cursor, more: usize) -> Cursor
    requires { (c.wildcards + more < 2 ^ 64) × (c.at + cell_width < 2 ^ 64) }
    ensures { result ≡ past_column c more }
{
    if c.wildcards > 0 {
        return Cursor {
            wildcards: c.wildcards - 1 + more,
            ..c
        };
    }
    Cursor {
        at: c.at + CELL,
        wildcards: more,
    }
}

// A constructor with n arguments is taken in the first column, whose tag is given.
pub fn next(c: Cursor, tag: u64, n: usize) -> Cursor
    requires { (c.wildcards + n < 2 ^ 64) × (c.at + cell_width < 2 ^ 64) }
    ensures { result ≡ next_of c tag n }
{
    if tag < KIND_TAG {
        return step(c, 0);
    }
    step(c, n)
}

// Two cells of one column as one.
pub fn join(a: Cell, b: Cell) -> Cell
    ensures { result ≡ join_of a b }
{
    Cell {
        tag: a.tag.min(b.tag),
        vars: sets::set::join(a.vars, b.vars),
        allowed: meet(a.allowed, b.allowed),
    }
}

// How many columns a cell opens, by the table of a signature.
pub fn opens(t: &[u16], tag: u64) -> usize
    requires { tag < kind_tag → length t.now ≡ decoded_length }
    ensures { result ≡ opens_of t.now tag }
{
    if tag < KIND_TAG {
        return arity_of(t, tag as usize) as usize;
    }
    0
}

// The kind of the place of a cell, by the table of a signature.
pub fn kind_at(t: &[u16], tag: u64) -> usize
    requires { tag < kind_tag → length t.now ≡ decoded_length }
    ensures { result ≡ cell_kind t.now tag }
{
    if tag < KIND_TAG {
        return kind_of(t, tag as usize) as usize;
    }
    (tag - KIND_TAG) as usize
}

// The words of a cell, written from a word on.
pub fn put(out: &mut [u64], at: usize, c: Cell)
    requires { (at + cell_width ≤ length out.old) × (first_word c.tag c.vars < 2 ^ 64) }
    ensures { out.new ≡ put_cell out.old at c }
{
    out[at] = c.tag + TAG_LIMIT * c.vars;
    out[at + 1] = c.allowed.low;
    out[at + 2] = c.allowed.high;
}

// The two rows at the front of a and b as one, first in out: how many words it has, or None where some column allows no head.
pub fn combine(t: &[u16], a: &[u64], b: &[u64], out: &mut [u64]) -> Option<usize>
    requires { GivenRows t.now a.now b.now out.old }
    ensures { (g : GivenRows t.now a.now b.now out.old) → Result (row_code_of g.K g.kind (combined g.r g.s)) result out.old out.new }
{
    let mut x = START;
    let mut y = START;
    let mut n = 0;
    let mut left = 1;
    while left > 0 {
        let p = look(a, x);
        let q = look(b, y);
        let c = join(p, q);
        if is_empty(c.allowed) {
            return None;
        }
        put(out, n, c);
        n += CELL;
        let w = opens(t, c.tag);
        left = left - 1 + w;
        x = next(x, p.tag, w);
        y = next(y, q.tag, w);
    }
    Some(n)
}
