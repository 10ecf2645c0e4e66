// The first column: of which kind it is where a row refines it, which of its heads have a child there, and which rows allow a head.
#![tactic(auto)]

ghost use Rattle.std.specs.Prelude.{◌≡◌, Bool, true, ◌&&◌, cond, ℕ, ◌<◌, ltb, length};
ghost use Rattle.signature.specs.Decoded.{count_of};
ghost use Rattle.signature.specs.Limits.{level_count};
ghost use Rattle.sets.specs.Heads.{number_of};
ghost use Rattle.sets.specs.Set.{bit};
ghost use Rattle.rowset.specs.Member.{member, set_words};
ghost use Rattle.path.specs.State.{kept_of};
ghost use Rattle.path.specs.Standing.{refined_cell};
ghost use Rattle.column.specs.Column.{Seen, Looking, CellThere, Keeping, KeepingRow, Heading, Edging, KindOfColumn, RowKind, tag_at, allowed_at, edge_of, end_of, has_child};

use cell::cell::KIND_TAG;
use path::rows::cell_of;
use rowset::set::{SET_WORDS, copy, first_in, has, next_in, put};
use sets::heads::{Heads, edges, full, has as has_head, join, meet, only, size};
use signature::decoded::{LAST_LEVEL, LEVEL_BASE, LEVELS, count_of, first_of, kind_of};

// Whether a cell names or excludes a constructor of its kind.
fn refined(t: &[u16], tag: u64, allowed: Heads) -> bool
    requires { Seen t.now tag }
    ensures { (g : Seen t.now tag) → result ≡ refined_cell g.known.sig g.k tag (number_of allowed) }
{
    if tag < KIND_TAG {
        return true;
    }
    let k = (tag - KIND_TAG) as usize;
    size(allowed) != count_of(t, k) as u32
}

// The kind of a cell.
fn cell_kind(t: &[u16], tag: u64) -> usize
    requires { Seen t.now tag }
    ensures { (g : Seen t.now tag) → result ≡ g.k }
{
    if tag < KIND_TAG {
        return kind_of(t, tag as usize) as usize;
    }
    (tag - KIND_TAG) as usize
}

// The kind of a cell that is refined.
fn refined_kind(t: &[u16], tag: u64, allowed: Heads) -> Option<usize>
    requires { Seen t.now tag }
    ensures { (g : Seen t.now tag) → RowKind g.known.sig g.k tag (number_of allowed) result }
{
    if refined(t, tag, allowed) {
        return Some(cell_kind(t, tag));
    }
    None
}

// The same of row r's cell.
fn row_kind(t: &[u16], a: &[u64], rows: &[u16], cur: &[u8], r: usize) -> Option<usize>
    requires { CellThere a.now rows.now cur.now r × Seen t.now (tag_at a.now rows.now cur.now r) }
    ensures { (g : Seen t.now (tag_at a.now rows.now cur.now r)) → RowKind g.known.sig g.k (tag_at a.now rows.now cur.now r) (allowed_at a.now rows.now cur.now r) result }
{
    let c = cell_of(a, rows, r, cur[r] as usize);
    refined_kind(t, c.tag, c.allowed)
}

// The kind of the column, where some row of the set refines it.
pub fn column(
    t: &[u16],
    a: &[u64],
    rows: &[u16],
    n: usize,
    re: &[u64; SET_WORDS],
    cur: &[u8],
) -> Option<usize>
    requires { Looking t.now a.now rows.now n re.now cur.now }
    ensures { KindOfColumn t.now a.now rows.now n re.now cur.now result }
{
    let mut r = first_in(re, n);
    while r < n {
        let x = row_kind(t, a, rows, cur, r);
        if x.is_some() {
            return x;
        }
        r = next_in(re, r + 1, n);
    }
    None
}

// Whether row r, which has a cell there, stays alive where head number j of the kind is taken; its cursor is past its cell.
fn stays(a: &[u64], rows: &[u16], s: &[u64; SET_WORDS], cur: &[u8], j: usize, r: usize) -> bool
    requires { KeepingRow a.now rows.now cur.now j r }
    ensures { (real : ℕ → Bool) → real r ≡ true → result ≡ kept_of a.now rows.now (member s.now) real cur.now j r }
{
    let c = cell_of(a, rows, r, cur[r] as usize - 1);
    if has_head(c.allowed, j as u32) {
        return has(s, r);
    }
    false
}

// In next from now on: the rows that stay alive where head number j of the kind is taken. Sought from row 0 on, as in `visits::lower`.
pub fn keep(
    a: &[u64],
    rows: &[u16],
    n: usize,
    s: &[u64; SET_WORDS],
    re: &[u64; SET_WORDS],
    cur: &[u8],
    j: usize,
    next: &mut [u64],
)
    requires { Keeping a.now rows.now n re.now cur.now j × (length next.old ≡ set_words) }
    ensures { (r : ℕ) → r < n → member next.new r ≡ kept_of a.now rows.now (member s.now) (member re.now) cur.now j r }
{
    copy(s, next);
    let mut from = 0;
    while from < n {
        let r = next_in(re, from, n);
        if r == n {
            return;
        }
        let b = stays(a, rows, s, cur, j, r);
        put(next, r, b);
        from = r + 1;
    }
}

// The set with each v where row r allows just one of the heads number v and v + 1; its cursor is past its cell.
fn with_edges(a: &[u64], rows: &[u16], cur: &[u8], r: usize, hs: Heads) -> Heads
    requires { KeepingRow a.now rows.now cur.now 0 r }
    ensures { (real : ℕ → Bool) → real r ≡ true → (j : ℕ) → bit (number_of result) j ≡ cond (edge_of a.now rows.now real cur.now j r) 1 (bit (number_of hs) j) }
{
    let c = cell_of(a, rows, r, cur[r] as usize - 1);
    let es = edges(c.allowed);
    join(hs, es)
}

// The levels that are ends: the last one, and each v where some row of the set allows just one of v and v + 1.
fn ends(a: &[u64], rows: &[u16], n: usize, re: &[u64; SET_WORDS], cur: &[u8]) -> Heads
    requires { Edging a.now rows.now n re.now cur.now }
    ensures { (j : ℕ) → bit (number_of result) j ≡ cond (ltb j level_count && end_of a.now rows.now n (member re.now) cur.now j) 1 0 }
{
    let mut hs = only(LAST_LEVEL as u32);
    let mut r = first_in(re, n);
    while r < n {
        let next = with_edges(a, rows, cur, r, hs);
        hs = next;
        r = next_in(re, r + 1, n);
    }
    let levels = full(LEVELS as u32);
    meet(hs, levels)
}

// The heads of kind k that have a child where the column is tested: all of them, or the levels that are ends.
pub fn heads(
    t: &[u16],
    a: &[u64],
    rows: &[u16],
    n: usize,
    re: &[u64; SET_WORDS],
    cur: &[u8],
    k: usize,
) -> Heads
    requires { Heading t.now k × Edging a.now rows.now n re.now cur.now }
    ensures { (j : ℕ) → bit (number_of result) j ≡ cond (ltb j (count_of t.now k) && has_child t.now a.now rows.now n (member re.now) cur.now k j) 1 0 }
{
    if first_of(t, k) == LEVEL_BASE {
        return ends(a, rows, n, re, cur);
    }
    full(count_of(t, k) as u32)
}
