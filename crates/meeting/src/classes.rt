// The rows that stand at one place, by their cells.
ghost use Rattle.std.specs.Prelude.{◌≡◌, cond, ◌&&◌, ℕ, ◌+◌, ◌≤◌, ◌<◌, eqb, length};
ghost use Rattle.sets.specs.Set.{bit, set_limit};
ghost use Rattle.rowset.specs.Limits.{row_limit};
ghost use Rattle.rowset.specs.Member.{member, in_word};
ghost use Rattle.cell.specs.Cell.{cell_width};
ghost use Rattle.meeting.specs.Part.{same_cell, apart_cell};
ghost use Rattle.meeting.specs.Descent.{Chosen, Cells, Passable, Moved, WordChosen, cell_of_row};

use cell::cell::{CELL, Cell, cell_at, join};
use rowset::set::{ROWS, SET_WORDS, WORD};
use sets::heads::is_empty;
use sets::set::{lowest, rest, with};

// Rows with one and the same cell, and rows whose cells have no head in common with it: of one word of a set, or of all.
#[derive(Clone, Copy)]
pub struct Sorts<S> {
    pub same: S,
    pub clash: S,
}

// Whether two cells allow the same, whatever they bind.
fn is_same(c: Cell, d: Cell) -> bool
    ensures { result ≡ same_cell c d }
{
    c.tag == d.tag && c.allowed == d.allowed
}

fn is_apart(c: Cell, d: Cell) -> bool
    ensures { result ≡ apart_cell c d }
{
    let e = join(c, d);
    is_empty(e.allowed)
}

// The set with i, where `yes` says so.
fn with_if(s: u64, i: u32, yes: bool) -> u64
    requires { i < set_limit }
    ensures { (j : ℕ) → bit result j ≡ cond (yes && eqb j i) 1 (bit s j) }
{
    if yes {
        return with(s, i);
    }
    s
}

// Of the rows of a word, counted from `base` on: those at this very cell, and those at one without a head in common with it.
fn sort_word(a: &[u64], cur: &[u64; ROWS], base: usize, word: u64, c: Cell) -> Sorts<u64>
    requires { (base + set_limit ≤ row_limit) × Cells (in_word base word) a.now cur.now }
    ensures word_chosen { WordChosen (λ q. same_cell c (cell_of_row a.now cur.now q)) base word result.same }
    ensures word_chosen_2 { WordChosen (λ q. apart_cell c (cell_of_row a.now cur.now q)) base word result.clash }
{
    let mut left = word;
    let mut same = 0;
    let mut clash = 0;
    while left > 0 {
        let b = lowest(left);
        let d = cell_at(a, cur[base + b as usize] as usize);
        same = with_if(same, b, is_same(c, d));
        clash = with_if(clash, b, is_apart(c, d));
        left = rest(left);
    }
    Sorts { same, clash }
}

// The same of all rows of a set.
pub fn sort(a: &[u64], cur: &[u64; ROWS], s: &[u64; SET_WORDS], c: Cell) -> Sorts<[u64; SET_WORDS]>
    requires { Cells (member s.now) a.now cur.now }
    ensures chosen { Chosen (λ q. same_cell c (cell_of_row a.now cur.now q)) s.now result.same }
    ensures chosen_2 { Chosen (λ q. apart_cell c (cell_of_row a.now cur.now q)) s.now result.clash }
{
    let mut same = [0u64; SET_WORDS];
    let mut clash = [0u64; SET_WORDS];
    for w in 0..SET_WORDS {
        let x = sort_word(a, cur, WORD * w, s[w], c);
        same[w] = x.same;
        clash[w] = x.clash;
    }
    Sorts { same, clash }
}

// The cursors of the rows of a word past their cells.
fn pass(cur: &mut [u64], base: usize, word: u64)
    requires { (length cur.old ≡ row_limit) × (base + set_limit ≤ row_limit) × Passable (in_word base word) cur.old }
    ensures { Moved (in_word base word) (λ q. cell_width) cur.old cur.new }
{
    let mut left = word;
    while left > 0 {
        let b = lowest(left);
        cur[base + b as usize] += CELL as u64;
        left = rest(left);
    }
}

// The cursors of all rows of a set past their cells.
pub fn pass_all(cur: &mut [u64; ROWS], s: &[u64; SET_WORDS])
    requires { Passable (member s.now) cur.old }
    ensures { Moved (member s.now) (λ q. cell_width) cur.old cur.new }
{
    for w in 0..SET_WORDS {
        pass(cur, WORD * w, s[w]);
    }
}
