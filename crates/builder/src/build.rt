// The rows of a pattern.
ghost use Rattle.std.specs.Prelude.{◌≡◌, true, false, cond, [], ◌∷◌, ℕ, ◌+◌, ◌-◌, ◌≤◌, ◌<◌, ◌^◌, ltb, length};
ghost use Rattle.signature.specs.Decoded.{decoded_length, count_of, first_of};
ghost use Rattle.signature.specs.Limits.{kind_limit, heads_limit};
ghost use Rattle.sets.specs.Set.{bit};
ghost use Rattle.sets.specs.Heads.{number_of};
ghost use Rattle.pattern.specs.Pattern.{patterns_code, range};
ghost use Rattle.pattern.specs.Word.{form_of, var_small};
ghost use Rattle.cell.specs.Cell.{cell_width, cell_code, first_word, kind_tag};
ghost use Rattle.cell.specs.Coded.{kinds_of};
ghost use Rattle.cell.specs.RowList.{entries, from};
ghost use Rattle.rowlist.specs.Product.{GivenProduct, Product, products};
ghost use Rattle.rowlist.specs.Sides.{rows_of};
ghost use Rattle.builder.specs.Arguments.{GivenArgs, MadeArgs};
ghost use Rattle.builder.specs.declared.build.Making.TheVariants.{Head, Multiply, Add};
ghost use Rattle.builder.specs.Build.{making_of, GivenPat, GivenAs, GivenRange, Made, GivenPart, words_room, GivenWhole, RowsFirst};

use cell::cell::{CELL, Cell, KIND_TAG, put};
use pattern::limits::PATTERN_WORDS;
use pattern::token::{Word, classify, own_words};
use products::product::product;
use rowlist::grow::copy;
use rowlist::next::{next_rows, others};
use sets::heads::{Heads, between, full, is_empty, minus, only, without};
use signature::decoded::{argument_of, arity_of, count_of, first_of};

// How the rows of a pattern are made on one side: a constructor's; the products of its two parts' rows; both parts' rows; one row of one cell, with these variables; none; its part's on the other side; those of a range.
#[derive(Clone, Copy)]
pub enum Making {
    Head(u16),
    Multiply,
    Add,
    One(u64),
    Nothing,
    Swap,
    Range,
}

// A list of one row of one cell.
fn one(tag: u64, vars: u64, allowed: Heads, out: &mut [u64]) -> usize
    requires { (5 ≤ length out.old) × (first_word tag vars < 2 ^ 64) }
    ensures { Product (cell_width ∷ cell_code tag vars (number_of allowed)) result out.new }
{
    out[0] = CELL as u64;
    let cell = Cell { tag, vars, allowed };
    put(out, 1, cell);
    out[4] = 0;
    4
}

// A list of no row.
fn nothing(out: &mut [u64]) -> usize
    requires { 1 ≤ length out.old }
    ensures { Product [] result out.new }
{
    out[0] = 0;
    0
}

// The list of the row of a range of levels, whose ends are behind the first word of p: those in it, or on the minus side all others, if there are any.
fn range_rows(tag: u64, full: Heads, p: &[u16], plus: bool, out: &mut [u64]) -> usize
    requires { GivenRange tag (number_of full) p.now (length out.old) }
    ensures { (g : GivenRange tag (number_of full) p.now (length out.old)) → Product (entries (kinds_of g.sig) g.k (rows_of g.sig g.k plus (range g.low g.high))) result out.new }
{
    let set = between(p[1] as u32, p[2] as u32);
    if plus {
        return one(tag, 0, set, out);
    }
    let rest = minus(full, set);
    if is_empty(rest) {
        return nothing(out);
    }
    one(tag, 0, rest, out)
}

fn plus_making(w: Word) -> Making
    requires { var_small (form_of w) }
    ensures { result ≡ making_of (form_of w) true }
{
    match w {
        Word::Head(c) => Making::Head(c),
        Word::And => Making::Multiply,
        Word::Or => Making::Add,
        Word::Wild => Making::One(0),
        Word::Absurd => Making::Nothing,
        Word::Not => Making::Swap,
        Word::Var(x) => Making::One(sets::set::only(x as u32)),
        Word::Range => Making::Range,
        Word::Other => Making::Nothing,
    }
}

fn minus_making(w: Word) -> Making
    ensures { result ≡ making_of (form_of w) false }
{
    match w {
        Word::Head(c) => Making::Head(c),
        Word::And => Making::Add,
        Word::Or => Making::Multiply,
        Word::Wild => Making::Nothing,
        Word::Absurd => Making::One(0),
        Word::Not => Making::Swap,
        Word::Var(_x) => Making::Nothing,
        Word::Range => Making::Range,
        Word::Other => Making::Nothing,
    }
}

fn making_of(w: Word, plus: bool) -> Making
    requires { var_small (form_of w) }
    ensures { result ≡ making_of (form_of w) plus }
{
    if plus {
        return plus_making(w);
    }
    minus_making(w)
}

// The product of the list in front and of that which begins at a word.
fn times(t: &[u16], lists: &[u64], at: usize, out: &mut [u64]) -> usize
    requires at_in_bounds { at ≤ length lists.now }
    requires given_product { GivenProduct t.now lists.now (from lists.now at) out.old }
    ensures { (g : GivenProduct t.now lists.now (from lists.now at) out.old) → Product (entries g.K g.kind (products g)) result out.new }
{
    product(t, lists, &lists[at..], out)
}

// The set of all heads of a kind.
fn full_of(t: &[u16], k: usize) -> Heads
    requires { (length t.now ≡ decoded_length) × (k < kind_limit) × (count_of t.now k ≤ heads_limit) }
    ensures { (j : ℕ) → bit (number_of result) j ≡ cond (ltb j (count_of t.now k)) 1 0 }
{
    full(count_of(t, k) as u32)
}

// A constructor's place among the heads of the kind whose tag is given.
fn place_of(t: &[u16], tag: u64, c: usize) -> u32
    requires { (length t.now ≡ decoded_length) × (kind_tag ≤ tag) × (tag < kind_tag + kind_limit) × (first_of t.now (tag - kind_tag) ≤ c) × (c < first_of t.now (tag - kind_tag) + heads_limit) }
    ensures { (result ≡ c - first_of t.now (tag - kind_tag)) × (result < heads_limit) }
{
    let k = (tag - KIND_TAG) as usize;
    let f = first_of(t, k) as usize;
    (c - f) as u32
}

// Words that each slice needs for each word of a pattern, besides one for the end.
pub const ROOM_UNIT: usize = 256;

// Words that each slice needs for a pattern of 64 words.
pub const ROW_ROOM: usize = ROOM_UNIT * PATTERN_WORDS + 1;

// Words that each slice needs for a lent pattern of n words.
pub fn words_room(n: usize) -> usize
    ensures { result ≡ words_room n }
{
    ROOM_UNIT * n.min(PATTERN_WORDS) + 1
}

#[derive(Clone, Copy)]
pub struct Built {
    pub used: usize,
    pub read: usize,
}

// The rows of the pattern in front of p, on one side: their list first in out. A part that is multiplied is built in the workspace, with out as its workspace.
#[cycle(added_args_head_rows_multiplied_rows)]
pub fn rows(
    t: &[u16],
    tag: u64,
    full: Heads,
    p: &[u16],
    plus: bool,
    out: &mut [u64],
    work: &mut [u64],
) -> Built
    requires { GivenPat t.now tag (number_of full) p.now plus (length out.old) (length work.old) }
    ensures { (g : GivenPat t.now tag (number_of full) p.now plus (length out.old) (length work.old)) → Made (kinds_of g.known.sig) g.known.sig g.k plus g.p result.used result.read out.new }
{
    let w = classify(p[0]);
    let own = own_words(w);
    let s = making_of(w, plus);
    match s {
        Making::Head(c) => head_rows(t, tag, full, c, own, p, plus, out, work),
        Making::Multiply => multiplied(t, tag, full, own, p, plus, out, work),
        Making::Add => added(t, tag, full, own, p, plus, out, work),
        Making::One(vars) => {
            let used = one(tag, vars, full, out);
            Built { used, read: own }
        }
        Making::Nothing => {
            let used = nothing(out);
            Built { used, read: own }
        }
        Making::Swap => {
            let a = rows(t, tag, full, &p[own..], !plus, out, work);
            let read = a.read + own;
            Built { read, ..a }
        }
        Making::Range => {
            let used = range_rows(tag, full, p, plus, out);
            Built { used, read: own }
        }
    }
}

// The rows of two parts that are multiplied: both lists in the workspace, the second behind the first.
#[cycle(added_args_head_rows_multiplied_rows)]
fn multiplied(
    t: &[u16],
    tag: u64,
    full: Heads,
    own: usize,
    p: &[u16],
    plus: bool,
    out: &mut [u64],
    work: &mut [u64],
) -> Built
    requires { GivenAs Multiply t.now tag (number_of full) own p.now plus (length out.old) (length work.old) }
    ensures { (g : GivenAs Multiply t.now tag (number_of full) own p.now plus (length out.old) (length work.old)) → Made (kinds_of g.pat.known.sig) g.pat.known.sig g.pat.k plus g.pat.p result.used result.read out.new }
{
    let a = rows(t, tag, full, &p[own..], plus, work, out);
    let from = a.read + own;
    let at = a.used + 1;
    let b = rows(t, tag, full, &p[from..], plus, &mut work[at..], out);
    let used = times(t, work, at, out);
    let read = from + b.read;
    Built { used, read }
}

// The rows of two parts that are added: the second list behind the first.
#[cycle(added_args_head_rows_multiplied_rows)]
fn added(
    t: &[u16],
    tag: u64,
    full: Heads,
    own: usize,
    p: &[u16],
    plus: bool,
    out: &mut [u64],
    work: &mut [u64],
) -> Built
    requires { GivenAs Add t.now tag (number_of full) own p.now plus (length out.old) (length work.old) }
    ensures { (g : GivenAs Add t.now tag (number_of full) own p.now plus (length out.old) (length work.old)) → Made (kinds_of g.pat.known.sig) g.pat.known.sig g.pat.k plus g.pat.p result.used result.read out.new }
{
    let a = rows(t, tag, full, &p[own..], plus, out, work);
    let from = a.read + own;
    let at = a.used;
    let b = rows(t, tag, full, &p[from..], plus, &mut out[at..], work);
    let used = at + b.used;
    let read = from + b.read;
    Built { used, read }
}

// The rows of the pattern in front of p, whose constructor is given.
#[cycle(added_args_head_rows_multiplied_rows)]
fn head_rows(
    t: &[u16],
    tag: u64,
    full: Heads,
    head: u16,
    own: usize,
    p: &[u16],
    plus: bool,
    out: &mut [u64],
    work: &mut [u64],
) -> Built
    requires { GivenAs (Head head) t.now tag (number_of full) own p.now plus (length out.old) (length work.old) }
    ensures { (g : GivenAs (Head head) t.now tag (number_of full) own p.now plus (length out.old) (length work.old)) → Made (kinds_of g.pat.known.sig) g.pat.known.sig g.pat.k plus g.pat.p result.used result.read out.new }
{
    let c = head as usize;
    let i = place_of(t, tag, c);
    let begun = one(head as u64, 0, only(i), out);
    let a = args(t, c, 0, &p[own..], plus, begun, out, work);
    let read = a.read + own;
    if plus {
        return Built { read, ..a };
    }
    let used = others(tag, without(full, i), a.used, out, work);
    Built { used, read }
}

// The rows of the arguments of c from j on, behind each of the rows in out; p begins with those arguments.
#[cycle(added_args_head_rows_multiplied_rows)]
fn args(
    t: &[u16],
    c: usize,
    j: usize,
    p: &[u16],
    plus: bool,
    used: usize,
    out: &mut [u64],
    work: &mut [u64],
) -> Built
    requires { GivenArgs t.now c j p.now plus used out.old (length work.old) }
    ensures { (g : GivenArgs t.now c j p.now plus used out.old (length work.old)) → MadeArgs g.known.sig plus g.ks g.ps g.begun (g.a + length (patterns_code g.ps)) result.used result.read out.new }
{
    let arity = arity_of(t, c) as usize;
    if j >= arity {
        return Built { used, read: 0 };
    }
    let k = argument_of(t, c, j) as usize;
    let set = full_of(t, k);
    let tag = KIND_TAG + k as u64;
    let at = used + 1;
    copy(out, at, work, 0);
    let a = rows(t, tag, set, p, plus, &mut work[at..], out);
    let n = next_rows(plus, tag, set, work, at, out);
    let from = a.read;
    let b = args(t, c, j + 1, &p[from..], plus, n, out, work);
    let read = from + b.read;
    Built { read, ..b }
}

// The rows of the part in front of p, of kind k, on one side.
fn part_rows(t: &[u16], k: usize, p: &[u16], plus: bool, out: &mut [u64], work: &mut [u64]) -> Built
    requires { GivenPart t.now k p.now plus (length out.old) (length work.old) }
    ensures { (g : GivenPart t.now k p.now plus (length out.old) (length work.old)) → Made (kinds_of g.known.sig) g.known.sig k plus g.pattern result.used result.read out.new }
{
    let full = full_of(t, k);
    let tag = KIND_TAG + k as u64;
    rows(t, tag, full, p, plus, out, work)
}

// The rows of a whole pattern: their list first in out, of so many words without its end.
pub fn build(t: &[u16], p: &[u16], out: &mut [u64], work: &mut [u64]) -> usize
    requires { GivenWhole t.now p.now (length out.old) (length work.old) }
    ensures { (g : GivenWhole t.now p.now (length out.old) (length work.old)) → RowsFirst g.known.sig g.p result out.new }
{
    part_rows(t, 0, p, true, out, work).used
}
