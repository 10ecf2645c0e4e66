// Whether some part of a pattern, at the side on which it stands, is ambiguous (refusal 10).
ghost use Rattle.std.specs.Prelude.{◌≡◌, false, ◌&&◌, length};
ghost use Rattle.pattern.specs.Word.{form_of};
ghost use Rattle.row.specs.Overlap.{ambiguous_plus};
ghost use Rattle.ambiguity.specs.Ambiguity.{may_double, may_double_at, negates, doubles, taken_twice, own_variable, Judged};
ghost use Rattle.builder.specs.Build.{GivenPart, GivenWhole};

use crate::both::both;
use pattern::token::{Word, classify, own_words, part_kind, parts, side_behind};
use signature::decoded::wide;

fn is_variable(w: Word, plus: bool) -> bool
    ensures { result ≡ own_variable plus (form_of w) }
{
    match w {
        Word::Var(_x) => plus,
        _ => false,
    }
}

// Whether a value may be taken by both parts behind a word: "or" on the plus side, "and" on the minus side.
fn is_double(w: Word, plus: bool) -> bool
    ensures { result ≡ doubles plus (form_of w) }
{
    match w {
        Word::And => !plus,
        Word::Or => plus,
        _ => false,
    }
}

// Whether a word is a "not".
fn is_not(w: Word) -> bool
    ensures { result ≡ negates (form_of w) }
{
    matches!(w, Word::Not)
}

// Whether a value may be taken twice behind a word, on the plus side, or below a "not" on either.
fn may_double_at(w: Word, below: bool) -> bool
    ensures { result ≡ may_double_at below (form_of w) }
{
    is_double(w, true) || (below && is_double(w, false))
}

// Whether some word is one of these; a pattern without them is not ambiguous.
fn may_double(p: &[u16]) -> bool
    ensures { result ≡ may_double false p.now }
{
    let mut below = false;
    for word in p {
        let w = classify(*word);
        if may_double_at(w, below) {
            return true;
        }
        below |= is_not(w);
    }
    false
}

// Whether the pattern in front of p is ambiguous by itself: it has variables, and a value is taken twice.
fn twice(
    t: &[u16],
    k: usize,
    p: &[u16],
    plus: bool,
    vars: bool,
    out: &mut [u64],
    work: &mut [u64],
) -> bool
    requires { GivenPart t.now k p.now plus (length out.old) (length work.old) }
    ensures { (g : GivenPart t.now k p.now plus (length out.old) (length work.old)) → result ≡ (vars && taken_twice plus g.known.sig k g.pattern) }
{
    if !vars {
        return false;
    }
    let w = classify(p[0]);
    if !is_double(w, plus) {
        return false;
    }
    let own = own_words(w);
    both(t, k, &p[own..], plus, out, work)
}

// Whether the pattern in front of p, of kind k, has variables at a side, and how many words it takes; none if it, or a part of it, is ambiguous.
fn ambiguous_at(
    t: &[u16],
    k: usize,
    p: &[u16],
    plus: bool,
    out: &mut [u64],
    work: &mut [u64],
) -> Option<(bool, usize)>
    requires { GivenPart t.now k p.now plus (length out.old) (length work.old) }
    ensures { (g : GivenPart t.now k p.now plus (length out.old) (length work.old)) → Judged plus g.known.sig k g.pattern result }
{
    let w = classify(p[0]);
    let count = parts(t, w) as usize;
    let side = side_behind(w, plus);
    let mut vars = is_variable(w, plus);
    let mut at = own_words(w);
    for i in 0..count {
        let kind = wide(part_kind(t, w, k as u16, i));
        let (more, used) = ambiguous_at(t, kind, &p[at..], side, out, work)?;
        vars |= more;
        at += used;
    }
    if twice(t, k, p, plus, vars, out, work) {
        return None;
    }
    Some((vars, at))
}

// Whether a pattern past 7, 18, 8 and 9 is ambiguous.
pub fn ambiguous(t: &[u16], p: &[u16], out: &mut [u64], work: &mut [u64]) -> bool
    requires { GivenWhole t.now p.now (length out.old) (length work.old) }
    ensures { (g : GivenWhole t.now p.now (length out.old) (length work.old)) → result ≡ ambiguous_plus g.known.sig 0 g.p }
{
    if !may_double(p) {
        return false;
    }
    ambiguous_at(t, 0, p, true, out, work).is_none()
}
