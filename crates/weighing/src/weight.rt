// The weight of a pattern, and whether each part, at the side on which it stands, weighs at most 64 (refusal 9).
ghost use Rattle.std.specs.Prelude.{◌≡◌, ◌≤◌};
ghost use Rattle.pattern.specs.Given.{Patterned, Opens};
ghost use Rattle.pattern.specs.Limits.{part_weight_limit};
ghost use Rattle.pattern.specs.Side.{plus, minus};
ghost use Rattle.weighing.specs.Weighing.{weighed, part_weighed, head_at, joined, over_weight};
ghost use Rattle.pattern.specs.Word.{form_of};

use pattern::limits::PART_WEIGHT;
use pattern::token::{Word, classify, own_words, parts};

// What stands for every weight over 64, so that no product wraps.
pub const OVER_WEIGHT: u16 = 65;

fn join(times: bool, a: u16, b: u16) -> u16
    requires { (a ≤ over_weight) × (b ≤ part_weight_limit) }
    ensures { result ≡ joined times a b }
{
    let whole = if times { a * b } else { a + b };
    whole.min(OVER_WEIGHT)
}

// On the plus side: what to start with, and whether the weights of the parts behind a word are multiplied. A "not" goes to the other side.
fn plus_head(w: Word) -> Option<(u16, bool)>
    ensures { result ≡ head_at plus (form_of w) }
{
    match w {
        Word::Head(_c) => Some((1, true)),
        Word::And => Some((1, true)),
        Word::Or => Some((0, false)),
        Word::Wild => Some((1, true)),
        Word::Absurd => Some((0, true)),
        Word::Not => None,
        Word::Var(_x) => Some((1, true)),
        Word::Range => Some((1, true)),
        Word::Other => Some((0, true)),
    }
}

// The same on the minus side.
fn minus_head(w: Word) -> Option<(u16, bool)>
    ensures { result ≡ head_at minus (form_of w) }
{
    match w {
        Word::Head(_c) => Some((1, false)),
        Word::And => Some((0, false)),
        Word::Or => Some((1, true)),
        Word::Wild => Some((0, true)),
        Word::Absurd => Some((1, true)),
        Word::Not => None,
        Word::Var(_x) => Some((0, true)),
        Word::Range => Some((1, true)),
        Word::Other => Some((0, true)),
    }
}

// The weight of the pattern that begins `p`, on the plus side, and how many words it takes; if no part is too heavy.
#[cycle(weigh_minus_weigh_plus)]
fn weigh_plus(t: &[u16], p: &[u16]) -> Option<(u16, usize)>
    requires { Opens t.now p.now }
    ensures { (g : Opens t.now p.now) → result ≡ part_weighed plus g.pattern }
{
    let w = classify(p[0]);
    let own = own_words(w);
    let Some((start, times)) = plus_head(w) else {
        let (a, used) = weigh_minus(t, &p[own..])?;
        return Some((a, own + used));
    };
    let mut n = start;
    let mut at = own;
    let count = parts(t, w);
    for _i in 0..count {
        let Some((m, used)) = weigh_plus(t, &p[at..]) else {
            return None; // a factor 0 hides no part
        };
        n = join(times, n, m);
        at += used;
    }
    if PART_WEIGHT < n {
        return None;
    }
    Some((n, at))
}

// The same on the minus side.
#[cycle(weigh_minus_weigh_plus)]
fn weigh_minus(t: &[u16], p: &[u16]) -> Option<(u16, usize)>
    requires { Opens t.now p.now }
    ensures { (g : Opens t.now p.now) → result ≡ part_weighed minus g.pattern }
{
    let w = classify(p[0]);
    let own = own_words(w);
    let Some((start, times)) = minus_head(w) else {
        let (a, used) = weigh_plus(t, &p[own..])?;
        return Some((a, own + used));
    };
    let mut n = start;
    let mut at = own;
    let count = parts(t, w);
    for _i in 0..count {
        let (m, used) = weigh_minus(t, &p[at..])?;
        n = join(times, n, m);
        at += used;
    }
    if PART_WEIGHT < n {
        return None;
    }
    Some((n, at))
}

// The weight of a pattern, if no part is too heavy.
pub fn weigh(t: &[u16], p: &[u16]) -> Option<u16>
    requires { Patterned t.now p.now }
    ensures { (g : Patterned t.now p.now) → result ≡ weighed g.pattern }
{
    let (n, _used) = weigh_plus(t, p)?;
    Some(n)
}
