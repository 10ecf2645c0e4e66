// Whether a rule takes a booking.
ghost use Rattle.std.specs.Prelude.{◌≡◌, ℕ};
ghost use Rattle.pattern.specs.Decide.{decide, decides, is_fit};
ghost use Rattle.matching.specs.Asked.{Asked};
ghost use Rattle.matching.specs.Bound.{join};
ghost use Rattle.matching.specs.Given.{Given, GivenTwo, GivenAll};

use crate::span::span;
use pattern::range::within;
use pattern::token::{Word, classify, own_words};
use signature::decoded::arity_of;

// Whether the rule with the pattern p takes the booking b.
pub fn takes(t: &[u16], p: &[u16], b: &[u16]) -> bool
    requires { Asked t.now p.now b.now }
    ensures { (g : Asked t.now p.now b.now) → result ≡ is_fit (decide g.pattern g.value 0) }
{
    fits(t, p, b)
}

// Whether the pattern that begins p fits the value that begins b. The place of the value does not matter.
#[cycle(all_fit_fits_two_fit)]
pub(crate) fn fits(t: &[u16], p: &[u16], b: &[u16]) -> bool
    requires { Given t.now p.now b.now }
    ensures { (g : Given t.now p.now b.now) (i : ℕ) → result ≡ is_fit (decide g.pattern g.value i) }
{
    let w = classify(p[0]);
    let own = own_words(w);
    match w {
        Word::Head(c) => {
            if b[0] != c {
                return false;
            }
            let n = arity_of(t, c as usize);
            all_fit(t, &p[own..], &b[1..], n)
        }
        Word::And => two_fit(t, &p[own..], b, true),
        Word::Or => two_fit(t, &p[own..], b, false),
        Word::Wild => true,
        Word::Absurd => false,
        Word::Not => !fits(t, &p[own..], b),
        Word::Var(_x) => true,
        Word::Range => within(p[1], p[2], b[0]),
        Word::Other => false,
    }
}

// The two patterns that begin p, against one value: both fit, or either.
#[cycle(all_fit_fits_two_fit)]
fn two_fit(t: &[u16], p: &[u16], b: &[u16], both: bool) -> bool
    requires { GivenTwo t.now p.now b.now }
    ensures { (g : GivenTwo t.now p.now b.now) (i : ℕ) → result ≡ is_fit (join both (decide g.first g.value i) (decide g.second g.value i)) }
{
    let first = fits(t, p, b);
    if first != both {
        return first;
    }
    let n = span(t, p);
    fits(t, &p[n..], b)
}

// The n patterns that begin p fit the n values that begin b, each its own.
#[cycle(all_fit_fits_two_fit)]
pub(crate) fn all_fit(t: &[u16], p: &[u16], b: &[u16], n: u16) -> bool
    requires { GivenAll t.now p.now b.now n }
    ensures { (g : GivenAll t.now p.now b.now n) (i : ℕ) → result ≡ is_fit (decides g.patterns g.values i) }
{
    if n == 0 {
        return true;
    }
    if !fits(t, p, b) {
        return false;
    }
    let i = span(t, p);
    let j = booking::walk::span(t, b);
    all_fit(t, &p[i..], &b[j..], n - 1)
}
