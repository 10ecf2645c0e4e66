// The places of the variables that a rule binds.
ghost use Rattle.std.specs.Prelude.{◌≡◌, true, ◌+◌, ◌≤◌, length};
ghost use Rattle.signature.specs.Limits.{booking_limit};
ghost use Rattle.pattern.specs.Decide.{fit, decide, decides, is_fit};
ghost use Rattle.pattern.specs.Limits.{variable_count};
ghost use Rattle.pattern.specs.Match.{Binds};
ghost use Rattle.pattern.specs.Places.{bind_all, unbound};
ghost use Rattle.matching.specs.Asked.{Asked};
ghost use Rattle.matching.specs.Bound.{bound, join};
ghost use Rattle.matching.specs.Given.{Given, GivenTwo, GivenAll};

use crate::span::span;
use crate::takes::{all_fit, fits};
use pattern::limits::{UNBOUND, VARIABLES};
use pattern::token::{Word, classify, own_words};
use signature::decoded::arity_of;

// The 16 places of the rule with the pattern p, which takes the booking b.
pub fn places(t: &[u16], p: &[u16], b: &[u16]) -> [u16; VARIABLES]
    requires asked { Asked t.now p.now b.now }
    requires value_value { (g : Asked t.now p.now b.now) → is_fit (decide g.pattern g.value 0) ≡ true }
    ensures { (g : Asked t.now p.now b.now) (σ : Binds) → decide g.pattern g.value 0 ≡ fit σ → result ≡ bind_all σ unbound }
{
    let mut out = [UNBOUND; VARIABLES];
    bind(t, p, b, 0, &mut out);
    out
}

// Puts in the places that the outcome of the pattern against the value binds, a fit's or a failure's. The value begins at the place at.
#[cycle(bind_bind_all_bind_two)]
fn bind(t: &[u16], p: &[u16], b: &[u16], at: u16, out: &mut [u16])
    requires { Given t.now p.now b.now × (at + length b.now ≤ booking_limit) × (length out.old ≡ variable_count) }
    ensures { (g : Given t.now p.now b.now) → out.new ≡ bind_all (bound (decide g.pattern g.value at)) out.old }
{
    let w = classify(p[0]);
    let own = own_words(w);
    match w {
        Word::Head(c) => {
            if b[0] != c {
                return;
            }
            let n = arity_of(t, c as usize);
            bind_all(t, &p[own..], &b[1..], at + 1, n, out);
        }
        Word::And => {
            bind_two(t, &p[own..], b, at, true, out);
        }
        Word::Or => {
            bind_two(t, &p[own..], b, at, false, out);
        }
        Word::Wild => {}
        Word::Absurd => {}
        Word::Not => {
            bind(t, &p[own..], b, at, out);
        }
        Word::Var(x) => {
            let i = x as usize;
            out[i] = at;
        }
        Word::Range => {}
        Word::Other => {}
    }
}

// The same of two patterns: of the one that settles the outcome, or of both.
#[cycle(bind_bind_all_bind_two)]
fn bind_two(t: &[u16], p: &[u16], b: &[u16], at: u16, both: bool, out: &mut [u16])
    requires { GivenTwo t.now p.now b.now × (at + length b.now ≤ booking_limit) × (length out.old ≡ variable_count) }
    ensures { (g : GivenTwo t.now p.now b.now) → out.new ≡ bind_all (bound (join both (decide g.first g.value at) (decide g.second g.value at))) out.old }
{
    let first = fits(t, p, b);
    if first != both {
        bind(t, p, b, at, out);
        return;
    }
    let n = span(t, p);
    let second = fits(t, &p[n..], b);
    if second != both {
        bind(t, &p[n..], b, at, out);
        return;
    }
    bind(t, p, b, at, out);
    bind(t, &p[n..], b, at, out);
}

// The same of n patterns and n values: of the first argument that fails, or of all.
#[cycle(bind_bind_all_bind_two)]
fn bind_all(t: &[u16], p: &[u16], b: &[u16], at: u16, n: u16, out: &mut [u16])
    requires { GivenAll t.now p.now b.now n × (at + length b.now ≤ booking_limit) × (length out.old ≡ variable_count) }
    ensures { (g : GivenAll t.now p.now b.now n) → out.new ≡ bind_all (bound (decides g.patterns g.values at)) out.old }
{
    if n == 0 {
        return;
    }
    if !fits(t, p, b) {
        bind(t, p, b, at, out);
        return;
    }
    let i = span(t, p);
    let j = booking::walk::span(t, b);
    if all_fit(t, &p[i..], &b[j..], n - 1) {
        bind(t, p, b, at, out);
    }
    bind_all(t, &p[i..], &b[j..], at + j as u16, n - 1, out);
}
