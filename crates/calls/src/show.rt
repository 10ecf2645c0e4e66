// What a call gave, as a line.
ghost use Rattle.std.specs.Prelude.{◌≡◌, ◌≤◌, length};
ghost use Rattle.gap.specs.Answer.{length_in};

use entry::sound::Entry;
use pattern::limits::VARIABLES;
use run::Answer;
use shown::print;
use signature::refusals;
use signature::refusals::Refusal;
use std::io;

// A number by itself.
pub fn line(rt: &impl Print, r: Result<(), Refusal>) -> io::Result<()> {
    print::number(rt, refusals::number(&r) as usize)?;
    print::end(rt)
}

// How many words there are before the zeros at the end.
pub fn used(w: &[u16]) -> usize
    ensures { result ≤ length w.now }
{
    for n in (0..w.len()).rev() {
        if w[n] > 0 {
            return n + 1;
        }
    }
    0
}

pub fn answer(rt: &impl Print, r: Result<Answer, Refusal>) -> io::Result<()> {
    match r {
        Ok(a) => print::answer(rt, 0, a.rule, a.plan, &a.places),
        Err(q) => print::answer(rt, u16::from(q), 0, 0, &[0; VARIABLES]),
    }
}

// The first n words, where there are as many.
fn front(rt: &impl Print, w: &[u16], n: usize) -> io::Result<()> {
    if n <= w.len() {
        print::words(rt, &w[0..n])?;
    }
    Ok(())
}

// The number, the tree's length and its words.
pub fn tree(rt: &impl Print, r: Result<usize, Refusal>, space: &[u16]) -> io::Result<()> {
    print::number(rt, refusals::number(&r) as usize)?;
    let len = r.unwrap_or(0);
    print::spaced(rt, len)?;
    front(rt, space, len)?;
    print::end(rt)
}

// The number; on 12, where `in_full`, the rule that shares a booking, the booking's length and its words.
pub fn entry(rt: &impl Print, e: Entry, in_full: bool, witness: &[u16]) -> io::Result<()> {
    match e {
        Entry::Entered => print::number(rt, 0)?,
        Entry::Refused(r) => print::number(rt, u16::from(r) as usize)?,
        Entry::Shares(rule, length) => {
            print::number(rt, 12)?;
            if in_full {
                print::spaced(rt, rule as usize)?;
                print::spaced(rt, length)?;
                front(rt, witness, length)?;
            }
        }
    }
    print::end(rt)
}

// The number, whether a booking is shown, and whether a word behind it is no longer 0.
pub fn gap(rt: &impl Print, r: Result<Option<usize>, Refusal>, witness: &[u16]) -> io::Result<()> {
    print::number(rt, refusals::number(&r) as usize)?;
    let len = shown(r);
    if len > 0 {
        print::text(rt, b" shown")?;
    }
    if used(witness) > len {
        print::text(rt, b" written behind")?;
    }
    print::end(rt)
}

// The length of the booking that is shown, 0 for none.
pub fn shown(r: Result<Option<usize>, Refusal>) -> usize
    ensures { result ≡ length_in r }
{
    match r {
        Ok(Some(len)) => len,
        _ => 0,
    }
}
