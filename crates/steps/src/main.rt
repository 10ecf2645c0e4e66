// Bookings stepped word by word: the file has, for each, the lengths of the signature and the booking, then their words,
// 16 bits each, the lower byte first. Prints the number at the end, how many words were read, and after how many the booking was lawful.
#![tactic(auto)]

ghost use Rattle.std.specs.Prelude.{◌≤◌, ◌<◌, length, IfOk};

use shown::file::{read_words, size};
use shown::print;
use signature::refusals::number;
use std::io;
use stepping::begin::begin;
use stepping::end::end;
use stepping::state::{READ, STATE};
use stepping::step::step;

const WORDS: usize = 32768;

// After how many words the booking was lawful, 0 for none.
fn steps(ss: &[u16], b: &[u16], st: &mut [u16; STATE]) -> usize {
    let mut lawful = 0;
    for (i, w) in b.iter().enumerate() {
        let _ = step(ss, st, *w);
        if end(st).is_ok() {
            lawful = i + 1;
        }
    }
    lawful
}

fn show(rt: &impl Print, ss: &[u16], b: &[u16]) -> io::Result<()> {
    let mut st = [0u16; STATE];
    let _ = begin(ss, &mut st);
    let lawful = steps(ss, b, &mut st);
    print::number(rt, size(number(&end(&st))))?;
    print::spaced(rt, size(st[READ]))?;
    print::spaced(rt, lawful)?;
    print::end(rt)
}

// The first booking of these words; how many words it has, or all that are left.
fn case(rt: &impl Print, w: &[u16]) -> io::Result<usize>
    requires { 0 < length w.now }
    ensures { IfOk result (λ n. (0 < n) × (n ≤ length w.now)) }
{
    if w.len() < 2 {
        return Ok(w.len());
    }
    let s = 2 + size(w[0]);
    let e = s + size(w[1]);
    if w.len() < e {
        return Ok(w.len());
    }
    show(rt, &w[2..s], &w[s..e])?;
    Ok(e)
}

fn cases(rt: &impl Print, all: &[u16]) -> io::Result<()> {
    let mut at = 0;
    while at < all.len() {
        at += case(rt, &all[at..])?;
    }
    Ok(())
}

fn main(rt: HostRuntime) -> io::Result<()> {
    let mut all = [0u16; WORDS];
    let n = read_words(&rt, b"steps.bin", false, &mut all)?;
    cases(&rt, &all[..n])
}
