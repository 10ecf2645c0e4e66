// Signatures and bookings, good and bad, through decode, lawful, part and part_number: a line for each case. What each line must be stands
// in cases.txt, or beside its case, with the rule of document 01.
#![tactic(auto)]

mod large;
mod show;

ghost use Rattle.std.specs.Prelude.{◌≤◌, ◌<◌, length, IfOk, IfSome};

use shown::file::{read_words, size};
use std::io;

const WORDS: usize = 2048;

// The first case of these words; how many words it has, None where there is none.
fn first(rt: &impl Print, w: &[u16]) -> io::Result<Option<usize>>
    ensures { IfOk result (λ r. IfSome r (λ n. (0 < n) × (n ≤ length w.now))) }
{
    if w.len() < 4 {
        return Ok(None);
    }
    let s = 4 + size(w[2]);
    let e = s + size(w[3]);
    if w.len() < e {
        return Ok(None);
    }
    show::case(rt, size(w[0]), &w[4..s], &w[s..e], size(w[1]))?;
    Ok(Some(e))
}

fn cases(rt: &impl Print, all: &[u16]) -> io::Result<()> {
    let mut w = all;
    while let Some(n) = first(rt, w)? {
        w = &w[n..];
    }
    Ok(())
}

fn main(rt: HostRuntime) -> io::Result<()> {
    let mut all = [0u16; WORDS];
    let n = read_words(&rt, b"cases.txt", true, &mut all)?;
    cases(&rt, &all[..n])?;
    large::counts(&rt)?;
    // one kind: 0 has four arguments, 1 none, 2 one
    let s = [3u16, 0, 4, 0, 0, 0, 0, 0, 0, 0, 1, 0];
    large::deep(&rt, &s)?;
    // 4,096 words; the last value due
    large::long(&rt, 70, &s, 3, 0)?;
    large::long(&rt, 71, &s, 3, 4092)?;
    // 4,097 words
    large::long(&rt, 72, &s, 4, 0)
}
