// Logs of every kind through the call `tally`: a line for each log of logs.bin.
#![tactic(auto)]

use counting::tally;
use shown::file::{read_words, size};
use shown::print;
use std::io;

// The words of logs.bin at most.
const WORDS: usize = 65536;

// What the call gives, as a line: the number, the total, and each rule that has a count.
fn show_tally(rt: &impl Print, log: &[u16]) -> io::Result<()> {
    match tally(log) {
        Ok(t) => {
            print::number(rt, 0)?;
            print::spaced(rt, size(t.total))?;
            print::pairs(rt, &t.counts, 0)?;
        }
        Err(r) => {
            print::number(rt, size(u16::from(r)))?;
            print::spaced(rt, 0)?;
        }
    }
    print::end(rt)
}

// Logs behind each other, each with its length before it.
fn show_tallies(rt: &impl Print, words: &[u16]) -> io::Result<()> {
    let mut rest = words;
    while rest.len() > 0 {
        let n = size(rest[0]);
        if rest.len() <= n {
            return Ok(());
        }
        let end = n + 1;
        show_tally(rt, &rest[1..end])?;
        rest = &rest[end..];
    }
    Ok(())
}

fn main(rt: HostRuntime) -> io::Result<()> {
    let mut words = [0u16; WORDS];
    let m = read_words(&rt, b"logs.bin", false, &mut words)?;
    show_tallies(&rt, &words[..m])
}
