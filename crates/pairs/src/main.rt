// Which rows meet, by the descent over all rows and by every two of them: the file has, for each case, the lengths of the signature
// and of the patterns, then their words, 16 bits each, the lower byte first. Prints how many rows there are, how many ordered pairs
// meet by the one and by the other, in how many bits they differ, and the check number of the matrix.
#![tactic(auto)]

mod compare;
mod hold;

ghost use Rattle.std.specs.Prelude.{◌≤◌, length, IfOk};

use builder::build::ROW_ROOM;
use compare::compare;
use decoding::decode::decode;
use hold::{ROOM, hold_all};
use shown::file::{read_words, size};
use signature::decoded::DECODED;
use std::io;

const WORDS: usize = 32768;

fn show(rt: &impl Print, ss: &[u16], ps: &[u16]) -> io::Result<()> {
    let mut t = [0u16; DECODED];
    if !decode(ss, &mut t) {
        return Ok(());
    }
    let mut rows = [0u64; ROOM];
    let mut work = [0u64; ROW_ROOM];
    hold_all(&t, ps, &mut rows, &mut work);
    compare(rt, &t, &rows)
}

// The first case of these words; how many words it has, 0 where there is none.
fn case(rt: &impl Print, w: &[u16]) -> io::Result<usize>
    ensures { IfOk result (λ n. n ≤ length w.now) }
{
    if w.len() < 2 {
        return Ok(0);
    }
    let s = 2 + size(w[0]);
    let e = s + size(w[1]);
    if w.len() < e {
        return Ok(0);
    }
    show(rt, &w[2..s], &w[s..e])?;
    Ok(e)
}

fn cases(rt: &impl Print, all: &[u16]) -> io::Result<()> {
    let mut w = all;
    loop {
        let n = case(rt, w)?;
        if n == 0 {
            return Ok(());
        }
        w = &w[n..];
    }
}

fn main(rt: HostRuntime) -> io::Result<()> {
    let mut all = [0u16; WORDS];
    let n = read_words(&rt, b"pairs.bin", false, &mut all)?;
    cases(&rt, &all[..n])
}
