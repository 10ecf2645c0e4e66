// Runs patterns of documents 01 and 02 against a signature and three bookings, and writes a line for each: the refusal 7, 18, 8 or 9;
// or 0 and, for each booking, whether the pattern takes it, with variable:place for each variable that it binds.
#![tactic(auto)]

mod show;

ghost use Rattle.signature.specs.Decoded.{Known};

use decoding::decode::decode;
use shown::file::{read_words, size};
use signature::decoded::DECODED;
use std::io;
use std::rt::Files;

const WORDS: usize = 1024;

// Patterns one behind the other, each its count of words and then those.
fn lines(
    rt: &impl Print,
    t: &[u16],
    all: &[u16],
    first: &[u16],
    second: &[u16],
    third: &[u16],
) -> io::Result<()>
    requires { Known t.now }
{
    let mut w = all;
    while w.len() > 0 {
        let e = 1 + size(w[0]);
        if w.len() < e {
            return Ok(());
        }
        show::line(rt, t, &w[1..e], first, second, third)?;
        w = &w[e..];
    }
    Ok(())
}

fn run(
    rt: &(impl Files + Print),
    signature: &[u16],
    name: &[u8],
    first: &[u16],
    second: &[u16],
    third: &[u16],
) -> io::Result<()> {
    let mut t = [0u16; DECODED];
    if !decode(signature, &mut t) {
        return Ok(());
    }
    let mut all = [0u16; WORDS];
    let n = read_words(rt, name, true, &mut all)?;
    lines(rt, &t, &all[..n], first, second, third)
}

fn main(rt: HostRuntime) -> io::Result<()> {
    run(
        &rt,
        &[6u16, 0, 2, 1, 2, 1, 0, 1, 0, 1, 0, 2, 0, 2, 0],
        b"patterns.txt",
        &[0u16, 1, 5],
        &[0u16, 2, 5],
        &[0u16, 3, 4],
    )?;
    run(
        &rt,
        &[2u16, 0, 1, 1, 1, 5],
        b"levels.txt",
        &[0u16, 1000],
        &[0u16, 1006],
        &[0u16, 1100],
    )
}
