// Runs over trees, damaged ones among them: the file has, for each, the lengths of the signature, the tree and the
// booking, then their words, 16 bits each, the lower byte first. Prints the number, the rule, the plan and the bound variables.
#![tactic(auto)]

ghost use Rattle.std.specs.Prelude.{◌≤◌, ◌<◌, length, IfOk, IfSome};

use pattern::limits::VARIABLES;
use run::Answer;
use shown::file::{read_words, size};
use shown::print::answer;
use signature::refusals::Refusal;
use std::io;

const WORDS: usize = 131072;

fn show(rt: &impl Print, ran: Result<Answer, Refusal>) -> io::Result<()> {
    match ran {
        Ok(a) => answer(rt, 0, a.rule, a.plan, &a.places),
        Err(r) => answer(rt, u16::from(r), 0, 0, &[0; VARIABLES]),
    }
}

// The first run of these words; how many words it has, None where there is none.
fn case(rt: &impl Print, w: &[u16]) -> io::Result<Option<usize>>
    ensures { IfOk result (λ r. IfSome r (λ n. (0 < n) × (n ≤ length w.now))) }
{
    if w.len() < 3 {
        return Ok(None);
    }
    let s = 3 + size(w[0]);
    let t = s + size(w[1]);
    let e = t + size(w[2]);
    if w.len() < e {
        return Ok(None);
    }
    show(rt, run::run(&w[3..s], &w[s..t], &w[t..e]))?;
    Ok(Some(e))
}

fn cases(rt: &impl Print, all: &[u16]) -> io::Result<()> {
    let mut w = all;
    while let Some(n) = case(rt, w)? {
        w = &w[n..];
    }
    Ok(())
}

fn main(rt: HostRuntime) -> io::Result<()> {
    let mut all = [0u16; WORDS];
    let n = read_words(&rt, b"runs.bin", false, &mut all)?;
    cases(&rt, &all[..n])
}
