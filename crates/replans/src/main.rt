// Open charges answered again, good lists and bad: the file has, for each, the lengths of the signature, the tree and the
// list, then their words, 16 bits each, the lower byte first. Prints the number, how many plans changed, and the list afterwards.
#![tactic(auto)]

ghost use Rattle.std.specs.Prelude.{◌≡◌, ◌≤◌, ◌<◌, length, IfOk, IfSome};

use replanning::replan;
use shown::file::{read_words, size};
use shown::print;
use signature::refusals::number;
use std::io;

// The words of replans.bin at most.
const WORDS: usize = 65536;

// The words of a list at most: two records more than a list may have.
const LIST: usize = 3200;

// What the call makes of a list, in words of its own, since it writes them: each that is not 0.
fn show(
    rt: &impl Print,
    ss: &[u16],
    tree: &[u16],
    list: &[u16],
    charges: &mut [u16],
) -> io::Result<()>
    requires { length charges.old ≡ length list.now }
{
    charges.copy_from_slice(list);
    let r = replan(ss, tree, charges);
    print::number(rt, size(number(&r)))?;
    print::spaced(rt, size(r.unwrap_or(0)))?;
    print::pairs(rt, charges, 0)?;
    print::end(rt)
}

// The first case of these words; how many words it has, None where there is none. A list for which there is no room is left out.
fn case(rt: &impl Print, w: &[u16], room: &mut [u16]) -> io::Result<Option<usize>>
    ensures { IfOk result (λ r. IfSome r (λ n. (0 < n) × (n ≤ length w.now))) }
{
    if w.len() < 3 {
        return Ok(None);
    }
    let n = size(w[2]);
    let s = 3 + size(w[0]);
    let t = s + size(w[1]);
    let e = t + n;
    if w.len() < e {
        return Ok(None);
    }
    if room.len() < n {
        return Ok(Some(e));
    }
    show(rt, &w[3..s], &w[s..t], &w[t..e], &mut room[0..n])?;
    Ok(Some(e))
}

fn cases(rt: &impl Print, all: &[u16], room: &mut [u16]) -> io::Result<()> {
    let mut w = all;
    while let Some(n) = case(rt, w, room)? {
        w = &w[n..];
    }
    Ok(())
}

fn main(rt: HostRuntime) -> io::Result<()> {
    let mut all = [0u16; WORDS];
    let n = read_words(&rt, b"replans.bin", false, &mut all)?;
    let mut room = [0u16; LIST];
    cases(&rt, &all[..n], &mut room)
}
