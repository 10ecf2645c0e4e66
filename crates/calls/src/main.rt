// Lists of calls on a table, good and bad: the file has them as words of 16 bits, the lower byte first. Each call is a line of what it gave.
#![tactic(auto)]

mod scene;
mod show;

use std::io;

const WORDS: usize = 98304;

const SIGNATURE: usize = 2048;

const TABLE: usize = 4400;

const SPACE: usize = 40000;

const WITNESS: usize = 5000;

fn main(rt: HostRuntime) -> io::Result<()> {
    let mut all = [0u16; WORDS];
    let m = shown::file::read_words(&rt, b"calls.bin", false, &mut all)?;
    let mut signature = [0u16; SIGNATURE];
    let mut table = [0u16; TABLE];
    let mut space = [0u16; SPACE];
    let mut witness = [0u16; WITNESS];
    scene::play(
        &rt,
        &all[..m],
        &mut signature,
        &mut table,
        &mut space,
        &mut witness,
    )
}
