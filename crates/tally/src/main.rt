// The day's tally: the log on standard input is counted, and the report is written to standard output.
#![tactic(auto)]

use format::whole::TEXT_LIMIT;
use shown::file::read_full;
use std::io;
use tallying::{REPORT_LIMIT, tally_text};

// One byte more than a text may have, so that a longer one is noticed.
const READ: usize = TEXT_LIMIT + 1;

fn main(rt: HostRuntime) -> io::Result<()> {
    let mut text = [0u8; READ];
    let n = read_full(&mut rt.stdin(), &mut text)?;
    let mut out = [0u8; REPORT_LIMIT];
    let m = tally_text(&text[..n], &mut out);
    rt.write_all(&out[..m])
}
