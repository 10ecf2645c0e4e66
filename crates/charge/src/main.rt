// The text program: what stands on standard input is answered on standard output.
#![tactic(auto)]

use answering::answer::answer;
use format::whole::TEXT_LIMIT;
use printing::print::PRINT_LIMIT;
use shown::file::read_full;
use std::io;

// One byte more than a text may have, so that a longer one is noticed.
const READ: usize = TEXT_LIMIT + 1;

fn main(rt: HostRuntime) -> io::Result<()> {
    let mut text = [0u8; READ];
    let n = read_full(&mut rt.stdin(), &mut text)?;
    let mut out = [0u8; PRINT_LIMIT];
    let m = answer(&text[..n], &mut out);
    rt.write_all(&out[..m])
}
