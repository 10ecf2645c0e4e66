// Texts of every kind through the functions of the text programs: for each file that list.txt names, its name and what charge prints; for each that logs.txt names, what tally prints.
#![tactic(auto)]

use answering::answer::answer;
use format::whole::TEXT_LIMIT;
use numbers::bytes::{NEWLINE, span};
use printing::print::PRINT_LIMIT;
use shown::file::read;
use shown::print;
use std::io;
use std::rt::Files;
use tallying::{REPORT_LIMIT, tally_text};

// The bytes of a list of names at most.
const NAMES: usize = 16384;

// One byte more than a text may have.
const READ: usize = TEXT_LIMIT + 1;

fn show_answer(rt: &impl Print, text: &[u8]) -> io::Result<()> {
    let mut out = [0u8; PRINT_LIMIT];
    let m = answer(text, &mut out);
    print::text(rt, &out[..m])
}

fn show_tally(rt: &impl Print, text: &[u8]) -> io::Result<()> {
    let mut out = [0u8; REPORT_LIMIT];
    let m = tally_text(text, &mut out);
    print::text(rt, &out[..m])
}

fn show(rt: &(impl Files + Print), name: &[u8], log: bool) -> io::Result<()> {
    print::text(rt, name)?;
    print::end(rt)?;
    let mut text = [0u8; READ];
    let n = read(rt, name, &mut text)?;
    if log {
        return show_tally(rt, &text[..n]);
    }
    show_answer(rt, &text[..n])
}

fn show_all(rt: &(impl Files + Print), names: &[u8], log: bool) -> io::Result<()> {
    let mut rest = names;
    while rest.len() > 0 {
        let e = span(rest, NEWLINE);
        if e == rest.len() {
            return Ok(());
        }
        show(rt, &rest[..e], log)?;
        let from = e + 1;
        rest = &rest[from..];
    }
    Ok(())
}

fn show_list(rt: &(impl Files + Print), list: &[u8], log: bool) -> io::Result<()> {
    let mut names = [0u8; NAMES];
    let n = read(rt, list, &mut names)?;
    show_all(rt, &names[..n], log)
}

fn main(rt: HostRuntime) -> io::Result<()> {
    show_list(&rt, b"list.txt", false)?;
    show_list(&rt, b"logs.txt", true)
}
