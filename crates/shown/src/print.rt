// Numbers, words and answers on standard output.
use crate::file::size;
use pattern::limits::{UNBOUND, VARIABLES};
use std::io;

pub fn text(rt: &impl Print, s: &[u8]) -> io::Result<()> {
    rt.write_all(s)
}

pub fn end(rt: &impl Print) -> io::Result<()> {
    text(rt, b"\n")
}

pub fn number(rt: &impl Print, n: usize) -> io::Result<()> {
    rt.print(n)
}

pub fn spaced(rt: &impl Print, n: usize) -> io::Result<()> {
    text(rt, b" ")?;
    number(rt, n)
}

pub fn words(rt: &impl Print, w: &[u16]) -> io::Result<()> {
    for x in w {
        spaced(rt, size(*x))?;
    }
    Ok(())
}

fn pair(rt: &impl Print, i: usize, w: u16, none: u16) -> io::Result<()> {
    if w == none {
        return Ok(());
    }
    spaced(rt, i)?;
    text(rt, b":")?;
    number(rt, w as usize)
}

// Each word that is not none, behind its index.
pub fn pairs(rt: &impl Print, words: &[u16], none: u16) -> io::Result<()> {
    for (i, w) in words.iter().enumerate() {
        pair(rt, i, *w, none)?;
    }
    Ok(())
}

// The variables that are bound, each with its place.
pub fn bindings(rt: &impl Print, places: &[u16; VARIABLES]) -> io::Result<()> {
    pairs(rt, places, UNBOUND)
}

// What a run or a decision gave, as a line.
pub fn answer(
    rt: &impl Print,
    refusal: u16,
    rule: u16,
    plan: u16,
    places: &[u16; VARIABLES],
) -> io::Result<()> {
    number(rt, refusal as usize)?;
    spaced(rt, rule as usize)?;
    spaced(rt, plan as usize)?;
    if refusal == 0 {
        bindings(rt, places)?;
    }
    end(rt)
}
