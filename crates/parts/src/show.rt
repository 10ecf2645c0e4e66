// A line for a case: its number, whether the signature is lawful, whether the booking is, the number of the refusal, and the part: its
// length and its first words.
use booking::part::{part, part_number};
use booking::walk::lawful;
use decoding::decode::decode;
use shown::print;
use signature::decoded::DECODED;
use std::io;

// So many words of a part are written.
const SHOWN: usize = 8;

fn yes(rt: &impl Print, ok: bool) -> io::Result<()> {
    if ok {
        return print::text(rt, b" yes");
    }
    print::text(rt, b" no")
}

// The first n words.
pub fn front(s: &[u16], n: usize) -> &[u16] {
    if s.len() < n {
        return s;
    }
    &s[0..n]
}

fn words(rt: &impl Print, p: &[u16]) -> io::Result<()> {
    print::words(rt, front(p, SHOWN))?;
    if SHOWN < p.len() {
        print::text(rt, b" ..")?;
    }
    Ok(())
}

// Whether the signature is lawful; then whether the booking is.
fn checked(rt: &impl Print, ss: &[u16], b: &[u16]) -> io::Result<()> {
    let mut t = [0u16; DECODED];
    if !decode(ss, &mut t) {
        return yes(rt, false);
    }
    yes(rt, true)?;
    yes(rt, lawful(&t, b))
}

pub fn case(rt: &impl Print, n: usize, ss: &[u16], b: &[u16], place: usize) -> io::Result<()> {
    print::text(rt, b"case")?;
    print::spaced(rt, n)?;
    print::text(rt, b":")?;
    checked(rt, ss, b)?;
    print::spaced(rt, part_number(ss, b, place) as usize)?;
    let p = part(ss, b, place);
    print::text(rt, b",")?;
    print::spaced(rt, p.len())?;
    print::text(rt, b":")?;
    words(rt, p)?;
    print::end(rt)
}
