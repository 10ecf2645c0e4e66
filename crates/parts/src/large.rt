// Signatures and bookings at their limits.
ghost use Rattle.std.specs.Prelude.{◌+◌, ◌*◌, ◌≤◌, ◌<◌, length};

use crate::show::{case, front};
use std::io;

// count constructors without arguments, so many of each kind.
fn plain(out: &mut [u16], count: u16, each: u16)
    requires { (count < 1000) × (1 + 2 * count ≤ length out.old) × (1 ≤ each) }
{
    out[0] = count;
    for c in 0..count {
        let row = 1 + 2 * (c as usize);
        out[row] = c / each;
        out[row + 1] = 0;
    }
}

// The booking of the one word w, where the constructors are plain.
fn counted(rt: &impl Print, n: usize, count: u16, each: u16, w: u16) -> io::Result<()>
    requires { (count < 258) × (1 ≤ each) }
{
    let mut s = [0u16; 515];
    plain(&mut s, count, each);
    case(rt, n, front(&s, 1 + 2 * (count as usize)), &[w], 0)
}

pub fn counts(rt: &impl Print) -> io::Result<()> {
    // 256 constructors, 64 of each of 4 kinds: 63 is the last of kind 0
    counted(rt, 50, 256, 64, 63)?;
    counted(rt, 51, 256, 64, 64)?;
    // 257 constructors
    counted(rt, 52, 257, 64, 63)?;
    // 64 of one kind, and 65
    counted(rt, 53, 64, 64, 63)?;
    counted(rt, 54, 65, 65, 63)?;
    // 32 kinds, and 33
    counted(rt, 55, 32, 1, 0)?;
    counted(rt, 56, 33, 1, 0)
}

// So many of the constructor w, one in the other, and behind them so many ones.
fn nested(
    rt: &impl Print,
    n: usize,
    s: &[u16],
    w: u16,
    many: usize,
    ones: usize,
    place: usize,
) -> io::Result<()>
    requires { many + ones < 1026 }
{
    let mut b = [1u16; 1025];
    b[..many].fill(w);
    case(rt, n, s, front(&b, many + ones), place)
}

pub fn deep(rt: &impl Print, s: &[u16]) -> io::Result<()> {
    // 255 of one argument and one of none: 256 deep; its last place
    nested(rt, 60, s, 2, 255, 1, 0)?;
    nested(rt, 61, s, 2, 255, 1, 255)?;
    // 257 deep
    nested(rt, 62, s, 2, 256, 1, 0)?;
    // 255 of four arguments and 766 of none: 256 deep; the innermost but one begins at 253
    nested(rt, 63, s, 0, 255, 766, 0)?;
    nested(rt, 64, s, 0, 255, 766, 253)?;
    // 256 of four arguments and 769 of none: 257 deep
    nested(rt, 65, s, 0, 256, 769, 0)
}

// 31 zeros and 93 ones, again and again.
fn run(i: usize) -> u16 {
    if i % 124 < 31 { 0 } else { 1 }
}

fn runs(out: &mut [u16]) {
    for (i, w) in out.iter_mut().enumerate() {
        *w = run(i);
    }
}

// 33 times 31 of four arguments, one in the other, and 93 of none: 4,092 words, and one value is due. It is so many twos and a one.
pub fn long(rt: &impl Print, n: usize, s: &[u16], twos: usize, place: usize) -> io::Result<()>
    requires { twos < 5 }
{
    let mut b = [2u16; 4097];
    runs(&mut b[..4092]);
    let last = 4092 + twos;
    b[last] = 1;
    case(rt, n, s, front(&b, last + 1), place)
}
