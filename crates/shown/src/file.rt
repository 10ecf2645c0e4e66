// The bytes of a file, and words of 16 bits in it, the lower byte first.
ghost use Rattle.std.specs.Prelude.{◌≡◌, ◌+◌, ◌*◌, ◌^◌, ◌≤◌, length, IfSome, IfNone, IfOk, OnErr};
ghost use Rattle.std.specs.Io.{ReadsAtMost};

use std::io::Read;
use std::rt::Files;
use std::{fs, io};

const BYTES: usize = 196608;

fn words(bytes: &[u8], out: &mut [u16]) -> usize
    ensures { result ≤ length out.new }
{
    let n = out.len().min(bytes.len() / 2);
    for i in 0..n {
        out[i] = u16::from_le_bytes([bytes[2 * i], bytes[2 * i + 1]]);
    }
    n
}

// Reads until the room is full or nothing is left; how many bytes there are.
pub fn read_full(from: &mut impl Read, out: &mut [u8]) -> io::Result<usize>
    ensures within { ReadsAtMost result out.new }
    ensures err { OnErr result (length out.new ≡ length out.old) }
{
    let mut done = 0;
    while done < out.len() {
        let n = from.read(&mut out[done..])?;
        if n == 0 {
            return Ok(done);
        }
        done += n;
    }
    Ok(done)
}

fn none(rt: &impl Print) -> io::Result<usize>
    ensures { IfOk result (λ n. n ≡ 0) }
{
    rt.write_all(b"no file\n")?;
    Ok(0)
}

// How many bytes there are; of a file that cannot be opened none, and a line says so.
pub fn read(rt: &(impl Files + Print), name: &[u8], out: &mut [u8]) -> io::Result<usize>
    ensures within { ReadsAtMost result out.new }
    ensures err { OnErr result (length out.new ≡ length out.old) }
{
    let Ok(path) = str::from_utf8(name) else {
        return none(rt);
    };
    let Ok(mut file) = fs::open(rt, path) else {
        return none(rt);
    };
    read_full(&mut file, out)
}

// Where a byte of a text stands: between numbers, in one that is worth so much so far, or behind a #.
#[derive(Clone, Copy)]
enum Place {
    Between,
    Number(u16),
    Comment,
}

// A number with a digit more; None where it is no word.
fn more(n: u16, digit: u16) -> Option<u16>
    ensures some { IfSome result (λ w. w ≡ 10 * n + digit) }
    ensures none { IfNone result (2 ^ 16 ≤ 10 * n + digit) }
{
    n.checked_mul(10)?.checked_add(digit)
}

fn next(at: Place, b: u8) -> Place {
    match (at, b) {
        (_, b'\n') => Place::Between,
        (Place::Comment, _) => Place::Comment,
        (_, b'#') => Place::Comment,
        (Place::Number(n), b'0'..=b'9') => {
            more(n, (b - b'0') as u16).map_or(Place::Between, Place::Number)
        }
        (Place::Between, b'0'..=b'9') => Place::Number((b - b'0') as u16),
        _ => Place::Between,
    }
}

// The number that ends between two places, if any, behind n words: how many there are then.
fn put(out: &mut [u16], n: usize, last: Place, at: Place) -> usize
    requires { n ≤ length out.old }
    ensures { result ≤ length out.new }
{
    match (last, at) {
        (Place::Number(_), Place::Number(_)) => n,
        (Place::Number(w), _) if n < out.len() => {
            out[n] = w;
            n + 1
        }
        _ => n,
    }
}

// The numbers of a text; what stands behind a # is passed over to the end of its line.
fn numbers(text: &[u8], out: &mut [u16]) -> usize
    ensures { result ≤ length out.new }
{
    let mut n = 0;
    let mut last = Place::Between;
    for b in text {
        let at = next(last, *b);
        n = put(out, n, last, at);
        last = at;
    }
    n
}

// The words of a file: numbers of a text, or two bytes each.
pub fn read_words(
    rt: &(impl Files + Print),
    name: &[u8],
    text: bool,
    out: &mut [u16],
) -> io::Result<usize>
    ensures within { ReadsAtMost result out.new }
    ensures err { OnErr result (length out.new ≡ length out.old) }
{
    let mut bytes = [0u8; BYTES];
    let n = read(rt, name, &mut bytes)?;
    if text {
        return Ok(numbers(&bytes[..n], out));
    }
    Ok(words(&bytes[..n], out))
}

pub fn size(x: u16) -> usize
    ensures { result ≤ 65535 }
{
    x as usize
}
