// Bytes and numbers put into a lent space from an index on; each function gives the index behind them.
ghost use Rattle.std.specs.Prelude.{◌+◌, ◌≤◌, length};
ghost use Rattle.printing.specs.Put.{Put, in_decimal};

use numbers::number::FIRST_DIGIT;

pub fn put(out: &mut [u8], at: usize, s: &[u8]) -> usize
    requires { at + length s.now ≤ length out.old }
    ensures { Put s.now at result out.old out.new }
{
    let end = at + s.len();
    out[at..end].copy_from_slice(s);
    end
}

// The number in decimal, its first digits first.
pub fn put_number(out: &mut [u8], at: usize, n: u16) -> usize
    requires { at + length (in_decimal n) ≤ length out.old }
    ensures { Put (in_decimal n) at result out.old out.new }
{
    if n < 10 {
        out[at] = FIRST_DIGIT + n as u8;
        return at + 1;
    }
    let last = put_number(out, at, n / 10);
    out[last] = FIRST_DIGIT + (n % 10) as u8;
    last + 1
}
