// The lines that the text program prints, first in a lent space; how many bytes.
ghost use Rattle.std.specs.Prelude.{◌+◌, ◌≤◌, length};
ghost use Rattle.pattern.specs.Limits.{variable_count};
ghost use Rattle.text.specs.Print.{print_refused};
ghost use Rattle.printing.specs.Printed.{print_limit, number_line, answer_bytes, Printed};
ghost use Rattle.printing.specs.Put.{Put};

use crate::{pairs, put};

// Two lines of a number, bind= with 16 pairs, and its newline.
pub const PRINT_LIMIT: usize = 220;

// A line of a key and a number.
pub fn put_line(out: &mut [u8], at: usize, key: &[u8], n: u16) -> usize
    requires { at + length (number_line key.now n) ≤ length out.old }
    ensures { Put (number_line key.now n) at result out.old out.new }
{
    let a = put::put(out, at, key);
    let b = put::put_number(out, a, n);
    put::put(out, b, b"\n")
}

pub fn refused(n: u16, out: &mut [u8]) -> usize
    requires { print_limit ≤ length out.old }
    ensures { Printed (print_refused n) result out.old out.new }
{
    put_line(out, 0, b"refused=", n)
}

pub fn answer(rule: u16, plan: u16, places: &[u16], out: &mut [u8]) -> usize
    requires { (length places.now ≤ variable_count) × (print_limit ≤ length out.old) }
    ensures { Printed (answer_bytes rule plan places.now) result out.old out.new }
{
    let a = put_line(out, 0, b"rule=", rule);
    let b = put_line(out, a, b"plan=", plan);
    let d = put::put(out, b, b"bind=");
    let e = pairs::put_pairs(out, d, places);
    put::put(out, e, b"\n")
}
