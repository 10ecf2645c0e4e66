// The bindings: variable and place, variables rising, a space between.
ghost use Rattle.std.specs.Prelude.{◌+◌, ◌≤◌, ltb, length};
ghost use Rattle.pattern.specs.Limits.{variable_count};
ghost use Rattle.printing.specs.Pairs.{space, piece, pairs_bytes};
ghost use Rattle.printing.specs.Put.{Put};

use crate::put;
use pattern::limits::UNBOUND;

// A space where something stands between the two indexes.
fn put_space(out: &mut [u8], from: usize, at: usize) -> usize
    requires { at + length (space (ltb from at)) ≤ length out.old }
    ensures { Put (space (ltb from at)) at result out.old out.new }
{
    if from < at {
        return put::put(out, at, b" ");
    }
    at
}

// The pair of a variable that is bound, behind those that stand from an index on.
fn put_pair(out: &mut [u8], from: usize, at: usize, variable: u16, place: u16) -> usize
    requires { at + length (piece (ltb from at) variable place) ≤ length out.old }
    ensures { Put (piece (ltb from at) variable place) at result out.old out.new }
{
    if place == UNBOUND {
        return at;
    }
    let a = put_space(out, from, at);
    let b = put::put_number(out, a, variable);
    let d = put::put(out, b, b":");
    put::put_number(out, d, place)
}

pub fn put_pairs(out: &mut [u8], from: usize, places: &[u16]) -> usize
    requires { (length places.now ≤ variable_count) × (from + length (pairs_bytes places.now) ≤ length out.old) }
    ensures { Put (pairs_bytes places.now) from result out.old out.new }
{
    let mut at = from;
    for (x, place) in places.iter().enumerate() {
        at = put_pair(out, from, at, x as u16, *place);
    }
    at
}
