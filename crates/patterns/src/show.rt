// A line for a pattern.
ghost use Rattle.signature.specs.Decoded.{Known};

use matching::places::places;
use matching::takes::takes;
use shown::print;
use std::io;

// The refusal of a pattern by itself: 7, 18, 8, 9, or 0 for none.
fn refusal(t: &[u16], p: &[u16]) -> usize
    requires { Known t.now }
{
    if !reading::read::well_formed(t, p) {
        return 7;
    }
    if !reading::ranges::ranged(p) {
        return 18;
    }
    if !linearity::linear::linear(t, p) {
        return 8;
    }
    if weighing::weight::weigh(t, p).is_none() {
        return 9;
    }
    0
}

// Whether the pattern takes the booking.
fn answer(rt: &impl Print, t: &[u16], p: &[u16], b: &[u16]) -> io::Result<()>
    requires { Known t.now }
{
    if !reading::read::well_formed(t, p) {
        return Ok(());
    }
    if !booking::walk::lawful(t, b) {
        return Ok(());
    }
    if !takes(t, p, b) {
        return print::text(rt, b" no");
    }
    print::text(rt, b" yes")?;
    let out = places(t, p, b);
    print::bindings(rt, &out)
}

// Against three bookings.
pub fn line(
    rt: &impl Print,
    t: &[u16],
    p: &[u16],
    first: &[u16],
    second: &[u16],
    third: &[u16],
) -> io::Result<()>
    requires { Known t.now }
{
    let n = refusal(t, p);
    print::number(rt, n)?;
    if n == 0 {
        answer(rt, t, p, first)?;
        answer(rt, t, p, second)?;
        answer(rt, t, p, third)?;
    }
    print::end(rt)
}
