// The part of a booking that begins at a place, and the number of its refusal: 1, 13 and 16, in this order.
ghost use Rattle.std.specs.Prelude.{◌≡◌};
ghost use Rattle.signature.specs.Part.{part_call};
ghost use Rattle.booking.specs.Found.{FoundAs};

use crate::walk;
use decoding::decode;
use signature::refusals::Refusal;
use signature::{decoded, refusals};

// The length of the part that begins at a place.
fn find(ss: &[u16], b: &[u16], place: usize) -> Result<usize, Refusal>
    ensures { FoundAs ss.now b.now place result }
{
    let mut t = [0u16; decoded::DECODED];
    if !decode::decode(ss, &mut t) {
        return Err(Refusal::SignatureUnlawful);
    }
    if !walk::lawful(&t, b) {
        return Err(Refusal::BookingUnlawful);
    }
    if b.len() <= place {
        return Err(Refusal::PlaceOutside);
    }
    Ok(walk::span(&t, &b[place..]))
}

pub fn part<'a>(ss: &[u16], b: &'a [u16], place: usize) -> &'a [u16]
    ensures { result.now ≡ (part_call ss.now b.now place).1 }
{
    let Ok(n) = find(ss, b, place) else {
        return &b[0..0];
    };
    let e = place + n;
    &b[place..e]
}

pub fn part_number(ss: &[u16], b: &[u16], place: usize) -> u16
    ensures { result ≡ (part_call ss.now b.now place).0 }
{
    refusals::number(&find(ss, b, place))
}
