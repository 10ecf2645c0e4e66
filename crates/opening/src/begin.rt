// Refusals 1 and 2.
ghost use Rattle.std.specs.Prelude.{◌≡◌, length};
ghost use Rattle.signature.specs.Decoded.{decoded_length};
ghost use Rattle.signature.specs.Refusal.{number_in};
ghost use Rattle.opening.specs.Open.{BeginsAs};

use decoding::decode::decode;
use signature::refusals::Refusal;

// The signature decoded into t, or the refusal. `long` says that the lent table, and a lent witness buffer, are long enough.
pub fn begin(ss: &[u16], long: bool, t: &mut [u16]) -> Result<(), Refusal>
    requires { length t.old ≡ decoded_length }
    ensures { BeginsAs ss.now long (number_in result) t.new }
{
    if !decode(ss, t) {
        return Err(Refusal::SignatureUnlawful);
    }
    if !long {
        return Err(Refusal::TooShort);
    }
    Ok(())
}
