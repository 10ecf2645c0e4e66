// The words of the state between two steps.
ghost use Rattle.std.specs.Prelude.{◌≡◌};
ghost use Rattle.signature.specs.Refusal.{number_in};
ghost use Rattle.stepping.specs.State.{refusal_of};

use booking::walk;
use decoding::decode::{CONSTRUCTOR_LIMIT, KIND_LIMIT};
use signature::refusals::Refusal;

// The refusal that no later word mends, as its number; 0 where there is none.
pub const NUMBER: usize = 0;

pub const SIGNATURE_UNLAWFUL: u16 = Refusal::SignatureUnlawful as u16;

pub const BOOKING_UNLAWFUL: u16 = Refusal::BookingUnlawful as u16;

// How many words were read.
pub const READ: usize = 1;

// How many words of open values there are.
pub const OPENED: usize = 2;

// Of each kind its first head and how many they are.
pub const HEADS: usize = 3;

// Of each constructor where its row begins in the signature's words.
pub const ROWS: usize = HEADS + 2 * KIND_LIMIT;

// The open values.
pub const VALUES: usize = ROWS + CONSTRUCTOR_LIMIT;

pub const STATE: usize = VALUES + walk::OPEN;

// By a state's first word: 1 or 13 where no later word mends it. A word that no step writes counts as 13.
pub fn refusal(q: u16) -> Result<(), Refusal>
    ensures { number_in result ≡ refusal_of q }
{
    if q == 0 {
        return Ok(());
    }
    if q == SIGNATURE_UNLAWFUL {
        return Err(Refusal::SignatureUnlawful);
    }
    Err(Refusal::BookingUnlawful)
}
