// The number that the check of the words so far gives.
ghost use Rattle.std.specs.Prelude.{◌≡◌, length};
ghost use Rattle.signature.specs.Refusal.{number_in};
ghost use Rattle.stepping.specs.State.{state_words, end_number};

use crate::state;
use crate::state::{NUMBER, OPENED, READ, STATE};
use signature::refusals::Refusal;

fn number(st: &[u16]) -> Result<(), Refusal>
    requires { length st.now ≡ state_words }
    ensures { number_in result ≡ end_number st.now }
{
    let q = st[NUMBER];
    if q != 0 {
        return state::refusal(q);
    }
    if st[READ] == 0 {
        return Err(Refusal::BookingUnlawful);
    }
    if st[OPENED] != 0 {
        return Err(Refusal::BookingUnlawful);
    }
    Ok(())
}

pub fn end(st: &[u16; STATE]) -> Result<(), Refusal>
    ensures { number_in result ≡ end_number st.now }
{
    number(st)
}
