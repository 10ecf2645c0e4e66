// The state before the first word.
ghost use Rattle.std.specs.Prelude.{◌≡◌, length, replicate};
ghost use Rattle.signature.specs.Decoded.{Known};
ghost use Rattle.signature.specs.Refusal.{number_in};
ghost use Rattle.stepping.specs.State.{state_words, begin_state, refusal_in};
ghost use Rattle.stepping.specs.Begun.{HeadsNoted, RowsNoted};

use crate::state::{HEADS, NUMBER, ROWS, SIGNATURE_UNLAWFUL, STATE};
use decoding::decode;
use signature::decoded;
use signature::refusals::Refusal;

fn clear(st: &mut [u16])
    requires { length st.old ≡ state_words }
    ensures { st.new ≡ replicate state_words 0 }
{
    st.fill(0);
}

fn note_heads(t: &[u16], st: &mut [u16])
    requires { Known t.now × (length st.old ≡ state_words) }
    ensures { (g : Known t.now) → HeadsNoted g.sig st.old st.new }
{
    let n = decoded::kinds_of(t) as usize;
    for k in 0..n {
        st[HEADS + 2 * k] = decoded::first_of(t, k);
        st[HEADS + 2 * k + 1] = decoded::count_of(t, k);
    }
}

fn note_rows(t: &[u16], st: &mut [u16])
    requires { Known t.now × (length st.old ≡ state_words) }
    ensures { (g : Known t.now) → RowsNoted g.sig st.old st.new }
{
    let n = decoded::constructors_of(t) as usize;
    let mut at = 1u16;
    for c in 0..n {
        st[ROWS + c] = at;
        at += 2 + decoded::arity_of(t, c);
    }
}

fn write(ss: &[u16], st: &mut [u16]) -> Result<(), Refusal>
    requires { length st.old ≡ state_words }
    ensures { (st.new ≡ begin_state ss.now) × (number_in result ≡ refusal_in (begin_state ss.now)) }
{
    clear(st);
    let mut t = [0u16; decoded::DECODED];
    if !decode::decode(ss, &mut t) {
        st[NUMBER] = SIGNATURE_UNLAWFUL;
        return Err(Refusal::SignatureUnlawful);
    }
    note_heads(&t, st);
    note_rows(&t, st);
    Ok(())
}

pub fn begin(ss: &[u16], st: &mut [u16; STATE]) -> Result<(), Refusal>
    ensures { (st.new ≡ begin_state ss.now) × (number_in result ≡ refusal_in (begin_state ss.now)) }
{
    write(ss, st)
}
