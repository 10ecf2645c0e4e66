// One word more. The words of a state may be any: what a step makes of them is defined for all.
ghost use Rattle.std.specs.Prelude.{◌≡◌, ◌≤◌, length};
ghost use Rattle.signature.specs.Lists.{is_some};
ghost use Rattle.signature.specs.Refusal.{number_in};
ghost use Rattle.stepping.specs.State.{state_words, signature_limit, head_in, step_in, moved, step_state, refusal_in};
ghost use Rattle.stepping.specs.Standing.{row_as, HeadAs};

use crate::state;
use crate::state::{BOOKING_UNLAWFUL, HEADS, NUMBER, OPENED, READ, ROWS, STATE};
use booking::walk;
use booking::walk::{BOOKING_LIMIT, OPEN};
use decoding::decode::{ARGUMENT_LIMIT, CONSTRUCTOR_LIMIT, KIND_LIMIT};
use signature::decoded::{LEVEL_BASE, STRIDE, wide};
use signature::refusals::Refusal;

// A lawful signature has no more words.
const SIGNATURE_LIMIT: usize = 1 + CONSTRUCTOR_LIMIT * STRIDE;

// Of a head: where the kinds of its arguments begin in the signature's words, how many they are, and how deep they may be nested.
#[derive(Clone, Copy)]
struct Head {
    place: u16,
    count: u16,
    deep: u16,
}

// Whether w is a head of kind k.
fn is_head_of(st: &[u16], k: u16, w: u16) -> bool
    requires { length st.now ≡ state_words }
    ensures { result ≡ head_in st.now k w }
{
    let j = wide(k);
    if KIND_LIMIT <= j {
        return false;
    }
    walk::is_head(st[HEADS + 2 * j], st[HEADS + 2 * j + 1], w)
}

// Where the kinds of a head's arguments begin in the signature's words, and how many they are.
fn row_of(ss: &[u16], st: &[u16], w: u16) -> Option<(u16, u16)>
    requires { (length st.now ≡ state_words) × (length ss.now ≤ signature_limit) }
    ensures { result ≡ row_as ss.now st.now w }
{
    if LEVEL_BASE <= w {
        return Some((0, 0));
    }
    let c = wide(w);
    if CONSTRUCTOR_LIMIT <= c {
        return None;
    }
    let r = st[ROWS + c];
    let at = wide(r);
    if ss.len() <= at {
        return None;
    }
    if ss.len() - at < 2 {
        return None;
    }
    let count = ss[at + 1];
    if ARGUMENT_LIMIT < count {
        return None;
    }
    Some((r + 2, count))
}

// The head w, if it may stand after so many words, where the open values begin at a place.
fn head_at(ss: &[u16], st: &[u16], at: usize, read: usize, w: u16) -> Option<Head>
    requires { (length st.now ≡ state_words) × (length ss.now ≤ signature_limit) }
    ensures { HeadAs result ss.now st.now at read w }
{
    let (k, deep) = walk::next(ss, st, at, read)?;
    if deep == 0 {
        return None;
    }
    if !is_head_of(st, k, w) {
        return None;
    }
    let (place, count) = row_of(ss, st, w)?;
    Some(Head {
        place,
        count,
        deep: deep - 1,
    })
}

// The state with one word more, if the word may stand there.
fn take(ss: &[u16], st: &mut [u16], w: u16) -> bool
    requires { length st.old ≡ state_words }
    ensures moved { st.new ≡ moved st.old (step_in ss.now st.old w) }
    ensures told { result ≡ is_some (step_in ss.now st.old w) }
{
    let count = st[READ];
    let read = wide(count);
    let opened = wide(st[OPENED]);
    if SIGNATURE_LIMIT < ss.len() {
        return false;
    }
    if BOOKING_LIMIT <= read {
        return false;
    }
    if OPEN - 2 < opened {
        return false;
    }
    let at = STATE - opened;
    let Some(head) = head_at(ss, st, at, read, w) else {
        return false;
    };
    let to = walk::advance(st, at, read, head.place, head.count, head.deep);
    st[READ] = count + 1;
    st[OPENED] = (STATE - to) as u16;
    true
}

fn step_any(ss: &[u16], st: &mut [u16], w: u16) -> Result<(), Refusal>
    requires { length st.old ≡ state_words }
    ensures { (st.new ≡ step_state ss.now st.old w) × (number_in result ≡ refusal_in (step_state ss.now st.old w)) }
{
    let q = st[NUMBER];
    if q != 0 {
        return state::refusal(q);
    }
    if take(ss, st, w) {
        return Ok(());
    }
    st[NUMBER] = BOOKING_UNLAWFUL;
    Err(Refusal::BookingUnlawful)
}

pub fn step(ss: &[u16], st: &mut [u16; STATE], w: u16) -> Result<(), Refusal>
    ensures { (st.new ≡ step_state ss.now st.old w) × (number_in result ≡ refusal_in (step_state ss.now st.old w)) }
{
    step_any(ss, st, w)
}
