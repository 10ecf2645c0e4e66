// A run of a tree over a booking, with refusals 1, 13 and 15.
#![tactic(auto)]

pub mod leaf;
pub mod promises;

ghost use Rattle.std.specs.Prelude.{◌≡◌, [], ◌≤◌, length};
ghost use Rattle.signature.specs.Decoded.{Known};
ghost use Rattle.signature.specs.Read.{read_booking};
ghost use Rattle.signature.specs.Refusal.{number_in};
ghost use Rattle.signature.specs.Value.{vcons, vnil};
ghost use Rattle.tree.specs.Run.{run as run_of};
ghost use Rattle.tree.specs.RunCall.{run_at, run_booking, RunCall};
ghost use Rattle.run.specs.Outcome.{outcome, ran_answer};
ghost use Rattle.run.specs.Parts.{Booked, short_booking};

use booking::walk;
use booking::walk::BOOKING_LIMIT;
use decoding::decode;
use nodes::node;
use nodes::node::Step;
use pattern::limits::VARIABLES;
use signature::decoded;
use signature::refusals::Refusal;

// The words of a short booking.
const SHORT: usize = 64;

// The answer of a run: the rule, its plan, and a place for each variable.
#[derive(Clone, Copy)]
pub struct Answer {
    pub rule: u16,
    pub plan: u16,
    pub places: [u16; VARIABLES],
}

// The tree from its node on, and the booking from its current place on. A visit takes a word at least, so there are never too many.
fn walk_in(table: &[u16], tree: &[u16], book: &[u16], visits: &mut [u16]) -> Result<Answer, Refusal>
    requires { Booked table.now book.now × (length book.now ≤ length visits.old) }
    ensures { (k : Booked table.now book.now) → outcome result ≡ run_at (run_of (length tree.now) k.known.sig tree.now 0 (vcons k.value vnil) 0 []) }
{
    let mut n = 0;
    let mut t = tree;
    let mut node = 0;
    let mut b = book;
    let mut place = 0;
    loop {
        let s = node::at_node(table, t, node, b);
        match s {
            Step::Broken => {
                return Err(Refusal::TreeBroken);
            }
            Step::Default { plan: p } => {
                return Ok(leaf::no_rule(p));
            }
            Step::Hit => {
                return leaf::hit(t, &visits[..n]);
            }
            Step::On { tree: d, book: m } => {
                visits[n] = place as u16;
                n += 1;
                t = &t[d..];
                node += d;
                b = &b[m..];
                place += m;
            }
        }
    }
}

// Under a signature that is decoded already, with room for the visits of the booking: refusals 13 and 15.
pub fn run_decoded(
    t: &[u16],
    tree: &[u16],
    b: &[u16],
    visits: &mut [u16],
) -> Result<Answer, Refusal>
    requires { Known t.now × (length b.now ≤ length visits.old) }
    ensures { (g : Known t.now) → outcome result ≡ run_booking g.sig tree.now (read_booking g.sig b.now) }
{
    if !walk::lawful(t, b) {
        return Err(Refusal::BookingUnlawful);
    }
    walk_in(t, tree, b, visits)
}

// With an array for the visits of a short booking, which takes less time to clear.
fn run_short(t: &[u16], tree: &[u16], b: &[u16]) -> Result<Answer, Refusal>
    requires { Known t.now × (length b.now ≤ short_booking) }
    ensures { (g : Known t.now) → outcome result ≡ run_booking g.sig tree.now (read_booking g.sig b.now) }
{
    let mut visits = [0u16; SHORT];
    run_decoded(t, tree, b, &mut visits)
}

// With one for the visits of every lawful booking, which is cleared only for a lawful one.
fn run_long(t: &[u16], tree: &[u16], b: &[u16]) -> Result<Answer, Refusal>
    requires { Known t.now }
    ensures { (g : Known t.now) → outcome result ≡ run_booking g.sig tree.now (read_booking g.sig b.now) }
{
    if !walk::lawful(t, b) {
        return Err(Refusal::BookingUnlawful);
    }
    let mut visits = [0u16; BOOKING_LIMIT];
    walk_in(t, tree, b, &mut visits)
}

pub fn run(ss: &[u16], tree: &[u16], b: &[u16]) -> Result<Answer, Refusal>
    ensures { RunCall ss.now tree.now b.now (number_in result) (ran_answer result) }
{
    let mut t = [0u16; decoded::DECODED];
    if !decode::decode(ss, &mut t) {
        return Err(Refusal::SignatureUnlawful);
    }
    if b.len() <= SHORT {
        return run_short(&t, tree, b);
    }
    run_long(&t, tree, b)
}
