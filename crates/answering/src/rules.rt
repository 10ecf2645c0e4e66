// The rules of the text entered in order, then its booking decided.
ghost use Rattle.std.specs.Prelude.{◌≡◌, false, ◌≤◌, length, drop};
ghost use Rattle.signature.specs.Lists.{is_some};
ghost use Rattle.table.specs.Limits.{witness_length};
ghost use Rattle.entry.specs.Entry.{entry_answer};
ghost use Rattle.text.specs.Format.{after_key, key_rule};
ghost use Rattle.text.specs.Limits.{list_limit};
ghost use Rattle.text.specs.Print.{printed};
ghost use Rattle.printing.specs.Printed.{print_limit, Printed};
ghost use Rattle.answering.specs.Ready.{Ready};

use deciding::decide::decide;
use entering::enter::enter;
use entry::sound::Entry;
use lines::line;
use numbers::bytes;
use printing::print;
use signature::refusals::Refusal;

fn entry_number(e: Entry) -> u16
    ensures { result ≡ (entry_answer e).number }
{
    match e {
        Entry::Entered => 0,
        Entry::Refused(r) => u16::from(r),
        Entry::Shares(_rule, _length) => Refusal::Shared as u16,
    }
}

// book= stands at an index, and all rules are in: 13 or the answer is printed.
fn decide_booking(
    text: &[u8],
    at: usize,
    ss: &[u16],
    table: &[u16],
    space: &mut [u16],
    out: &mut [u8],
) -> usize
    requires { Ready text.now at ss.now table.now × (false ≡ is_some (after_key key_rule (drop at text.now))) × (list_limit ≤ length space.old) × (print_limit ≤ length out.old) }
    ensures { Printed (printed text.now) result out.old out.new }
{
    let Some(book) = line::list_line(&text[at..], b"book=", space) else {
        return print::refused(Refusal::FormatBroken as u16, out);
    };
    match decide(ss, table, &space[..book.count]) {
        Err(r) => print::refused(u16::from(r), out),
        Ok(a) => print::answer(a.rule, a.plan, &a.places, out),
    }
}

// Rules from an index on, in order; the first refusal is all that is printed. Then the booking.
pub fn enter_rules(
    text: &[u8],
    from: usize,
    ss: &[u16],
    table: &mut [u16],
    space: &mut [u16],
    witness: &mut [u16],
    out: &mut [u8],
) -> usize
    requires { Ready text.now from ss.now table.old × (list_limit ≤ length space.old) × (witness_length ≤ length witness.old) × (print_limit ≤ length out.old) }
    ensures { Printed (printed text.now) result out.old out.new }
{
    let mut at = from;
    while bytes::starts(&text[at..], b"rule=") {
        let Some(rule) = line::rule_lines(&text[at..], space) else {
            return print::refused(Refusal::FormatBroken as u16, out);
        };
        let pattern = &space[..rule.count];
        let e = enter(ss, rule.number, rule.plan, pattern, table, witness);
        let Entry::Entered = e else {
            return print::refused(entry_number(e), out);
        };
        at += rule.used;
    }
    decide_booking(text, at, ss, table, space, out)
}
