// 02, job 5: the day's tally as one function from bytes to bytes.
#![tactic(auto)]

ghost use Rattle.std.specs.Prelude.{◌≤◌, length};
ghost use Rattle.printing.specs.Printed.{Printed};
ghost use Rattle.day_log.specs.Limits.{report_limit};
ghost use Rattle.day_log.specs.Report.{tally_printed};
ghost use Rattle.scanning.specs.Room.{log_room};

use counting::{LOG_LIMIT, RULE_NUMBERS, tally};
use printing::print;
use reporting::report;
use scanning::{LOG_ROOM, scan};
use signature::refusals::Refusal;

// No report has more bytes: 13 for each rule beside its digits, 2,890 digits of the rules, a digit of each count and one more for
// nine entries more, and the total.
pub const REPORT_LIMIT: usize = RULE_NUMBERS * 13
    + 2890
    + RULE_NUMBERS
    + (LOG_LIMIT - RULE_NUMBERS) / 9
    + 11;

// The program over lent workspaces.
fn tally_in(text: &[u8], words: &mut [u16], out: &mut [u8]) -> usize
    requires { (log_room ≤ length words.old) × (report_limit ≤ length out.old) }
    ensures { Printed (tally_printed text.now) result out.old out.new }
{
    let Some(n) = scan(text, words) else {
        return print::refused(u16::from(Refusal::FormatBroken), out);
    };
    match tally(&words[..n]) {
        Ok(t) => report(&t.counts, t.total, out),
        Err(r) => print::refused(u16::from(r), out),
    }
}

// What is printed stands first in out, the rest is untouched; how many bytes.
pub fn tally_text(text: &[u8], out: &mut [u8; REPORT_LIMIT]) -> usize
    ensures { Printed (tally_printed text.now) result out.old out.new }
{
    let mut words = [0u16; LOG_ROOM];
    tally_in(text, &mut words, out)
}
