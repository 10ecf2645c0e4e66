// The report of a log, as bytes in a lent space.
#![tactic(auto)]

ghost use Rattle.std.specs.Prelude.{◌+◌, ◌≤◌, length};
ghost use Rattle.day_log.specs.Limits.{rule_numbers};
ghost use Rattle.printing.specs.Printed.{Printed};
ghost use Rattle.printing.specs.Put.{Put};
ghost use Rattle.reporting.specs.Reported.{lines_from, rule_bytes, report_of};

use printing::print::put_line;
use printing::put;

// The line of a rule that is in the log.
fn put_rule(out: &mut [u8], at: usize, rule: u16, count: u16) -> usize
    requires { at + length (rule_bytes rule count) ≤ length out.old }
    ensures { Put (rule_bytes rule count) at result out.old out.new }
{
    if count == 0 {
        return at;
    }
    let a = put::put(out, at, b"rule=");
    let b = put::put_number(out, a, rule);
    put_line(out, b, b" count=", count)
}

// A line for each rule that has a count, rising.
fn put_rules(out: &mut [u8], counts: &[u16]) -> usize
    requires { (length counts.now ≤ rule_numbers) × (length (lines_from 0 counts.now) ≤ length out.old) }
    ensures { Put (lines_from 0 counts.now) 0 result out.old out.new }
{
    let mut at = 0;
    for (n, count) in counts.iter().enumerate() {
        at = put_rule(out, at, n as u16, *count);
    }
    at
}

// The counts by rule number, then the total; how many bytes.
pub fn report(counts: &[u16], total: u16, out: &mut [u8]) -> usize
    requires { (length counts.now ≤ rule_numbers) × (length (report_of counts.now total) ≤ length out.old) }
    ensures { Printed (report_of counts.now total) result out.old out.new }
{
    let at = put_rules(out, counts);
    put_line(out, at, b"total=", total)
}
