// The whole text: its format, its signature, its rules, its booking.
ghost use Rattle.std.specs.Prelude.{◌≡◌, ◌≤◌, length};
ghost use Rattle.signature.specs.Decoded.{decoded_length};
ghost use Rattle.table.specs.Limits.{limits, table_length, witness_length};
ghost use Rattle.text.specs.Limits.{list_limit};
ghost use Rattle.text.specs.Print.{printed};
ghost use Rattle.printing.specs.Printed.{print_limit, Printed};

use crate::rules::enter_rules;
use decoding::decode::decode;
use emptying::empty::empty;
use entering::enter::WITNESS;
use format::whole::keeps_format;
use lines::line::{LIST_LIMIT, list_line};
use printing::print;
use printing::print::PRINT_LIMIT;
use signature::decoded::DECODED;
use signature::refusals::Refusal;
use store::layout::TABLE;

// The program over lent workspaces.
fn answer_in(
    text: &[u8],
    words: &mut [u16],
    decoded: &mut [u16],
    table: &mut [u16],
    space: &mut [u16],
    witness: &mut [u16],
    out: &mut [u8],
) -> usize
    requires { (list_limit ≤ length words.old) × (length decoded.old ≡ decoded_length) × (table_length limits ≤ length table.old) × (list_limit ≤ length space.old) × (witness_length ≤ length witness.old) × (print_limit ≤ length out.old) }
    ensures { Printed (printed text.now) result out.old out.new }
{
    if !keeps_format(text) {
        return print::refused(Refusal::FormatBroken as u16, out);
    }
    let Some(sig) = list_line(text, b"sig=", words) else {
        return print::refused(Refusal::FormatBroken as u16, out);
    };
    let ss = &words[..sig.count];
    if !decode(ss, decoded) {
        return print::refused(Refusal::SignatureUnlawful as u16, out);
    }
    let _ = empty(table); // long enough, so never refused
    enter_rules(text, sig.used, ss, table, space, witness, out)
}

// What is printed stands first in out, the rest is untouched; how many bytes.
pub fn answer(text: &[u8], out: &mut [u8; PRINT_LIMIT]) -> usize
    ensures { Printed (printed text.now) result out.old out.new }
{
    let mut words = [0u16; LIST_LIMIT];
    let mut decoded = [0u16; DECODED];
    let mut table = [0u16; TABLE];
    let mut space = [0u16; LIST_LIMIT];
    let mut witness = [0u16; WITNESS];
    answer_in(
        text,
        &mut words,
        &mut decoded,
        &mut table,
        &mut space,
        &mut witness,
        out,
    )
}
