// The format over the whole text, checked before all else: refusal 17.
ghost use Rattle.std.specs.Prelude.{◌≡◌, ◌≤◌, length};
ghost use Rattle.signature.specs.Lists.{is_some};
ghost use Rattle.text.specs.Format.{read_text};
ghost use Rattle.text.specs.Limits.{list_limit};
ghost use Rattle.lines.specs.Lines.{rest_text};

use lines::line;
use lines::line::LIST_LIMIT;
use numbers::bytes;

pub const TEXT_LIMIT: usize = 32768;

// Rules and booking behind the signature, to the end; w is space for numbers.
fn rest_keeps(rest: &[u8], w: &mut [u16]) -> bool
    requires { list_limit ≤ length w.old }
    ensures { result ≡ is_some (rest_text rest.now) }
{
    let mut t = rest;
    while bytes::starts(t, b"rule=") {
        let Some(rule) = line::rule_lines(t, w) else {
            return false;
        };
        t = &t[rule.used..];
    }
    let Some(book) = line::list_line(t, b"book=", w) else {
        return false;
    };
    book.used == t.len()
}

pub fn keeps_format(text: &[u8]) -> bool
    ensures { result ≡ is_some (read_text text.now) }
{
    if TEXT_LIMIT < text.len() {
        return false;
    }
    let mut w = [0u16; LIST_LIMIT];
    let Some(sig) = line::list_line(text, b"sig=", &mut w) else {
        return false;
    };
    rest_keeps(&text[sig.used..], &mut w)
}
