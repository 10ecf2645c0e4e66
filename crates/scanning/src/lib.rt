// The log in a text: one line log=, in the format of 01 (17).
#![tactic(auto)]

ghost use Rattle.std.specs.Prelude.{◌≡◌, ◌≤◌, length};
ghost use Rattle.numbers.specs.Lists.{count_of, Filled};
ghost use Rattle.day_log.specs.Format.{read_log};
ghost use Rattle.scanning.specs.Room.{log_room};

use format::whole::TEXT_LIMIT;
use lines::line::end_of;
use numbers::list;

// As many numbers as a text has room for: behind log= and before the newline, a digit each and a space between.
pub const LOG_ROOM: usize = (TEXT_LIMIT - 5 + 1) / 2;

// How many numbers; None where the text breaks the format. They stand first in out, the rest is untouched; of a broken text, out has any words.
pub fn scan(text: &[u8], out: &mut [u16]) -> Option<usize>
    requires { log_room ≤ length out.old }
    ensures { (result ≡ count_of (read_log text.now)) × Filled (read_log text.now) out.old out.new }
{
    if TEXT_LIMIT < text.len() {
        return None;
    }
    let key = b"log=";
    let end = end_of(text, key);
    if end + 1 != text.len() {
        return None;
    }
    let line = &text[..end];
    let k = key.len();
    let rest = &line[k..];
    if rest.len() == 0 {
        return Some(0);
    }
    list::list(rest, LOG_ROOM, out)
}
