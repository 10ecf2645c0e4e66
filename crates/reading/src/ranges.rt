// Whether every range of a pattern is right (refusal 18).
ghost use Rattle.std.specs.Prelude.{◌≡◌, ◌≤◌, length};
ghost use Rattle.pattern.specs.Range.{right_range};
ghost use Rattle.pattern.specs.Ranged.{ranged};
ghost use Rattle.pattern.specs.Word.{form_of, own_words};
ghost use Rattle.reading.specs.Ranges.{Readable, right_front};

use pattern::token::{Word, classify, own_words};
use signature::decoded::LAST_LEVEL;

fn right_range(low: u16, high: u16) -> bool
    ensures { result ≡ right_range low high }
{
    if high < low {
        return false;
    }
    high <= LAST_LEVEL
}

// Whether the pattern that begins p, by its first word, is no range, or a right one.
fn right_front(w: Word, p: &[u16]) -> bool
    requires { own_words (form_of w) ≤ length p.now }
    ensures { result ≡ right_front (form_of w) p.now }
{
    match w {
        Word::Range => right_range(p[1], p[2]),
        _ => true,
    }
}

// From pattern to pattern, over the words that are each one's own.
pub fn ranged(p: &[u16]) -> bool
    requires { Readable p.now }
    ensures { (g : Readable p.now) → result ≡ ranged g.pattern }
{
    let mut at = 0;
    while at < p.len() {
        let w = classify(p[at]);
        if !right_front(w, &p[at..]) {
            return false;
        }
        at += own_words(w);
    }
    true
}
