// Whether words are a pattern of kind 0 (refusal 7).
ghost use Rattle.std.specs.Prelude.{◌≡◌, ℕ, ◌≤◌, ◌<◌, length};
ghost use Rattle.signature.specs.Decoded.{decoded_length, kinds_of, Known};
ghost use Rattle.signature.specs.Limits.{kind_limit};
ghost use Rattle.signature.specs.Lists.{is_some};
ghost use Rattle.reading.specs.End.{end_of, may_begin};
ghost use Rattle.pattern.specs.Read.{read_one, read_pattern};
ghost use Rattle.pattern.specs.Word.{form_of, head_small};

use pattern::limits::PATTERN_WORDS;
use pattern::token::{Word, classify, own_words, part_kind, parts};
use signature::decoded::{LEVEL_BASE, constructors_of, first_of, kind_of};

// Whether a word can begin a pattern of kind `k`.
fn may_begin(t: &[u16], w: Word, k: u16) -> bool
    requires { (length t.now ≡ decoded_length) × head_small (form_of w) × (k < kind_limit) }
    ensures { result ≡ may_begin t.now (form_of w) k }
{
    match w {
        Word::Head(c) => {
            if c < constructors_of(t) {
                return kind_of(t, c as usize) == k;
            }
            false
        }
        Word::Range => first_of(t, k as usize) == LEVEL_BASE,
        Word::Other => false,
        _ => true,
    }
}

// How many words the pattern of kind `k` takes that begins `p`, if one does.
fn read_one(t: &[u16], p: &[u16], k: u16) -> Option<usize>
    requires { Known t.now × (k < kinds_of t.now) }
    ensures { (g : Known t.now) (d : ℕ) → length p.now ≤ d → result ≡ end_of p.now (read_one g.sig d k p.now) }
{
    if p.len() == 0 {
        return None;
    }
    let w = classify(p[0]);
    if !may_begin(t, w, k) {
        return None;
    }
    let n = parts(t, w) as usize;
    let mut at = own_words(w);
    if p.len() < at {
        return None;
    }
    for j in 0..n {
        let m = read_one(t, &p[at..], part_kind(t, w, k, j))?;
        at += m;
    }
    Some(at)
}

pub fn well_formed(t: &[u16], p: &[u16]) -> bool
    requires { Known t.now }
    ensures { (g : Known t.now) → result ≡ is_some (read_pattern g.sig p.now) }
{
    if PATTERN_WORDS < p.len() {
        return false;
    }
    read_one(t, p, 0) == Some(p.len())
}
