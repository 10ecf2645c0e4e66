// Where a pattern ends.
ghost use Rattle.std.specs.Prelude.{◌≡◌, length};
ghost use Rattle.pattern.specs.Given.{Opens};
ghost use Rattle.pattern.specs.Pattern.{pattern_code};

use pattern::token::{classify, own_words, parts};

// How many words the pattern takes that begins p.
pub fn span(t: &[u16], p: &[u16]) -> usize
    requires { Opens t.now p.now }
    ensures { (o : Opens t.now p.now) → result ≡ length (pattern_code o.pattern) }
{
    let mut left: usize = 1;
    let mut at = 0;
    while left > 0 {
        let w = classify(p[at]);
        left = left - 1 + parts(t, w) as usize;
        at += own_words(w);
    }
    at
}
