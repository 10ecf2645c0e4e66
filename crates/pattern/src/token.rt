// What a word of a pattern is, and how many patterns follow it.
ghost use Rattle.std.specs.Prelude.{◌≡◌, ◌<◌, length};
ghost use Rattle.signature.specs.Decoded.{decoded_length};
ghost use Rattle.signature.specs.Limits.{argument_limit};
ghost use Rattle.pattern.specs.Linearity.{side_of, behind};
ghost use Rattle.pattern.specs.Read.{form};
ghost use Rattle.pattern.specs.Word.{form_of, own_words, part_count, kind_behind, head_small};

pub const LAST_HEAD: u16 = 255;

pub const FIRST_VARIABLE: u16 = 261;

pub const LAST_VARIABLE: u16 = 276;

pub const RANGE: u16 = 280;

#[derive(Clone, Copy)]
pub enum Word {
    Head(u16),
    And,
    Or,
    Wild,
    Absurd,
    Not,
    Var(u16),
    Range,
    Other,
}

pub fn classify(w: u16) -> Word
    ensures { form_of result ≡ form w }
{
    match w {
        0..=LAST_HEAD => Word::Head(w),
        256 => Word::And,
        257 => Word::Or,
        258 => Word::Wild,
        259 => Word::Absurd,
        260 => Word::Not,
        FIRST_VARIABLE..=LAST_VARIABLE => Word::Var(w - FIRST_VARIABLE),
        RANGE => Word::Range,
        _ => Word::Other,
    }
}

// How many patterns follow a word, by the table of a signature.
pub fn parts(t: &[u16], w: Word) -> u16
    requires { (length t.now ≡ decoded_length) × head_small (form_of w) }
    ensures { result ≡ part_count t.now (form_of w) }
{
    match w {
        Word::Head(c) => signature::decoded::arity_of(t, c as usize),
        Word::And | Word::Or => 2,
        Word::Not => 1,
        _ => 0,
    }
}

// The kind of the `j`-th pattern behind a word that begins a pattern of kind `k`.
pub fn part_kind(t: &[u16], w: Word, k: u16, j: usize) -> u16
    requires { (length t.now ≡ decoded_length) × head_small (form_of w) × (j < argument_limit) }
    ensures { result ≡ kind_behind t.now (form_of w) k j }
{
    match w {
        Word::Head(c) => signature::decoded::argument_of(t, c as usize, j),
        _ => k,
    }
}

// A pattern's own words before its parts: a range has its ends among them.
pub fn own_words(w: Word) -> usize
    ensures { result ≡ own_words (form_of w) }
{
    match w {
        Word::Range => 3,
        _ => 1,
    }
}

// The side of the parts behind a word.
pub fn side_behind(w: Word, plus: bool) -> bool
    ensures { side_of result ≡ behind (form_of w) (side_of plus) }
{
    match w {
        Word::Not => !plus,
        _ => plus,
    }
}
