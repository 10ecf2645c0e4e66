// Bytes up to a separator, and fixed byte strings against a line's first bytes.
ghost use Rattle.std.specs.Prelude.{◌≡◌};
ghost use Rattle.signature.specs.Lists.{is_some};
ghost use Rattle.text.specs.Format.{after_key};
ghost use Rattle.numbers.specs.Bytes.{bytes_before};

pub const NEWLINE: u8 = 10;

pub const SPACE: u8 = 32;

// How many bytes stand before the first c; all of them where there is none.
pub fn span(s: &[u8], c: u8) -> usize
    ensures { result ≡ bytes_before c s.now }
{
    s.iter().position(|b| *b == c).unwrap_or(s.len())
}

// Whether the bytes begin with the key.
pub fn starts(s: &[u8], key: &[u8]) -> bool
    ensures { result ≡ is_some (after_key key.now s.now) }
{
    s.starts_with(key)
}
