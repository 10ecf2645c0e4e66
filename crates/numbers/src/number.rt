// A number in decimal.
ghost use Rattle.std.specs.Prelude.{◌≡◌, ◌≤◌, length};
ghost use Rattle.text.specs.Format.{leading_zero, number as number_of};
ghost use Rattle.text.specs.Limits.{digit_limit};
ghost use Rattle.numbers.specs.Bytes.{worth_of, word_of};

pub const DIGIT_LIMIT: usize = 5;

pub const FIRST_DIGIT: u8 = 48;

fn zero_leads(s: &[u8]) -> bool
    ensures { result ≡ leading_zero s.now }
{
    1 < s.len() && s[0] == FIRST_DIGIT
}

// What the digits are worth; None where one is no digit.
fn worth(s: &[u8]) -> Option<u32>
    requires { length s.now ≤ digit_limit }
    ensures { result ≡ worth_of s.now }
{
    let mut v = 0;
    for b in s {
        if !b.is_ascii_digit() {
            return None;
        }
        v = 10 * v + (*b - FIRST_DIGIT) as u32;
    }
    Some(v)
}

pub fn number(s: &[u8]) -> Option<u16>
    ensures { result ≡ word_of (number_of s.now) }
{
    if s.is_empty() || DIGIT_LIMIT < s.len() || zero_leads(s) {
        return None;
    }
    u16::try_from(worth(s)?).ok()
}
