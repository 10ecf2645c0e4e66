// A line at the front of the bytes: its key, its numbers, and how many bytes it takes with its newline.
ghost use Rattle.std.specs.Prelude.{◌≡◌, ◌≤◌, length};
ghost use Rattle.text.specs.Limits.{list_limit};
ghost use Rattle.lines.specs.Lines.{line_end, number_line, list_line, rule_lines};
ghost use Rattle.lines.specs.Answers.{word_line_of, count_line_of, rule_of, LineFilled, RuleFilled};

use numbers::bytes::NEWLINE;
use numbers::{bytes, list, number};

pub const LIST_LIMIT: usize = 4096;

#[derive(Clone, Copy)]
pub struct WordLine {
    pub word: u16,
    pub used: usize,
}

#[derive(Clone, Copy)]
pub struct CountLine {
    pub count: usize,
    pub used: usize,
}

// The lines of a rule: the pattern's words stand in the lent space.
#[derive(Clone, Copy)]
pub struct RuleLines {
    pub number: u16,
    pub plan: u16,
    pub count: usize,
    pub used: usize,
}

// Where the first line ends, if it begins with the key; else how many bytes there are.
pub fn end_of(t: &[u8], key: &[u8]) -> usize
    ensures { result ≡ line_end key.now t.now }
{
    let e = bytes::span(t, NEWLINE);
    if e == t.len() {
        return e;
    }
    if bytes::starts(&t[..e], key) {
        return e;
    }
    t.len()
}

fn number_line(t: &[u8], key: &[u8]) -> Option<WordLine>
    ensures { result ≡ word_line_of (number_line key.now t.now) }
{
    let e = end_of(t, key);
    if e == t.len() {
        return None;
    }
    let l = &t[..e];
    let k = key.len();
    let word = number::number(&l[k..])?;
    Some(WordLine { word, used: e + 1 })
}

// None where the line is broken. The numbers stand first in out, the rest is untouched; of a broken line, out has any words.
pub fn list_line(t: &[u8], key: &[u8], out: &mut [u16]) -> Option<CountLine>
    requires { list_limit ≤ length out.old }
    ensures { (result ≡ count_line_of (list_line key.now t.now)) × LineFilled (list_line key.now t.now) out.old out.new }
{
    let end = end_of(t, key);
    if end == t.len() {
        return None;
    }
    let l = &t[..end];
    let k = key.len();
    let count = list::list(&l[k..], LIST_LIMIT, out)?;
    Some(CountLine {
        count,
        used: end + 1,
    })
}

// The lines rule=, plan= and pat=; the pattern stands first in out as a list does.
pub fn rule_lines(t: &[u8], out: &mut [u16]) -> Option<RuleLines>
    requires { list_limit ≤ length out.old }
    ensures { (result ≡ rule_of (rule_lines t.now)) × RuleFilled (rule_lines t.now) out.old out.new }
{
    let rule = number_line(t, b"rule=")?;
    let second = &t[rule.used..];
    let plan = number_line(second, b"plan=")?;
    let third = &second[plan.used..];
    let pattern = list_line(third, b"pat=", out)?;
    Some(RuleLines {
        number: rule.word,
        plan: plan.word,
        count: pattern.count,
        used: rule.used + plan.used + pattern.used,
    })
}
