// The booking check as one walk over the words. All that it keeps between two words is the values still open: they
// stand at the end of a lent slice, the innermost in front, and take two words each. The check of a whole booking and
// the steps that a host takes have `next`, `is_head` and `advance` in common; they differ in the words in which they
// find the rows of the signature.
ghost use Rattle.std.specs.Prelude.{◌≡◌, ◌+◌, ◌<◌, ◌≤◌, length, drop};
ghost use Rattle.signature.specs.Decoded.{Known, Starts, kinds_of};
ghost use Rattle.signature.specs.Limits.{depth_limit};
ghost use Rattle.signature.specs.Lists.{is_some};
ghost use Rattle.signature.specs.Read.{read_booking};
ghost use Rattle.signature.specs.Signature.{arguments_at};
ghost use Rattle.signature.specs.Value.{size};
ghost use Rattle.booking.specs.Walk.{open_limit, Nested, Waiting, among, next, rest, opened, laid, step_by, decoded_view, next_as, still_open, Inside};

use signature::decoded;

pub const BOOKING_LIMIT: usize = 4096;

pub const DEPTH_LIMIT: u16 = 256;

// The stride of rows in the decoded table.
const ROW: u16 = decoded::STRIDE as u16;

// Two words at each depth.
pub const OPEN: usize = 2 * DEPTH_LIMIT as usize;

// The value due after count words, if one is: its kind, and how deep it may be nested.
pub fn next(rows: &[u16], words: &[u16], at: usize, count: usize) -> Option<(u16, u16)>
    ensures { result ≡ next_as (next rows.now count (drop at words.now)) }
{
    if count == 0 {
        return Some((0, DEPTH_LIMIT));
    }
    if words.len() <= at {
        return None;
    }
    if words.len() - at < 2 {
        return None;
    }
    let p = decoded::wide(words[at]);
    let x = words[at + 1];
    if x < DEPTH_LIMIT {
        return None;
    }
    if rows.len() <= p {
        return None;
    }
    Some((rows[p], x % DEPTH_LIMIT))
}

// Whether w is one of so many heads from the first on.
pub fn is_head(first: u16, count: u16, w: u16) -> bool
    ensures { result ≡ among first count w }
{
    if w < first {
        return false;
    }
    w - first < count
}

// The value due next is read: one argument less of the innermost open value.
fn read_one(words: &mut [u16], at: usize, read: usize) -> usize
    requires { (at ≤ length words.old) × Waiting read at words.old }
    ensures left { words.new ≡ laid words.old (rest read (drop at words.old)) }
    ensures place { result + length (rest read (drop at words.old)) ≡ length words.old }
{
    if read == 0 {
        return words.len();
    }
    let x = words[at + 1];
    if x / DEPTH_LIMIT <= 1 {
        return at + 2;
    }
    let p = words[at];
    words[at] = p + 1;
    words[at + 1] = x - DEPTH_LIMIT;
    at
}

// The arguments of a head become due, m of them, whose kinds stand from p on.
fn open(words: &mut [u16], at: usize, p: u16, m: u16, deep: u16) -> usize
    requires { (2 ≤ at) × (at ≤ length words.old) × (m < depth_limit) × (deep < depth_limit) }
    ensures left { words.new ≡ laid words.old (opened p m deep (drop at words.old)) }
    ensures place { result + length (opened p m deep (drop at words.old)) ≡ length words.old }
{
    if m == 0 {
        return at;
    }
    words[at - 2] = p;
    words[at - 1] = DEPTH_LIMIT * m + deep;
    at - 2
}

// The value due next is read, and the arguments of its head become due.
pub fn advance(words: &mut [u16], at: usize, read: usize, p: u16, m: u16, deep: u16) -> usize
    requires in_bounds { (2 ≤ length words.old) × (at ≤ length words.old) × (0 < read → 2 ≤ at) × Waiting read at words.old }
    requires m_lt_depth_limit { (m < depth_limit) × (deep < depth_limit) }
    ensures left { words.new ≡ laid words.old (opened p m deep (rest read (drop at words.old))) }
    ensures place { result + length (opened p m deep (rest read (drop at words.old))) ≡ length words.old }
{
    let behind = read_one(words, at, read);
    open(words, behind, p, m, deep)
}

// Whether a word may stand where a value of kind k is due.
fn may_stand(t: &[u16], k: u16, w: u16) -> bool
    requires { Known t.now × (k < kinds_of t.now) }
    ensures { (g : Known t.now) → result ≡ is_some (arguments_at g.sig k w) }
{
    is_head(
        decoded::first_of(t, k as usize),
        decoded::count_of(t, k as usize),
        w,
    )
}

// One word of a booking. From where on the values stand that are open after it, if it may stand there.
fn step(t: &[u16], words: &mut [u16], at: usize, read: usize, w: u16) -> Option<usize>
    requires known { Known t.now }
    requires words_len { (length words.old ≡ open_limit) × (at ≤ open_limit) × Nested t.now (kinds_of t.now) (drop at words.old) }
    ensures within { Inside result }
    ensures walked { (g : Known t.now) → still_open result words.new ≡ step_by (decoded_view g.sig t.now) read (drop at words.old) w }
{
    let (k, deep) = next(t, words, at, read)?;
    if deep == 0 {
        return None;
    }
    if !may_stand(t, k, w) {
        return None;
    }
    Some(advance(
        words,
        at,
        read,
        ROW * w + 2,
        decoded::head_arity(t, w),
        deep - 1,
    ))
}

// A lawful booking of the signature whose table is t.
pub fn lawful(t: &[u16], b: &[u16]) -> bool
    requires { Known t.now }
    ensures { (g : Known t.now) → result ≡ is_some (read_booking g.sig b.now) }
{
    if b.len() == 0 {
        return false;
    }
    if BOOKING_LIMIT < b.len() {
        return false;
    }
    let mut words = [0u16; OPEN];
    let mut at = OPEN;
    for (i, w) in b.iter().enumerate() {
        let Some(n) = step(t, &mut words, at, i, *w) else {
            return false;
        };
        at = n;
    }
    at == OPEN
}

// How many words the value takes that begins b.
pub fn span(t: &[u16], b: &[u16]) -> usize
    requires { Starts t.now b.now }
    ensures { (s : Starts t.now b.now) → result ≡ size s.value }
{
    let mut left: usize = 1;
    let mut at = 0;
    while left > 0 {
        left = left - 1 + decoded::head_arity(t, b[at]) as usize;
        at += 1;
    }
    at
}
