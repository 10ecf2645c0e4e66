// The reads of a decoded signature. The table's words: a row for each constructor, a row for each kind, the two counts.
ghost use Rattle.std.specs.Prelude.{◌≡◌, ◌<◌, length};
ghost use Rattle.signature.specs.Limits.{argument_limit, constructor_limit, kind_limit, level_base};
ghost use Rattle.signature.specs.Decoded.{decoded_length, kind_of, arity_of, head_arity, argument_of, first_of, count_of, least_head_of, kinds_of, constructors_of};

pub const STRIDE: usize = 6;

pub const KIND_STRIDE: usize = 4;

pub const KINDS_AT: usize = 1536;

pub const COUNTS_AT: usize = 1664;

pub const DECODED: usize = 1666;

// What stands for the kind of a row that declares a number kind.
pub const UNKINDED: u16 = 32;

// 02, job 1: the values of a number kind are the words from LEVEL_BASE to LEVEL_BASE + LAST_LEVEL.
pub const LEVEL_BASE: u16 = 1000;

pub const LAST_LEVEL: u16 = 100;

pub const LEVELS: u16 = LAST_LEVEL + 1;

// A word as an index.
pub fn wide(x: u16) -> usize
    ensures { result ≡ x }
{
    x as usize
}

pub fn kind_of(t: &[u16], c: usize) -> u16
    requires { (length t.now ≡ decoded_length) × (c < constructor_limit) }
    ensures { result ≡ kind_of t.now c }
{
    t[STRIDE * c]
}

pub fn arity_of(t: &[u16], c: usize) -> u16
    requires { (length t.now ≡ decoded_length) × (c < constructor_limit) }
    ensures { result ≡ arity_of t.now c }
{
    t[STRIDE * c + 1]
}

// How many arguments a head of a booking or a row has: a level has none.
pub fn head_arity(t: &[u16], c: u16) -> u16
    requires { (length t.now ≡ decoded_length) × (c < level_base → c < constructor_limit) }
    ensures { result ≡ head_arity t.now c }
{
    if c >= LEVEL_BASE {
        return 0;
    }
    arity_of(t, c as usize)
}

pub fn argument_of(t: &[u16], c: usize, j: usize) -> u16
    requires { (length t.now ≡ decoded_length) × (c < constructor_limit) × (j < argument_limit) }
    ensures { result ≡ argument_of t.now c j }
{
    t[STRIDE * c + 2 + j]
}

pub fn first_of(t: &[u16], k: usize) -> u16
    requires { (length t.now ≡ decoded_length) × (k < kind_limit) }
    ensures { result ≡ first_of t.now k }
{
    t[KINDS_AT + KIND_STRIDE * k]
}

pub fn count_of(t: &[u16], k: usize) -> u16
    requires { (length t.now ≡ decoded_length) × (k < kind_limit) }
    ensures { result ≡ count_of t.now k }
{
    t[KINDS_AT + KIND_STRIDE * k + 1]
}

pub fn least_head_of(t: &[u16], k: usize) -> u16
    requires { (length t.now ≡ decoded_length) × (k < kind_limit) }
    ensures { result ≡ least_head_of t.now k }
{
    t[KINDS_AT + KIND_STRIDE * k + 2]
}

pub fn kinds_of(t: &[u16]) -> u16
    requires { length t.now ≡ decoded_length }
    ensures { result ≡ kinds_of t.now }
{
    t[COUNTS_AT]
}

pub fn constructors_of(t: &[u16]) -> u16
    requires { length t.now ≡ decoded_length }
    ensures { result ≡ constructors_of t.now }
{
    t[COUNTS_AT + 1]
}
