// Checking and decoding a signature.
ghost use Rattle.std.specs.Prelude.{◌≡◌, true, ◌&&◌, ℕ, suc, ◌+◌, ◌*◌, ◌≤◌, ◌<◌, leb, length, get_or, drop, replicate, IfNone, IfSome};
ghost use Rattle.std.proofs.Math.Option.{none, some};
ghost use Rattle.signature.specs.Limits.{constructor_limit, kind_limit, over_small, row_limit, small_size};
ghost use Rattle.signature.specs.Lists.{all, count_up, is_some};
ghost use Rattle.signature.specs.Read.{read_signature, total};
ghost use Rattle.signature.specs.Signature.{Signature};
ghost use Rattle.signature.specs.Decoded.{Decoded, decoded_length, kind_of, first_of, count_of};
ghost use Rattle.decoding.specs.Decoding.{words_from, declares_number, row, rows, argument_count, flag_by, alone_by, plain, mark_of, Marked, Copied, Highest, RowRead, next_kinds, HeadNoted, Reading, Barred, Unlawful, read_constructor, RowFit, Fit, Sizes, size_by, KindFit, SizeLowered, SizesLowered, Greatest, Spanned, lowest_in, LeastNoted, KindsNoted};

use signature::decoded::{
    COUNTS_AT, KIND_STRIDE, KINDS_AT, LEVEL_BASE, LEVELS, STRIDE, UNKINDED, argument_of, arity_of,
    count_of, first_of, kind_of, wide,
};

pub const CONSTRUCTOR_LIMIT: usize = 256;

pub const ARGUMENT_LIMIT: u16 = 4;

pub const KIND_LIMIT: usize = 32;

pub const ROW_LIMIT: u16 = 64;

// The second word of a row that declares a number kind.
pub const NUMBER_COUNT: u16 = ARGUMENT_LIMIT + 1;

pub const SMALL_SIZE: u16 = 6;

// What stands for the size of a kind that has no value of at most 6 words.
pub const OVER_SMALL: u16 = 7;

// What reading has come to: the place of the next row, the number of kinds, the highest argument kind, and how many rows declare number kinds.
#[derive(Clone, Copy)]
struct Read {
    place: usize,
    kinds: usize,
    most: u16,
    numbers: usize,
}

// How many words a row has, and the highest argument kind so far.
#[derive(Clone, Copy)]
struct Row {
    words: usize,
    most: u16,
}

// The highest of these words and most. With that a copy of so few words is no call.
fn copy_words(w: &[u16], from: usize, t: &mut [u16], to: usize, count: usize, most: u16) -> u16
    requires { (from + count ≤ length w.now) × (to + count ≤ length t.old) }
    ensures { Copied w.now from t.old to count t.new × Highest most (words_from w.now from count) result }
{
    let mut highest = most;
    for i in 0..count {
        let word = w[from + i];
        t[to + i] = word;
        highest = highest.max(word);
    }
    highest
}

// By a row's second word: how many argument kinds follow.
fn argument_count(count: u16) -> u16
    ensures { result ≡ argument_count count }
{
    if count == NUMBER_COUNT {
        return 0;
    }
    count
}

// By a row's second word: whether it declares a number kind, which stands in the place of the first argument until the table is whole.
fn flag_by(count: u16) -> u16
    ensures { result ≡ flag_by count }
{
    if count != NUMBER_COUNT {
        return 0;
    }
    1
}

// Reads the constructor at a place into row c, if there is one.
fn read_row(w: &[u16], place: usize, t: &mut [u16], c: usize, most: u16) -> Option<Row>
    requires { (place ≤ length w.now) × (length t.old ≡ decoded_length) × (c < constructor_limit) }
    ensures long { length t.new ≡ length t.old }
    ensures none { IfNone result (read_constructor (drop place w.now) ≡ none) }
    ensures some { IfSome result (λ r. RowRead w.now place t.old c t.new r.words × Highest most (row t.new c).args r.most) }
{
    let left = w.len() - place;
    if left < 2 {
        return None;
    }
    let row = STRIDE * c;
    let count = w[place + 1];
    if count == 0 {
        t[row] = w[place];
        t[row + 1] = 0;
        t[row + 2] = 0;
        return Some(Row { words: 2, most });
    }
    if count > NUMBER_COUNT {
        return None;
    }
    let few = argument_count(count);
    let arity = wide(few);
    if left - 2 < arity {
        return None;
    }
    t[row] = w[place];
    t[row + 1] = few;
    t[row + 2] = flag_by(count);
    let highest = copy_words(w, place + 2, t, row + 2, arity, most);
    Some(Row {
        words: arity + 2,
        most: highest,
    })
}

// The number of kinds once a constructor of that kind follows, if it may.
fn next_kinds(kind: u16, kinds: usize) -> Option<usize>
    ensures { result ≡ next_kinds kind kinds }
{
    let k = wide(kind);
    if k + 1 == kinds {
        return Some(kinds);
    }
    if k != kinds {
        return None;
    }
    if kinds < KIND_LIMIT {
        return Some(kinds + 1);
    }
    None
}

// Counts constructor c to kind k, a new one if it is the next.
fn note_head(t: &mut [u16], k: usize, c: usize, kinds: usize)
    requires { (length t.old ≡ decoded_length) × (k < kind_limit) × (c < constructor_limit) × ((k ≡ kinds → ⊥) → first_of t.old k + count_of t.old k ≡ c) }
    ensures { HeadNoted t.old k c kinds t.new }
{
    let row = KINDS_AT + KIND_STRIDE * k;
    if k == kinds {
        t[row] = c as u16;
        t[row + 1] = 1;
        return;
    }
    t[row + 1] = c as u16 + 1 - t[row];
}

// Reads row c and counts it to its kind, if there is such a row, and it is lawful there.
fn read_next(w: &[u16], t: &mut [u16], c: usize, s: Read) -> Option<Read>
    requires { Reading w.now t.old c s.place s.kinds s.most s.numbers × (c < constructor_limit) }
    ensures long { length t.new ≡ decoded_length }
    ensures none { IfNone result (Barred w.now c) }
    ensures some { IfSome result (λ r. Reading w.now t.new (c + 1) r.place r.kinds r.most r.numbers) }
{
    let place = s.place;
    let row = read_row(w, place, t, c, s.most)?;
    let kind = w[place];
    let kinds = next_kinds(kind, s.kinds)?;
    note_head(t, wide(kind), c, s.kinds);
    let number = wide(flag_by(w[place + 1]));
    Some(Read {
        place: place + row.words,
        kinds,
        most: row.most,
        numbers: s.numbers + number,
    })
}

// Reads n constructors behind the first word, if they are exactly the words there, and their kinds are lawful.
fn read_rows(w: &[u16], t: &mut [u16], n: usize) -> Option<Read>
    requires { (1 ≤ length w.now) × (length t.old ≡ decoded_length) × (1 ≤ n) × (n ≤ constructor_limit) }
    ensures long { length t.new ≡ decoded_length }
    ensures none { IfNone result (Unlawful w.now n) }
    ensures some { IfSome result (λ r. Reading w.now t.new n (length w.now) r.kinds r.most r.numbers) }
{
    let mut s = Read {
        place: 1,
        kinds: 0,
        most: 0,
        numbers: 0,
    };
    for c in 0..n {
        s = read_next(w, t, c, s)?;
    }
    if s.place == w.len() {
        return Some(s);
    }
    None
}

// No kind has more than 64 rows.
fn few_rows(t: &[u16], kinds: usize) -> bool
    requires { (length t.now ≡ decoded_length) × (kinds ≤ kind_limit) }
    ensures { result ≡ all (λ k. leb (count_of t.now k) row_limit) (count_up 0 kinds) }
{
    for k in 0..kinds {
        if count_of(t, k) > ROW_LIMIT {
            return false;
        }
    }
    true
}

// Whether row c declares a number kind.
fn declares_number(t: &[u16], c: usize) -> bool
    requires { (length t.now ≡ decoded_length) × (c < constructor_limit) }
    ensures { result ≡ declares_number t.now c }
{
    if arity_of(t, c) > 0 {
        return false;
    }
    argument_of(t, c, 0) == 1
}

// Whether row c stands alone in its kind, if it declares a number kind.
fn stands_alone(t: &[u16], c: usize) -> bool
    requires { (length t.now ≡ decoded_length) × (c < constructor_limit) × (kind_of t.now c < kind_limit) }
    ensures { result ≡ alone_by t.now (row t.now c) }
{
    if !declares_number(t, c) {
        return true;
    }
    count_of(t, wide(kind_of(t, c))) == 1
}

// Whether each row stands alone, if it declares a number kind; so many do.
fn numbers_alone(t: &[u16], n: usize, numbers: usize) -> bool
    requires { (length t.now ≡ decoded_length) × (n ≤ constructor_limit) × ((c : ℕ) → c < n → kind_of t.now c < kind_limit) × (numbers ≡ 0 → plain (rows t.now 0 n) ≡ true) }
    ensures { result ≡ all (alone_by t.now) (rows t.now 0 n) }
{
    if numbers == 0 {
        return true;
    }
    for c in 0..n {
        if !stands_alone(t, c) {
            return false;
        }
    }
    true
}

// The words of a smallest value of constructor c, by the kinds' sizes.
fn words_of(t: &[u16], c: usize, sizes: &[u16; KIND_LIMIT]) -> u16
    requires { (length t.now ≡ decoded_length) × (c < constructor_limit) × RowFit t.now c × Sizes sizes.now }
    ensures { result ≡ suc (total sizes.now (row t.now c).args) }
{
    let arity = wide(arity_of(t, c));
    let mut sum: u16 = 1;
    for j in 0..arity {
        let k = wide(argument_of(t, c, j));
        sum += sizes[k];
    }
    sum
}

// The size of kind k, by the kinds' sizes. No value has less than one word.
fn size_by(t: &[u16], k: usize, sizes: &[u16; KIND_LIMIT]) -> u16
    requires { (length t.now ≡ decoded_length) × (k < kind_limit) × KindFit t.now k × Sizes sizes.now }
    ensures { result ≡ size_by t.now sizes.now k }
{
    let first = wide(first_of(t, k));
    let end = first + wide(count_of(t, k));
    let mut size = OVER_SMALL;
    for c in first..end {
        size = words_of(t, c, sizes).min(size);
        if size == 1 {
            return 1;
        }
    }
    size
}

// Lowers the size of kind k to what the sizes say. How many sizes that were.
fn lower_size(t: &[u16], k: usize, sizes: &mut [u16; KIND_LIMIT]) -> usize
    requires { (length t.now ≡ decoded_length) × (k < kind_limit) × KindFit t.now k × Sizes sizes.old }
    ensures { SizeLowered t.now k sizes.old sizes.new result }
{
    let old = sizes[k];
    if old <= 1 {
        return 0;
    }
    let size = size_by(t, k, sizes);
    if old <= size {
        return 0;
    }
    sizes[k] = size;
    1
}

// The same for every kind, the last one first: arguments are mostly of later kinds.
fn lower_sizes(t: &[u16], kinds: usize, sizes: &mut [u16; KIND_LIMIT]) -> usize
    requires { (length t.now ≡ decoded_length) × (kinds ≤ kind_limit) × ((k : ℕ) → k < kinds → KindFit t.now k) × Sizes sizes.old }
    ensures { SizesLowered t.now kinds 0 sizes.old sizes.new result }
{
    let mut lowered = 0;
    for k in (0..kinds).rev() {
        lowered += lower_size(t, k, sizes);
    }
    lowered
}

// Lowered until they are settled, the sizes are those that six rounds over all kinds find.
fn least_sizes(t: &[u16], kinds: usize, sizes: &mut [u16; KIND_LIMIT])
    requires { (length t.now ≡ decoded_length) × (kinds ≤ kind_limit) × ((k : ℕ) → k < kinds → KindFit t.now k) × (sizes.old ≡ replicate kind_limit over_small) }
    ensures { Greatest t.now kinds sizes.new }
{
    loop {
        let lowered = lower_sizes(t, kinds, sizes);
        if lowered == 0 {
            return;
        }
    }
}

// The lowest row of kind k that reaches its size.
fn lowest_head(t: &[u16], k: usize, sizes: &[u16; KIND_LIMIT]) -> u16
    requires { (length t.now ≡ decoded_length) × (k < kind_limit) × KindFit t.now k × Sizes sizes.now }
    ensures { result ≡ lowest_in t.now sizes.now k }
{
    let first = wide(first_of(t, k));
    let end = first + wide(count_of(t, k));
    for c in first..end {
        if words_of(t, c, sizes) == sizes[k] {
            return c as u16;
        }
    }
    0
}

fn lowest_heads(t: &[u16], kinds: usize, sizes: &[u16; KIND_LIMIT], heads: &mut [u16; KIND_LIMIT])
    requires { (length t.now ≡ decoded_length) × (kinds ≤ kind_limit) × ((k : ℕ) → k < kinds → KindFit t.now k) × Sizes sizes.now × (length heads.old ≡ kind_limit) }
    ensures { (k : ℕ) → k < kinds → get_or heads.new k 0 ≡ lowest_in t.now sizes.now k }
{
    for k in 0..kinds {
        heads[k] = lowest_head(t, k, sizes);
    }
}

fn note_least(t: &mut [u16], kinds: usize, heads: &[u16; KIND_LIMIT], sizes: &[u16; KIND_LIMIT])
    requires { (length t.old ≡ decoded_length) × (kinds ≤ kind_limit) }
    ensures { LeastNoted t.old kinds heads.now sizes.now t.new }
{
    for k in 0..kinds {
        let row = KINDS_AT + KIND_STRIDE * k;
        t[row + 2] = heads[k];
        t[row + 3] = sizes[k];
    }
}

// Every kind has a value of at most 6 words.
fn all_small(sizes: &[u16; KIND_LIMIT], kinds: usize) -> bool
    requires { kinds ≤ kind_limit }
    ensures { result ≡ all (λ k. leb (get_or sizes.now k 0) small_size) (count_up 0 kinds) }
{
    for k in 0..kinds {
        if sizes[k] > SMALL_SIZE {
            return false;
        }
    }
    true
}

// Notes the kinds' least values and the counts. Whether every kind has a value of at most 6 words.
fn note_kinds(t: &mut [u16], n: usize, kinds: usize) -> bool
    requires { Spanned t.old n kinds }
    ensures { KindsNoted t.old n kinds t.new result }
{
    let mut sizes = [OVER_SMALL; KIND_LIMIT];
    least_sizes(t, kinds, &mut sizes);
    let mut heads = [0u16; KIND_LIMIT];
    lowest_heads(t, kinds, &sizes, &mut heads);
    note_least(t, kinds, &heads, &sizes);
    t[COUNTS_AT] = kinds as u16;
    t[COUNTS_AT + 1] = n as u16;
    all_small(&sizes, kinds)
}

// If row c declares a number kind, its own number is no head, and the kind's are the levels.
fn mark(t: &mut [u16], c: usize)
    requires { (length t.old ≡ decoded_length) × (c < constructor_limit) × (kind_of t.old c < kind_limit) }
    ensures { t.new ≡ mark_of t.old c }
{
    if !declares_number(t, c) {
        return;
    }
    let k = wide(kind_of(t, c));
    let row = KINDS_AT + KIND_STRIDE * k;
    t[STRIDE * c] = UNKINDED;
    t[row] = LEVEL_BASE;
    t[row + 1] = LEVELS;
    t[row + 2] = LEVEL_BASE;
}

// The same for every row; so many declare number kinds.
fn mark_numbers(t: &mut [u16], n: usize, numbers: usize)
    requires { Fit t.old n × (numbers ≡ 0 → plain (rows t.old 0 n) ≡ true) }
    ensures { Marked t.old n t.new }
{
    if numbers == 0 {
        return;
    }
    for c in 0..n {
        mark(t, c);
    }
}

// Whether the words are a lawful signature; then t is its table.
pub fn decode(w: &[u16], t: &mut [u16]) -> bool
    requires { length t.old ≡ decoded_length }
    ensures answer { result ≡ is_some (read_signature w.now) }
    ensures table { (sig : Signature) → read_signature w.now ≡ some sig → Decoded sig t.new }
{
    if w.len() == 0 {
        return false;
    }
    let n = wide(w[0]);
    if n == 0 {
        return false;
    }
    if n > CONSTRUCTOR_LIMIT {
        return false;
    }
    let Some(s) = read_rows(w, t, n) else {
        return false;
    };
    let kinds = s.kinds;
    if !few_rows(t, kinds) {
        return false;
    }
    if wide(s.most) >= kinds {
        return false;
    }
    if !numbers_alone(t, n, s.numbers) {
        return false;
    }
    let small = note_kinds(t, n, kinds);
    mark_numbers(t, n, s.numbers);
    small
}
