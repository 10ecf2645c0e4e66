// One rule more: the checks of its pattern, and its rows behind those of the rules before it.
ghost use Rattle.std.specs.Prelude.{◌≡◌, ◌≤◌, length};
ghost use Rattle.table.specs.Limits.{limits};
ghost use Rattle.loading.specs.Add.{lists_room, has_room, GivenPlace, ListPlaced, GivenAdd, Stepped};

use admission::admit::admit;
use builder::build::{ROOM_UNIT, ROW_ROOM, build, words_room};
use cell::cell::CELL;
use pattern::limits::PATTERN_WORDS;
use store::layout::RULES;

// What the rules of a table may weigh in all.
pub const WEIGHT: u16 = 256;

// Room for the rows of all rules of a table, and of one pattern more: the words of a row for each of the weight, two for each rule, and what `build` asks.
pub const ROWS_ROOM: usize = WEIGHT as usize * (1 + CELL * PATTERN_WORDS)
    + 2 * RULES as usize
    + 1
    + ROW_ROOM;

// The smaller workspaces that a call tries first, enough for most tables: of the rows, and for patterns of at most 8 words.
pub const SMALL_ROWS: usize = 4096;

pub const SMALL_WORK: usize = ROOM_UNIT * 8 + 1;

// Why rows are not loaded: no sound table has the rules, or the slices are too small for them.
#[derive(Clone, Copy, PartialEq, Eq)]
pub enum LoadError {
    Unsound,
    NoRoom,
}

// Whether slices of so many words have room for a pattern of n words behind those that are used.
pub fn has_room(n: usize, used: usize, rows: usize, work: usize) -> bool
    requires { used ≤ lists_room limits.weight limits.rules }
    ensures { result ≡ has_room n used rows work }
{
    let room = words_room(n);
    if rows < used + 1 + room {
        return false;
    }
    if work < room {
        return false;
    }
    true
}

// The list of a pattern's rows, behind its number of words, from an index on; the index behind it.
pub fn place(t: &[u16], p: &[u16], used: usize, rows: &mut [u64], work: &mut [u64]) -> usize
    requires { GivenPlace t.now p.now used (length rows.old) (length work.old) }
    ensures { (g : GivenPlace t.now p.now used (length rows.old) (length work.old)) → ListPlaced g.known.sig g.p used result rows.old rows.new }
{
    let at = used + 1;
    let k = build(t, p, &mut rows[at..], work);
    rows[used] = (k + 1) as u64;
    at + k + 1
}

// The words used and the weight, with the rule.
pub(crate) fn add(
    t: &[u16],
    p: &[u16],
    used: usize,
    weight: u16,
    rows: &mut [u64],
    work: &mut [u64],
) -> Result<(usize, u16), LoadError>
    requires { GivenAdd t.now used weight rows.old }
    ensures { (g : GivenAdd t.now used weight rows.old) → Stepped g.known.sig g.wss p.now (length rows.old) (length work.old) result rows.new }
{
    if !has_room(p.len(), used, rows.len(), work.len()) {
        return Err(LoadError::NoRoom);
    }
    let Ok(w) = admit(t, p, &mut rows[used..], work) else {
        return Err(LoadError::Unsound);
    };
    let total = weight + w;
    if WEIGHT < total {
        return Err(LoadError::Unsound);
    }
    let end = place(t, p, used, rows, work);
    Ok((end, total))
}
