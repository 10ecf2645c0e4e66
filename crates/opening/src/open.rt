// Refusals 1 to 3 of a call that needs no rows.
ghost use Rattle.std.specs.Prelude.{◌≡◌, ◌≤◌, length};
ghost use Rattle.signature.specs.Decoded.{decoded_length};
ghost use Rattle.signature.specs.Lists.{is_some};
ghost use Rattle.signature.specs.Refusal.{number_in};
ghost use Rattle.table.specs.Limits.{limits};
ghost use Rattle.table.specs.Sound.{sound};
ghost use Rattle.builder.specs.Build.{row_room};
ghost use Rattle.loading.specs.Add.{rows_room};
ghost use Rattle.loading.specs.Load.{GivenLoad};
ghost use Rattle.opening.specs.Open.{OpenedAs, SoundAs};

use crate::begin::begin;
use crate::load::load_in;
use builder::build::ROW_ROOM;
use loading::add::{LoadError, ROWS_ROOM, SMALL_ROWS, SMALL_WORK};
use signature::refusals::Refusal;
use store::layout::TABLE;

// Whether a table is sound; None where arrays of so many words are too small to tell.
#[inline(never)]
fn is_sound_in<const ROWS: usize, const WORK: usize>(t: &[u16], table: &[u16]) -> Option<bool>
    requires { GivenLoad t.now table.now × (ROWS ≤ rows_room) × (WORK ≤ row_room) }
    ensures { (g : GivenLoad t.now table.now) → SoundAs ROWS WORK g.known.sig table.now result }
{
    let mut rows = [0u64; ROWS];
    match load_in::<WORK>(t, table, &mut rows) {
        Ok(_) => Some(true),
        Err(LoadError::Unsound) => Some(false),
        Err(LoadError::NoRoom) => None,
    }
}

// Whether a table is sound. The arrays of one size are gone before those of the other come.
fn is_sound(t: &[u16], table: &[u16]) -> bool
    requires { GivenLoad t.now table.now }
    ensures { (g : GivenLoad t.now table.now) → result ≡ is_some (sound limits g.known.sig table.now) }
{
    if let Some(sound) = is_sound_in::<SMALL_ROWS, SMALL_WORK>(t, table) {
        return sound;
    }
    is_sound_in::<ROWS_ROOM, ROW_ROOM>(t, table).unwrap()
}

// The signature decoded into t; or the refusal.
pub fn open(ss: &[u16], table: &[u16], t: &mut [u16]) -> Result<(), Refusal>
    requires { length t.old ≡ decoded_length }
    ensures { OpenedAs ss.now table.now (number_in result) t.new }
{
    begin(ss, table.len() >= TABLE, t)?;
    if !is_sound(t, table) {
        return Err(Refusal::Unsound);
    }
    Ok(())
}
