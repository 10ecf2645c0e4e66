// A table loaded with a workspace of so many words. It is free again behind it, so that it does not add to what the call needs later.
ghost use Rattle.std.specs.Prelude.{◌≤◌, length};
ghost use Rattle.builder.specs.Build.{row_room};
ghost use Rattle.loading.specs.Add.{TooSmall};
ghost use Rattle.loading.specs.Load.{GivenLoad, LoadedAs};

use loading::add::LoadError;
use loading::load::load;

// Not compiled into its callers: so the largest arrays, here and in the calls, stand in frames that a small table does not have.
#[inline(never)]
pub fn load_in<const WORK: usize>(
    t: &[u16],
    table: &[u16],
    rows: &mut [u64],
) -> Result<(usize, u16), LoadError>
    requires { GivenLoad t.now table.now × (WORK ≤ row_room) }
    ensures { (g : GivenLoad t.now table.now) → LoadedAs (TooSmall (length rows.old) WORK) g.known.sig table.now result rows.new }
{
    let mut work = [0u64; WORK];
    load(t, table, rows, &mut work)
}
