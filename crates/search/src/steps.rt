// The steps of a path.
ghost use Rattle.std.specs.Prelude.{◌≡◌, ◌+◌, ◌*◌, ◌<◌, length, set};
ghost use Rattle.rowset.specs.Limits.{row_limit};
ghost use Rattle.search.specs.Branch.{step_width, path_length};

use rowset::set::ROWS;

// A row, its open cells, and the cell at which it is left.
pub const STEP: usize = 3;

pub const PATH: usize = STEP * ROWS;

pub fn put_step(path: &mut [u64], i: usize, r: usize, opened: u64, c: usize)
    requires { (i < row_limit) × (length path.old ≡ path_length) }
    ensures { path.new ≡ set (set (set path.old (step_width * i) r) (step_width * i + 1) opened) (step_width * i + 2) c }
{
    path[STEP * i] = r as u64;
    path[STEP * i + 1] = opened;
    path[STEP * i + 2] = c as u64;
}
