// Ranges of levels.
ghost use Rattle.std.specs.Prelude.{◌≡◌};
ghost use Rattle.pattern.specs.Range.{within};

use signature::decoded::LEVEL_BASE;

// Whether the head `d` is a level from low to high. Both ends may be any word.
pub fn within(low: u16, high: u16, d: u16) -> bool
    ensures { result ≡ within low high d }
{
    if d < LEVEL_BASE {
        return false;
    }
    let level = d - LEVEL_BASE;
    if level < low {
        return false;
    }
    level <= high
}
