// The limits of patterns, for the crates above: specs/Limits.antt has each with its sentence.
pub const PATTERN_WORDS: usize = 64;

pub const VARIABLES: usize = 16;

pub const LAST_INDEX: usize = 15;

pub const UNBOUND: u16 = 65535;

pub const PART_WEIGHT: u16 = 64;
