// The first words of nodes and the limits of trees, for the crates that write and walk them.
pub const DEFAULT: u16 = 0;

pub const HIT: u16 = 1;

pub const TEST: u16 = 2;

pub const SKIP: u16 = 3;

pub const SPLIT: u16 = 4;

// the words of a node 0; of a node 1 before its pairs, of a node 2 before its links, and of a node 4 before its ends
pub const DEFAULT_WORDS: usize = 2;

pub const HIT_WORDS: usize = 4;

pub const TEST_WORDS: usize = 3;

pub const SPLIT_WORDS: usize = 2;

pub const LAST_NUMBER: u16 = 999;

pub const TREE_LIMIT: usize = 32768;
