//! The greatest counts of what is accepted.

/// Blocks of a listing, without the empty one that may stand before the entry.
pub const MAX_BLOCKS: usize = 2048;

/// Ranges of storage that become variables.
pub const MAX_ATOMS: usize = 1024;

/// Bytes of an input.
pub const MAX_INPUT: usize = 4_194_304;
