//! The ranges of storage that become variables.

use crate::storage::ParamStorage;
use sqlite_items::Items;

/// A range of storage that each access takes whole or not at all.
#[derive(Clone, Copy, Debug, PartialEq, Eq)]
pub struct Atom {
    pub storage: ParamStorage,
    /// Bytes, at least 1.
    pub size: u32,
}

/// Register ranges, then unique ranges, each by rising offset.
pub type Atoms = Items<Atom>;
