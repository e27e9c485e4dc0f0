//! Jump tables: where a BRANCHIND leads, by the value of one word.

use crate::listing::{Place, Varnode};
use bits_core::Width;
use sqlite_items::Items;

/// A value of the switched word, and the place that the run then goes to.
#[derive(Clone, Copy, Debug, PartialEq, Eq)]
pub struct Case {
    pub value: u128,
    pub place: Place,
}

/// By rising value.
pub type Cases = Items<Case>;

/// The table of a BRANCHIND.
#[derive(Drop)]
pub struct Table {
    /// How many ops the slice has that ends at the BRANCHIND, itself included.
    pub slice: u32,
    /// The place of the slice before which `value` holds the switched word.
    pub at: Place,
    pub value: Varnode,
    /// The switched word's width.
    pub size: Width,
    pub cases: Cases,
}

/// A BRANCHIND's place, and its table where it has one.
#[derive(Drop)]
pub struct TableAt {
    pub place: Place,
    pub table: Option<Table>,
}

/// One for each BRANCHIND of the listing, in its order.
pub type Tables = Items<TableAt>;
