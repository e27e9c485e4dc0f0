//! Numbers in the order of their ranks. Of two of one rank the first one stays first.
//!
//! The order is told as an insertion sort. A stable sort has no other result: of two lists that climb and have the same
//! items of each key in the same order, both begin with the first item of the least key (`proofs/Sorted.antt`).
#![tactic(auto)]

ghost use Rattle.sorting.specs.Examples.{SmallOrders};

mod ranked;

pub use ranked::{Ranked, sort_by_rank};

/// Three small lists in order.
pub fn small_orders()
    ensures { SmallOrders }
{}
