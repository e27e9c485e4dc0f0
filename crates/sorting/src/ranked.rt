//! Numbers in the order of their ranks.
ghost use Rattle.std.specs.Prelude.{◌≡◌, ℕ, IfOk, IfErr};
ghost use Rattle.sorting.specs.Order.{by_key};
ghost use Rattle.sorting.specs.Ranks.{HaveRanks, numbers_of};

use bits_core::Memory;

/// A number and the rank that it is sorted by.
#[derive(Clone, Copy, Debug, PartialEq, Eq)]
pub struct Ranked {
    pub rank: u128,
    pub number: u32,
}

/// Sorts by rising ranks, in n log n steps. Of two of one rank the first one stays first. Nothing changes where memory
/// for the sort's buffer is refused.
pub fn sort_by_rank(items: &mut Vec<Ranked>) -> Result<(), Memory>
    ensures sorted { IfOk result (λ _. (rank : ℕ → ℕ)
        → HaveRanks rank items.old.items
        → numbers_of items.new.items ≡ by_key rank (numbers_of items.old.items)) }
    ensures failed { IfErr result (λ _. items.new.items ≡ items.old.items) }
{
    items.sort_by_key(|item| item.rank)?;
    Ok(())
}
