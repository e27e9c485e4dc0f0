//! The table of labels.

ghost use Rattle.std.specs.Prelude.{◌≡◌, ◌==◌, ◌<◌, ℕ, if◌then◌else◌, length, map, IfOk, OnOk};
ghost use Rattle.cmeaning.specs.Flat.{found_in};
ghost use Rattle.flatcode.specs.Steps.{place_in};
ghost use Rattle.flatcode.specs.Adds.{pair_of};

use crate::draft::Placed;
use bits_core::Memory;
use std::alloc::Global;

/// Makes room for a number, without a label of it.
fn make_room(table: &mut Vec<Option<usize>>, at: usize) -> Result<(), Memory>
    ensures same { OnOk result ((end n : ℕ) → place_in table.new.items end n ≡ place_in table.old.items end n) }
    ensures room { OnOk result (at < length table.new.items) }
{
    while table.len() <= at {
        table.push(None)?;
    }
    Ok(())
}

/// Puts a label into the table, in place of what it held for its number.
fn put(table: &mut Vec<Option<usize>>, label: Placed) -> Result<(), Memory>
    ensures { OnOk result ((end n : ℕ)
        → place_in table.new.items end n
        ≡ (if label.label == n then label.position else place_in table.old.items end n)) }
{
    let at = label.label as usize;
    make_room(table, at)?;
    table[at] = Some(label.position);
    Ok(())
}

/// The position of each label by its number, by the first one of each number.
pub(crate) fn table_of(alloc: Global, labels: &[Placed]) -> Result<Vec<Option<usize>>, Memory>
    ensures { IfOk result (λ t. (end n : ℕ) → place_in t.items end n ≡ found_in (map pair_of labels.now) end n) }
{
    let mut table = Vec::new(alloc);
    for i in 0..labels.len() {
        put(&mut table, labels[labels.len() - 1 - i])?;
    }
    Ok(table)
}
