//! A mark for each place.

ghost use Rattle.std.specs.Prelude.{◌≡◌, false, IfOk, replicate};

use bits_core::Memory;
use std::alloc::Global;

/// So many marks, none of them set.
pub(crate) fn flags(alloc: Global, count: usize) -> Result<Vec<bool>, Memory>
    ensures { IfOk result (λ marks. marks.items ≡ replicate count false) }
{
    match vec![in alloc; false; count] {
        Ok(marks) => Ok(marks),
        Err(_) => Err(Memory),
    }
}
