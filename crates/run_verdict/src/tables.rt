//! Which listings are run today.

ghost use Rattle.std.specs.Prelude.{◌≡◌, ◌↔◌, IsTrue};
ghost use Rattle.run_verdict.specs.Runnable.{IsRunnable};
ghost use Rattle.run_verdict.specs.Search.{any_table, is_table, names_table};

use pcode_model::{Instruction, Listing, Op, Opcode};

fn is_table(op: &Op) -> bool
    ensures { result ≡ is_table op.now }
{
    matches!(op.code, Opcode::BranchInd)
}

fn names_table(ops: &[Op]) -> bool
    ensures { result ≡ names_table ops.now }
{
    for op in ops {
        if is_table(op) {
            return true;
        }
    }
    false
}

fn any_table(code: &[Instruction]) -> bool
    ensures { result ≡ any_table code.now }
{
    for instruction in code {
        if names_table(instruction.ops.as_slice()) {
            return true;
        }
    }
    false
}

/// Whether a listing has no BRANCHIND, so that its run is one without jump tables.
pub fn is_runnable(listing: &Listing) -> bool
    ensures { IsTrue result ↔ IsRunnable listing.now }
{
    !any_table(listing.code.as_slice())
}
