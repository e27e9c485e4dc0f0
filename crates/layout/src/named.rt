//! The blocks that gotos name.

ghost use Rattle.std.specs.Prelude.{◌≡◌, ℕ, ◌+◌, ◌-◌, ◌^◌, ◌<◌, ◌==◌, false, length, IfOk};
ghost use Rattle.std.specs.List.{slice_index_or};
ghost use Rattle.pcode_model.specs.Spaces.{or as either};
ghost use Rattle.blockcode.specs.Laid.{arms_name, exit_names, jump_names, is_named};

use bits_core::Memory;
use blockcode::{Arm, Code, Exit};
use std::alloc::Global;

fn mark(named: &mut Vec<bool>, block: u32)
    ensures length { length named.new.items ≡ length named.old.items }
    ensures flags { (b : ℕ)
        → b < length named.new.items
        → slice_index_or named.new.items b false ≡ either (block == b) (slice_index_or named.old.items b false) }
{
    let block = block as usize;
    if block < named.len() {
        named[block] = true;
    }
}

fn mark_jump(named: &mut Vec<bool>, next: u32, to: u32)
    ensures length { length named.new.items ≡ length named.old.items }
    ensures flags { (b : ℕ)
        → b < length named.new.items
        → slice_index_or named.new.items b false ≡ either (jump_names next to b) (slice_index_or named.old.items b false) }
{
    if to != next {
        mark(named, to);
    }
}

fn mark_arms(named: &mut Vec<bool>, arms: &[Arm])
    ensures length { length named.new.items ≡ length named.old.items }
    ensures flags { (b : ℕ)
        → b < length named.new.items
        → slice_index_or named.new.items b false ≡ either (arms_name arms.now b) (slice_index_or named.old.items b false) }
{
    for arm in arms {
        mark(named, arm.to);
    }
}

fn mark_exit(named: &mut Vec<bool>, next: u32, exit: &Exit)
    ensures length { length named.new.items ≡ length named.old.items }
    ensures flags { (b : ℕ)
        → b < length named.new.items
        → slice_index_or named.new.items b false ≡ either (exit_names next exit.now b) (slice_index_or named.old.items b false) }
{
    match exit {
        Exit::Jump(to) => mark_jump(named, next, *to),
        Exit::Test { taken, other, .. } => {
            mark(named, *taken);
            mark_jump(named, next, *other);
        }
        Exit::Switch { arms, .. } => mark_arms(named, arms.as_slice()),
        _ => {}
    }
}

/// Whether a goto names each block, by the blocks' numbers.
pub(crate) fn named(alloc: Global, code: &Code) -> Result<Vec<bool>, Memory>
    requires { length code.now.blocks < 2 ^ 32 - 1 }
    ensures flags { IfOk result (λ v. (b : ℕ) → b < length code.now.blocks → slice_index_or v.items b false ≡ is_named code.now b) }
    ensures length { IfOk result (λ v. length v.items ≡ length code.now.blocks) }
{
    let blocks = code.blocks.as_slice();
    let mut named = vec![in alloc; false; blocks.len()]?;
    mark_jump(&mut named, 0, code.entry);
    for (n, block) in blocks.iter().enumerate() {
        mark_exit(&mut named, n as u32 + 1, &block.exit);
    }
    Ok(named)
}
