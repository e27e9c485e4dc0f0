//! Exits under the numbers that blocks have once one more stands before the entry's.

ghost use Rattle.std.specs.Prelude.{◌≡◌, ◌<◌, ◌-◌, ◌^◌, ℕ, IfOk, IsTrue, map};
ghost use Rattle.blockcode.specs.Numbers.{ArmsBelow, ExitBelow};
ghost use Rattle.entry_block.specs.Entered.{arm_names, names as names_of, shifted as shifted_by, shifted_arm, shifted_exit as exit_shifted};

use bits_core::Memory;
use blockcode::{Arm, Arms, Exit};
use std::alloc::Global;

fn names_arm(entry: u32, arms: &[Arm]) -> bool
    ensures { result ≡ arm_names entry arms.now }
{
    for arm in arms {
        if arm.to == entry {
            return true;
        }
    }
    false
}

/// Whether an exit names a block.
pub(crate) fn names(entry: u32, exit: &Exit) -> bool
    ensures { result ≡ names_of entry exit.now }
{
    match exit {
        Exit::Return(_) | Exit::Stop => false,
        Exit::Jump(to) => *to == entry,
        Exit::Test { taken, other, .. } => *taken == entry || *other == entry,
        Exit::Switch { arms, .. } => names_arm(entry, arms.as_slice()),
    }
}

fn shifted(entry: u32, to: u32) -> u32
    requires { to < 2 ^ 32 - 1 }
    ensures { result ≡ shifted_by entry to }
{
    if to < entry { to } else { to + 1 }
}

fn shifted_arms(alloc: Global, entry: u32, count: u32, arms: &[Arm]) -> Result<Arms, Memory>
    requires few { count < 2 ^ 32 - 1 }
    requires below { ArmsBelow count arms.now }
    ensures { IfOk result (λ moved. moved ≡ map (shifted_arm entry) arms.now) }
{
    let mut moved = Arms::new(alloc);
    for arm in arms {
        moved.push(Arm {
            value: arm.value,
            to: shifted(entry, arm.to),
        })?;
    }
    Ok(moved)
}

/// The exit with its blocks' new numbers, of a code of so many blocks.
pub(crate) fn shifted_exit(
    alloc: Global,
    entry: u32,
    count: u32,
    exit: Exit,
) -> Result<Exit, Memory>
    requires few { count < 2 ^ 32 - 1 }
    requires below { ExitBelow count exit }
    ensures { IfOk result (λ moved. moved ≡ exit_shifted entry exit) }
{
    match exit {
        Exit::Return(e) => Ok(Exit::Return(e)),
        Exit::Jump(to) => Ok(Exit::Jump(shifted(entry, to))),
        Exit::Test {
            condition,
            taken,
            other,
        } => Ok(Exit::Test {
            condition,
            taken: shifted(entry, taken),
            other: shifted(entry, other),
        }),
        Exit::Switch { value, arms } => {
            let arms = shifted_arms(alloc, entry, count, arms.as_slice())?;
            Ok(Exit::Switch { value, arms })
        }
        Exit::Stop => Ok(Exit::Stop),
    }
}
