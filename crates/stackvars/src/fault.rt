// Why there are no atoms.
ghost use Rattle.std.specs.Prelude.{◌≡◌};
ghost use Rattle.stackvars.specs.Cuts.{Counts};

use bits_core::Memory;

/// Why there is no list of atoms.
#[derive(Clone, Copy, Debug, PartialEq, Eq)]
pub enum AtomFault {
    /// There are more atoms than the list may have: so many.
    TooManyAtoms(u32),
    Memory,
}

impl From<Memory> for AtomFault {
    ghost use Rattle.stackvars.specs.declared.fault.AtomFault.TheVariants.{Memory as NoMemory};

    ghost from_gives = { λ _ fault. fault ≡ NoMemory };

    fn from(_: Memory) -> AtomFault {
        AtomFault::Memory
    }
}

// A count past 32 bits is told as want of memory.
pub(crate) fn too_many(count: usize) -> AtomFault
    ensures { Counts count result }
{
    match u32::try_from(count) {
        Ok(count) => AtomFault::TooManyAtoms(count),
        Err(_) => AtomFault::Memory,
    }
}
