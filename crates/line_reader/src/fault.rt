//! What is wrong with a line, and where a text stops.

use std::alloc::AllocError;

/// What is wrong with a line, or want of memory.
#[derive(Clone, Copy, Debug, PartialEq, Eq)]
pub enum LineFault<W> {
    Fault(W),
    Memory,
}

/// The first faulty line of a text, by its number from 1 on, and what is wrong with it.
#[derive(Clone, Copy, Debug, PartialEq, Eq)]
pub struct Stop<W> {
    pub line: u32,
    pub fault: LineFault<W>,
}

impl<W> From<AllocError> for LineFault<W> {
    ghost use Rattle.std.specs.Prelude.{◌≡◌};
    ghost use Rattle.line_reader.specs.declared.fault.LineFault.TheVariants.{Memory};

    ghost from_gives = { λ _ e. e ≡ Memory };

    fn from(_refused: AllocError) -> LineFault<W> {
        LineFault::Memory
    }
}
