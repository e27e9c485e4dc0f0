//! Why an input is refused.

ghost use Rattle.std.specs.Prelude.{◌≡◌};
ghost use Rattle.refusals.specs.Refused.{of_atoms, of_flow, of_text};

use flow::FlowFault;
use pcode_model::OpFault;
use pcodetext::TextFault;
use stackvars::AtomFault;
use std::alloc::AllocError;
use thiserror::Error;

/// Why an input is refused. Where a fault of a pass is want of memory, `Memory` stands, and never the pass's own.
#[derive(Clone, Copy, Debug, PartialEq, Eq, Error)]
pub enum Refusal {
    /// The first fault of the text.
    #[error("the text of the listing has a fault")]
    Text(TextFault),
    /// The first op that breaks a rule.
    #[error("an op breaks a rule")]
    Op(OpFault),
    /// The listing isn't one of those that are built so far.
    #[error("the listing is not built")]
    NotBuilt,
    /// The first fault of the flow, or too many blocks.
    #[error("the flow has a fault, or too many blocks")]
    Flow(FlowFault),
    /// There are too many atoms.
    #[error("there are too many atoms")]
    Atoms(AtomFault),
    /// Memory ran out.
    #[error("memory ran out")]
    Memory,
}

impl From<TextFault> for Refusal {
    ghost use Rattle.refusals.specs.Refused.{of_text};

    ghost from_gives = { λ fault refusal. refusal ≡ of_text fault };

    fn from(fault: TextFault) -> Refusal {
        match fault {
            TextFault::Memory => Refusal::Memory,
            _ => Refusal::Text(fault),
        }
    }
}

impl From<OpFault> for Refusal {
    ghost use Rattle.refusals.specs.declared.refusal.Refusal.TheVariants.{Op};

    ghost from_gives = { λ fault refusal. refusal ≡ Op fault };

    fn from(fault: OpFault) -> Refusal {
        Refusal::Op(fault)
    }
}

impl From<FlowFault> for Refusal {
    ghost use Rattle.refusals.specs.Refused.{of_flow};

    ghost from_gives = { λ fault refusal. refusal ≡ of_flow fault };

    fn from(fault: FlowFault) -> Refusal {
        match fault {
            FlowFault::Memory => Refusal::Memory,
            _ => Refusal::Flow(fault),
        }
    }
}

impl From<AtomFault> for Refusal {
    ghost use Rattle.refusals.specs.Refused.{of_atoms};

    ghost from_gives = { λ fault refusal. refusal ≡ of_atoms fault };

    fn from(fault: AtomFault) -> Refusal {
        match fault {
            AtomFault::Memory => Refusal::Memory,
            _ => Refusal::Atoms(fault),
        }
    }
}

impl From<AllocError> for Refusal {
    ghost use Rattle.refusals.specs.declared.refusal.Refusal.TheVariants.{Memory};

    ghost from_gives = { λ _ refusal. refusal ≡ Memory };

    fn from(_: AllocError) -> Refusal {
        Refusal::Memory
    }
}

impl From<bits_core::Memory> for Refusal {
    ghost use Rattle.refusals.specs.declared.refusal.Refusal.TheVariants.{Memory};

    ghost from_gives = { λ _ refusal. refusal ≡ Memory };

    fn from(_: bits_core::Memory) -> Refusal {
        Refusal::Memory
    }
}
