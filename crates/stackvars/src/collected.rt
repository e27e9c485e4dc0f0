// The ranges that the ops of blocks access, and those of frame variables.
ghost use Rattle.std.specs.Prelude.{◌≡◌, ◌++◌, IfOk, OnOk};
ghost use Rattle.pcode_model.specs.Flow.{AreApart};
ghost use Rattle.stackvars.specs.Collected.{collected, frame_ranges};

use crate::accesses::accesses;
use bits_core::Memory;
use pcode_model::{Atom, Block, Frame, FrameAccess, Listing, ParamStorage};
use std::alloc::Global;

fn push_frame(out: &mut Vec<Atom>, accesses: &[FrameAccess]) -> Result<(), Memory>
    ensures { OnOk result (out.new.items ≡ out.old.items ++ frame_ranges accesses.now) }
{
    for access in accesses {
        let storage = ParamStorage::Stack(access.offset);
        let size = access.size;
        out.push(Atom { storage, size })?;
    }
    Ok(())
}

/// All ranges that are accessed, those of the frame behind the others.
pub(crate) fn collected(
    alloc: Global,
    listing: &Listing,
    blocks: &[Block],
    frame: &Frame,
) -> Result<Vec<Atom>, Memory>
    requires { AreApart listing.now.code }
    ensures { IfOk result (λ accessed. accessed.items ≡ collected listing.now blocks.now frame.now) }
{
    let mut out = accesses(alloc, listing, blocks)?;
    push_frame(&mut out, frame.accesses.as_slice())?;
    Ok(out)
}
