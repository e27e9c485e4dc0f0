//! What an op writes.

ghost use Rattle.std.specs.Prelude.{◌≡◌, ◌<◌, ◌≤◌, ◌%◌, IfSome, OnOk};
ghost use Rattle.bits_core.specs.Value.{limit};
ghost use Rattle.pcode_model.specs.Memory.{whole};
ghost use Rattle.pcode_model.specs.Spaces.{kind_of};
ghost use Rattle.pcode_model.specs.Step.{with_word, write_out, write_varnode};
ghost use Rattle.run_world.specs.Maps.{bytes_of};
ghost use Rattle.pcode_memory.specs.Context.{IsContext, layout_of};
ghost use Rattle.pcode_operands.specs.State.{state_of};
ghost use Rattle.pcode_operands.specs.Used.{IsLocal, IsUsed};

use crate::state::State;
use bits_core::{Memory, Width, Word};
use pcode_memory::{PcodeContext, store};
use pcode_model::{SpaceKind, Varnode};
use run_world::words::word_bytes;
use run_world::{ByteMap, Shape};

/// Writes a word to a register or unique range.
pub fn write_local(
    context: &PcodeContext,
    local: &mut ByteMap,
    v: Varnode,
    word: u128,
) -> Result<(), Memory>
    requires { IsLocal context.now.listing.now v }
    ensures { OnOk result (bytes_of local.new ≡ with_word context.now.listing.now v word (bytes_of local.old)) }
{
    let shape = Shape::new(context.listing, v.space);
    let bytes = word_bytes(context.alloc, shape.big, v.size, word)?;
    local.write(shape, v.space, v.offset, bytes.as_slice())?;
    Ok(())
}

/// Writes a word to the output, which in a ram space is an observed store.
pub fn write_varnode(
    context: &PcodeContext,
    state: &mut State,
    v: Varnode,
    word: u128,
) -> Result<(), Memory>
    requires context { IsContext context.now }
    requires used { IsUsed context.now.listing.now v }
    ensures { OnOk result (state_of context.now state.new
        ≡ write_varnode (whole (layout_of context.now)) context.now.listing.now
        (kind_of context.now.listing.now v.space) v word (state_of context.now state.old)) }
{
    match context.listing.space_kind(v.space) {
        SpaceKind::Constant => Ok(()),
        SpaceKind::Ram => {
            let shape = Shape::new(context.listing, v.space);
            let bytes = word_bytes(context.alloc, shape.big, v.size, word)?;
            store(
                context,
                &mut state.memory,
                &mut state.log,
                shape,
                v.space,
                v.offset,
                bytes,
            )
        }
        SpaceKind::Register | SpaceKind::Unique => {
            write_local(context, &mut state.local, v, word)
        }
    }
}

pub fn write_out(
    context: &PcodeContext,
    state: &mut State,
    out: Option<Varnode>,
    word: u128,
) -> Result<(), Memory>
    requires context { IsContext context.now }
    requires used { IfSome out (IsUsed context.now.listing.now) }
    ensures { OnOk result (state_of context.now state.new
        ≡ write_out (whole (layout_of context.now)) context.now.listing.now out word
        (state_of context.now state.old)) }
{
    match out {
        Some(v) => write_varnode(context, state, v, word),
        None => Ok(()),
    }
}

/// A number, reduced to so many bytes.
pub fn reduced(word: u128, size: u32) -> u128
    requires some { 0 < size }
    requires few { size ≤ 16 }
    ensures { result ≡ word % limit size }
{
    Word::new(word, Width { bytes: size as u8 }).value
}
