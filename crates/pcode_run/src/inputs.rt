//! Two words that an op reads, and the width of its output.

ghost use Rattle.std.specs.Prelude.{◌≡◌, ◌<◌, ◌≤◌, [], ◌∷◌, IfOk, IfSome};
ghost use Rattle.pcode_model.specs.Memory.{whole};
ghost use Rattle.pcode_model.specs.Step.{Reads, read_all, size_out};
ghost use Rattle.pcode_memory.specs.Context.{IsContext, frame_in, layout_of};
ghost use Rattle.pcode_operands.specs.State.{state_of};
ghost use Rattle.pcode_operands.specs.Used.{IsUsed};
ghost use Rattle.pcode_run.specs.Steps.{got_two};

use bits_core::{Memory, Width, Word};
use pcode_memory::PcodeContext;
use pcode_model::{Op, Varnode};
use pcode_operands::operands::read_varnode;
use pcode_operands::state::State;

/// The width of the output.
pub fn width_out(op: &Op) -> Width
    requires some { 0 < size_out op.now.out }
    requires few { size_out op.now.out ≤ 16 }
    ensures { result.bytes ≡ size_out op.now.out }
{
    Width {
        bytes: op.size_out() as u8,
    }
}

/// The words of two varnodes. None where one of them is outside.
pub fn read_two(
    context: &PcodeContext,
    state: &State,
    first: Varnode,
    second: Varnode,
) -> Result<Option<(Word, Word)>, Memory>
    requires context { IsContext context.now }
    requires first { IsUsed context.now.listing.now first }
    requires second { IsUsed context.now.listing.now second }
    ensures value { IfOk result (λ r. got_two r
        ≡ read_all (whole (layout_of context.now)) context.now.listing.now (frame_in context.now)
        (state_of context.now state.now) (Reads first ∷ Reads second ∷ [])) }
    ensures widths { IfOk result (λ r. IfSome r (λ p. (p.0.width.bytes ≡ first.size) × (p.1.width.bytes ≡ second.size))) }
{
    let Some(a) = read_varnode(context, state, first)? else {
        return Ok(None);
    };
    match read_varnode(context, state, second)? {
        Some(b) => Ok(Some((a, b))),
        None => Ok(None),
    }
}
