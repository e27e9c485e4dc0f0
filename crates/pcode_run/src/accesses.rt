//! Accesses by a pointer.

ghost use Rattle.std.specs.Prelude.{◌≡◌, ◌<◌, ◌≤◌, ◌^◌, length, IfSome, IsSome, OnOk};
ghost use Rattle.pcode_model.specs.declared.opcode.Opcode.TheVariants as O;
ghost use Rattle.pcode_model.specs.Memory.{whole};
ghost use Rattle.pcode_model.specs.Spaces.{first_ram, size_of, word_size};
ghost use Rattle.pcode_model.specs.Step.{byte_address, bytes_in, fetched, in_world, put_at};
ghost use Rattle.pcode_memory.specs.Context.{IsContext, layout_of};
ghost use Rattle.pcode_operands.specs.State.{state_of};
ghost use Rattle.pcode_operands.specs.Used.{IsUsed};
ghost use Rattle.pcode_operands.specs.Words.{got_word};
ghost use Rattle.pcode_run.specs.Steps.{Obeys, OwnsRam, done};

use crate::ends::finish;
use crate::inputs::read_two;
use crate::places::next_spot;
use bits_core::{Memory, Word};
use pcode_memory::PcodeContext;
use pcode_model::{Instruction, Listing, Op, Varnode};
use pcode_operands::operands::{read_varnode, word_at};
use pcode_operands::state::State;
use pcode_operands::writes::write_out;
use run_world::words::word_bytes;
use run_world::{End, Shape};

// Bytes of a word of the space with that number.
fn word_size(listing: &Listing, space: u8) -> u8
    ensures { result ≡ word_size listing.now space }
{
    match listing.spaces.get(usize::from(space)) {
        Some(space) => space.word,
        None => 1,
    }
}

// The byte address of an offset in a space.
fn byte_address(listing: &Listing, space: u8, offset: u128) -> u64
    requires { size_of listing.now space ≤ 2 ^ 64 }
    ensures value { result ≡ byte_address listing.now space offset }
    ensures inside { result < size_of listing.now space }
{
    let shape = Shape::new(listing, space);
    let words = shape.reduce(offset);
    shape.reduce(u128::from(words) * u128::from(word_size(listing, space)))
}

// Writes a word that was read to the output; none ends the run.
fn put_fetched(
    context: &PcodeContext,
    state: &mut State,
    out: Option<Varnode>,
    word: Option<Word>,
) -> Result<(), Memory>
    requires context { IsContext context.now }
    requires out { IfSome out (IsUsed context.now.listing.now) }
    ensures { OnOk result (state_of context.now state.new
        ≡ fetched (whole (layout_of context.now)) context.now.listing.now out (got_word word)
        (state_of context.now state.old)) }
{
    match word {
        Some(word) => write_out(context, state, out, word.value),
        None => {
            finish(state, End::Outside);
            Ok(())
        }
    }
}

/// Carries out a LOAD.
pub fn load(
    context: &PcodeContext,
    state: &mut State,
    instruction: &Instruction,
    op: &Op,
) -> Result<(), Memory>
    requires context { IsContext context.now }
    requires few { length instruction.now.ops < 2 ^ 32 }
    requires kind { op.now.code ≡ O.Load }
    requires obeys { Obeys context.now.listing.now op.now }
    requires owns { OwnsRam context.now op.now (state_of context.now state.old) }
    ensures { OnOk result
        (state_of context.now state.new ≡ done context.now instruction.now op.now (state_of context.now state.old)) }
{
    let space = op.input(0).offset as u8;
    let Some(offset) = read_varnode(context, state, op.input(1))? else {
        finish(state, End::Outside);
        return Ok(());
    };
    let address = byte_address(context.listing, space, offset.value);
    let own = context.own(state.at.address, state.at.index, 0);
    let word = word_at(context, state, own, space, address, op.size_out())?;
    state.at = next_spot(instruction, state.at.index);
    put_fetched(context, state, op.out, word)
}

// Writes so many bytes of a word to an address, by a pointer or as a frame variable's own.
fn put_at(
    context: &PcodeContext,
    state: &mut State,
    own: Option<u64>,
    space: u8,
    address: u64,
    size: u32,
    word: u128,
) -> Result<(), Memory>
    requires context { IsContext context.now }
    requires small { size_of context.now.listing.now space ≤ 2 ^ 64 }
    requires inside { address < size_of context.now.listing.now space }
    requires own { IsSome own → space ≡ first_ram context.now.listing.now }
    ensures { OnOk result (state_of context.now state.new
        ≡ in_world
        (put_at (whole (layout_of context.now)) own space address
        (bytes_in context.now.listing.now space size word) (state_of context.now state.old).world)
        (state_of context.now state.old)) }
{
    let shape = Shape::new(context.listing, space);
    let bytes = word_bytes(context.alloc, shape.big, size, word)?;
    match own {
        Some(_) => state.memory.write_own(context, address, bytes.as_slice()),
        None => pcode_memory::store(
            context,
            &mut state.memory,
            &mut state.log,
            shape,
            space,
            address,
            bytes,
        ),
    }
}

/// Carries out a STORE.
pub fn store(
    context: &PcodeContext,
    state: &mut State,
    instruction: &Instruction,
    op: &Op,
) -> Result<(), Memory>
    requires context { IsContext context.now }
    requires few { length instruction.now.ops < 2 ^ 32 }
    requires kind { op.now.code ≡ O.Store }
    requires obeys { Obeys context.now.listing.now op.now }
    requires owns { OwnsRam context.now op.now (state_of context.now state.old) }
    ensures { OnOk result
        (state_of context.now state.new ≡ done context.now instruction.now op.now (state_of context.now state.old)) }
{
    let space = op.input(0).offset as u8;
    let value = op.input(2);
    let Some((offset, word)) = read_two(context, state, op.input(1), value)? else {
        finish(state, End::Outside);
        return Ok(());
    };
    let address = byte_address(context.listing, space, offset.value);
    let own = context.own(state.at.address, state.at.index, 0);
    state.at = next_spot(instruction, state.at.index);
    put_at(context, state, own, space, address, value.size, word.value)
}
