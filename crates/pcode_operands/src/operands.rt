//! What an op reads.

ghost use Rattle.std.specs.Prelude.{◌≡◌, ◌<◌, ◌≤◌, ◌^◌, Option, None, Some, length, IfOk, IfSome, IsSome};
ghost use Rattle.std.specs.List.{AllByRecursion};
ghost use Rattle.bits_core.specs.Bytes.{word_of as number_of};
ghost use Rattle.pcode_model.specs.Memory.{whole};
ghost use Rattle.pcode_model.specs.Spaces.{first_ram, kind_of, size_of};
ghost use Rattle.pcode_model.specs.Step.{all_read, argument, arguments, as_word, local_word, read_all, read_at, read_operand, read_varnode, stack_address};
ghost use Rattle.run_world.specs.Maps.{bytes_of};
ghost use Rattle.run_world.specs.Setting.{HasShape};
ghost use Rattle.pcode_memory.specs.Context.{IsContext, frame_in, got, layout_of, whole_of};
ghost use Rattle.pcode_operands.specs.State.{state_of};
ghost use Rattle.pcode_operands.specs.Used.{IsArgument, IsLocal, IsUsed};
ghost use Rattle.pcode_operands.specs.Words.{got_word, got_words};

use crate::state::State;
use bits_core::{Memory, Width, Word};
use pcode_memory::PcodeContext;
use pcode_model::{Bytes, SpaceKind, Storage, Varnode};
use run_world::words::word_of;
use run_world::{ByteMap, Shape, WordList};

/// The word that bytes in the order of a space make.
#[tactic(auto, unfolding(bits_core::specs::Value::limit))]
pub fn word(shape: Shape, bytes: &[u8], size: u32) -> Word
    requires some { 0 < size }
    requires few { size ≤ 16 }
    requires bytes { length bytes.now ≡ size }
    ensures value { result.value ≡ number_of shape.big bytes.now }
    ensures width { result.width.bytes ≡ size }
{
    Word {
        value: word_of(shape.big, bytes),
        width: Width { bytes: size as u8 },
    }
}

/// The word that a register or unique range holds.
pub fn local_word(context: &PcodeContext, local: &ByteMap, v: Varnode) -> Result<Word, Memory>
    requires { IsLocal context.now.listing.now v }
    ensures value { IfOk result (λ w. w.value ≡ local_word context.now.listing.now v (bytes_of local.now)) }
    ensures width { IfOk result (λ w. w.width.bytes ≡ v.size) }
{
    let shape = Shape::new(context.listing, v.space);
    let bytes = local.read(context.alloc, shape, v.space, v.offset, v.size as usize)?;
    Ok(word(shape, bytes.as_slice(), v.size))
}

// Bytes at an address, by a pointer or as a frame variable's own. None where that is outside.
fn bytes_at(
    context: &PcodeContext,
    state: &State,
    own: Option<u64>,
    shape: Shape,
    space: u8,
    address: u64,
    size: u32,
) -> Result<Option<Bytes>, Memory>
    requires context { IsContext context.now }
    requires shape { HasShape context.now.listing.now space shape }
    requires inside { address ≤ shape.last }
    requires own { IsSome own → space ≡ first_ram context.now.listing.now }
    ensures { IfOk result (λ bytes.
        got bytes ≡ read_at (whole (layout_of context.now)) own space address size (whole_of state.now.memory)) }
{
    match own {
        None => state.memory.read(context, shape, space, address, size),
        Some(_) => {
            let bytes = state.memory.read_own(context, address, size)?;
            Ok(bytes)
        }
    }
}

/// The word of bytes at an address, by a pointer or as a frame variable's own. None where that is outside.
pub fn word_at(
    context: &PcodeContext,
    state: &State,
    own: Option<u64>,
    space: u8,
    address: u64,
    size: u32,
) -> Result<Option<Word>, Memory>
    requires context { IsContext context.now }
    requires small { size_of context.now.listing.now space ≤ 2 ^ 64 }
    requires inside { address < size_of context.now.listing.now space }
    requires some { 0 < size }
    requires few { size ≤ 16 }
    requires own { IsSome own → space ≡ first_ram context.now.listing.now }
    ensures value { IfOk result (λ w. got_word w
        ≡ as_word context.now.listing.now space
        (read_at (whole (layout_of context.now)) own space address size (whole_of state.now.memory))) }
    ensures width { IfOk result (λ w. IfSome w (λ n. n.width.bytes ≡ size)) }
{
    let shape = Shape::new(context.listing, space);
    match bytes_at(context, state, own, shape, space, address, size)? {
        Some(bytes) => Ok(Some(word(shape, bytes.as_slice(), size))),
        None => Ok(None),
    }
}

/// The word of a varnode. None where that is outside.
#[tactic(auto, unfolding(bits_core::specs::Value::limit))]
pub fn read_varnode(
    context: &PcodeContext,
    state: &State,
    v: Varnode,
) -> Result<Option<Word>, Memory>
    requires context { IsContext context.now }
    requires used { IsUsed context.now.listing.now v }
    ensures value { IfOk result (λ w. got_word w
        ≡ read_varnode (whole (layout_of context.now)) context.now.listing.now
        (kind_of context.now.listing.now v.space) v (state_of context.now state.now)) }
    ensures width { IfOk result (λ w. IfSome w (λ n. n.width.bytes ≡ v.size)) }
{
    match context.listing.space_kind(v.space) {
        SpaceKind::Constant => Ok(Some(Word {
            value: u128::from(v.offset),
            width: Width {
                bytes: v.size as u8,
            },
        })),
        SpaceKind::Ram => word_at(context, state, None, v.space, v.offset, v.size),
        SpaceKind::Register | SpaceKind::Unique => {
            let word = local_word(context, &state.local, v)?;
            Ok(Some(word))
        }
    }
}

// The address so many bytes above the stack pointer.
fn stack_address(context: &PcodeContext, state: &State, offset: u32) -> Result<u64, Memory>
    requires { IsContext context.now }
    ensures { IfOk result (λ a.
        a ≡ stack_address context.now.listing.now offset context.now.listing.now.stack (bytes_of state.now.local)) }
{
    match context.listing.stack {
        None => Ok(context.ram.reduce(u128::from(offset))),
        Some(sp) => {
            let word = local_word(context, &state.local, sp)?;
            Ok(context.ram.reduce(word.value + u128::from(offset)))
        }
    }
}

// The argument of a call with that number.
fn read_argument(
    context: &PcodeContext,
    state: &State,
    number: u32,
    storage: Storage,
) -> Result<Option<Word>, Memory>
    requires context { IsContext context.now }
    requires used { IsArgument context.now.listing.now storage }
    ensures { IfOk result (λ w. got_word w
        ≡ read_operand (whole (layout_of context.now)) context.now.listing.now (frame_in context.now)
        (state_of context.now state.now) (argument number storage)) }
{
    match storage {
        Storage::At(v) => read_varnode(context, state, v),
        Storage::Stack { offset, size } => {
            let own = context.own(state.at.address, state.at.index, number);
            let address = stack_address(context, state, offset)?;
            word_at(
                context,
                state,
                own,
                context.setting.first_ram,
                address,
                size,
            )
        }
    }
}

/// The words of varnodes in order. None where one of them is outside.
pub fn read_all(
    context: &PcodeContext,
    state: &State,
    varnodes: &[Varnode],
) -> Result<Option<WordList>, Memory>
    requires context { IsContext context.now }
    requires used { AllByRecursion (IsUsed context.now.listing.now) varnodes.now }
    ensures { IfOk result (λ ws. got_words ws
        ≡ read_all (whole (layout_of context.now)) context.now.listing.now (frame_in context.now)
        (state_of context.now state.now) (all_read varnodes.now)) }
{
    let mut words = WordList::new(context.alloc);
    for v in varnodes {
        match read_varnode(context, state, *v)? {
            Some(word) => words.push(word)?,
            None => return Ok(None),
        }
    }
    Ok(Some(words))
}

/// The words of a call's arguments in order. None where one of them is outside.
pub fn read_arguments(
    context: &PcodeContext,
    state: &State,
    storages: &[Storage],
) -> Result<Option<WordList>, Memory>
    requires context { IsContext context.now }
    requires used { AllByRecursion (IsArgument context.now.listing.now) storages.now }
    requires few { length storages.now < 2 ^ 32 }
    ensures { IfOk result (λ ws. got_words ws
        ≡ read_all (whole (layout_of context.now)) context.now.listing.now (frame_in context.now)
        (state_of context.now state.now) (arguments 0 storages.now)) }
{
    let mut words = WordList::new(context.alloc);
    for n in 0..storages.len() {
        match read_argument(context, state, n as u32, storages[n])? {
            Some(word) => words.push(word)?,
            None => return Ok(None),
        }
    }
    Ok(Some(words))
}
