//! What a run begins with.

ghost use Rattle.std.specs.Prelude.{◌≡◌, ◌+◌, ◌<◌, ◌≤◌, ◌%◌, IfOk, OnOk, slice_get, true, None};
ghost use Rattle.bits_core.specs.Bytes.{number, word_of as word_in};
ghost use Rattle.pcode_model.specs.declared.storage.ParamStorage.TheVariants as P;
ghost use Rattle.pcode_model.specs.Spaces.{bytes_at, first_ram, size_of};
ghost use Rattle.pcode_model.specs.Step.{first_apart, local_word, stack_word};
ghost use Rattle.pcode_model.specs.WellFormed.{IsRegister};
ghost use Rattle.pcode_model.specs.Frame.{wrapped as wrapped_at};
ghost use Rattle.cmeaning.specs.Step.{first_word, start_c, word_at};
ghost use Rattle.cvalue.specs.Held.{env_of};
ghost use Rattle.run_world.specs.Maps.{bytes_of};
ghost use Rattle.run_world.specs.Meaning.{entry_of};
ghost use Rattle.run_world.specs.Setting.{HasShape, size};
ghost use Rattle.cmeaning.specs.Fits.{param_fits, params_fit};
ghost use Rattle.c_run.specs.States.{IsContext, IsOrigin, entry_at, state_of};

use crate::context::CContext;
use crate::local::Local;
use crate::words::{read, word};
use bits_core::{Memory, Width, Word};
use cmeaning::{CFunction, Param};
use cvalue::Variables;
use pcode_model::{ParamStorage, Varnode};
use run_world::{ByteMap, Entry, Events, Log, OffsetMap, Shape};

/// What the words of parameters are read from.
#[derive(Drop)]
pub(crate) struct Origin {
    pub(crate) memory: ByteMap,
    pub(crate) hidden: OffsetMap,
    /// The stack pointer's word, modulo the size of the first ram space.
    pub(crate) stack: u64,
}

/// The number that bytes make, the least significant first, modulo the size of a space.
fn reduced(shape: Shape, bytes: &[u8]) -> u64
    ensures { result ≡ number bytes.now % size shape }
{
    let mut n = 0u64;
    let mut i = bytes.len();
    while i > 0 {
        i -= 1;
        n = shape.reduce(u128::from(n) * 256 + u128::from(bytes[i]));
    }
    n
}

/// The number that bytes in memory order make, likewise.
fn reduced_word(shape: Shape, big: bool, bytes: Vec<u8>) -> u64
    ensures { result ≡ word_in big bytes.items % size shape }
{
    let mut bytes = bytes;
    if big {
        bytes.reverse();
        return reduced(shape, bytes.as_slice());
    }
    reduced(shape, bytes.as_slice())
}

/// The word of a register, modulo the size of the first ram space.
fn pointer(context: &CContext, memory: &ByteMap, v: Varnode) -> Result<u64, Memory>
    requires context { IsContext context.now }
    requires register { IsRegister context.now.listing.now.spaces v }
    ensures { IfOk result (λ n. n
        ≡ local_word context.now.listing.now v (bytes_of memory.now) % size_of context.now.listing.now
        (first_ram context.now.listing.now)) }
{
    let shape = Shape::new(context.listing, v.space);
    let bytes = memory.read(context.alloc, shape, v.space, v.offset, v.size as usize)?;
    Ok(reduced_word(context.ram, shape.big, bytes))
}

/// The stack pointer's word, likewise; 0 where there is no stack pointer.
fn stack_pointer(context: &CContext, memory: &ByteMap) -> Result<u64, Memory>
    requires context { IsContext context.now }
    ensures { IfOk result (λ n. n
        ≡ stack_word context.now.listing.now context.now.listing.now.stack (bytes_of memory.now) % size_of
        context.now.listing.now (first_ram context.now.listing.now)) }
{
    match context.listing.stack {
        None => Ok(0),
        Some(v) => pointer(context, memory, v),
    }
}

/// The byte of the stack at an offset from the stack pointer: the hidden one, or the memory's where none is hidden.
fn own_byte(context: &CContext, origin: &Origin, shape: Shape, offset: u64) -> u8
    requires context { IsContext context.now }
    requires origin { IsOrigin context.now.listing.now origin.now }
    requires shape { HasShape context.now.listing.now (first_ram context.now.listing.now) shape }
    ensures { result ≡ (first_apart context.now.listing.now (entry_at origin.now)).own offset }
{
    let at = shape.reduce(u128::from(origin.stack) + u128::from(offset));
    match origin.hidden.get(at) {
        Some(byte) => byte,
        None => origin.memory.byte(context.setting.first_ram, at),
    }
}

/// An offset from the stack pointer, as a number below the size of the space.
fn wrapped(shape: Shape, offset: i32) -> u64
    ensures value { result ≡ wrapped_at (size shape) offset }
    ensures inside { result ≤ shape.last }
{
    if offset >= 0 {
        return shape.reduce(offset.unsigned_abs() as u128);
    }
    shape.last - shape.reduce((offset.unsigned_abs() - 1) as u128)
}

fn own_bytes(
    context: &CContext,
    origin: &Origin,
    shape: Shape,
    offset: u64,
    count: usize,
) -> Result<Vec<u8>, Memory>
    requires context { IsContext context.now }
    requires origin { IsOrigin context.now.listing.now origin.now }
    requires shape { HasShape context.now.listing.now (first_ram context.now.listing.now) shape }
    requires inside { offset ≤ shape.last }
    ensures { IfOk result (λ v. v.items
        ≡ bytes_at (size shape) (first_apart context.now.listing.now (entry_at origin.now)).own offset count) }
{
    let mut out = Vec::new(context.alloc);
    let mut here = offset;
    for _ in 0..count {
        out.push(own_byte(context, origin, shape, here))?;
        here = shape.next(here);
    }
    Ok(out)
}

#[tactic(auto, using(crate::proofs::Bytes::read_length))]
fn stack_param(
    context: &CContext,
    origin: &Origin,
    offset: i32,
    width: Width,
) -> Result<Word, Memory>
    requires context { IsContext context.now }
    requires origin { IsOrigin context.now.listing.now origin.now }
    ensures value { IfOk result
        (λ w. w.value ≡ word_at context.now.listing.now (entry_at origin.now) width.bytes (P.Stack offset)) }
    ensures width { IfOk result (λ w. w.width ≡ width) }
{
    let shape = context.ram;
    let from = wrapped(shape, offset);
    let bytes = own_bytes(context, origin, shape, from, usize::from(width.bytes))?;
    Ok(word(shape.big, bytes.as_slice(), width))
}

/// The entry's word at a parameter's storage.
fn param_word(context: &CContext, origin: &Origin, param: &Param) -> Result<Word, Memory>
    requires context { IsContext context.now }
    requires origin { IsOrigin context.now.listing.now origin.now }
    requires fits { param_fits context.now.listing.now param.now ≡ true }
    ensures value { IfOk result (λ w.
        w.value ≡ word_at context.now.listing.now (entry_at origin.now) param.now.width.bytes param.now.storage) }
    ensures width { IfOk result (λ w. w.width ≡ param.now.width) }
{
    match param.storage {
        ParamStorage::Register(offset) => read(
            context,
            &origin.memory,
            context.setting.registers,
            context.registers,
            offset,
            param.width,
        ),
        ParamStorage::Unique(offset) => read(
            context,
            &origin.memory,
            context.setting.uniques,
            context.uniques,
            offset,
            param.width,
        ),
        ParamStorage::Stack(offset) => stack_param(context, origin, offset, param.width),
    }
}

fn assign_params(
    context: &CContext,
    origin: &Origin,
    variables: &mut Variables,
    params: &[Param],
) -> Result<(), Memory>
    requires context { IsContext context.now }
    requires origin { IsOrigin context.now.listing.now origin.now }
    requires fits { params_fit context.now.listing.now params.now ≡ true }
    requires own { params.now ≡ variables.old.f.now.params }
    requires none { env_of variables.old.words.items ≡ λ v. None }
    ensures words { OnOk result (env_of variables.new.words.items
        ≡ λ v. first_word context.now.listing.now (entry_at origin.now) (slice_get params.now v)) }
    ensures function { OnOk result (variables.new.f.now ≡ variables.old.f.now) }
{
    for i in 0..params.len() {
        let word = param_word(context, origin, &params[i])?;
        variables.assign(i, word);
    }
    Ok(())
}

/// Each parameter holds the entry's word at its storage, and no other variable is assigned.
pub(crate) fn start<'a>(
    context: &CContext,
    f: &'a CFunction,
    entry: &Entry,
) -> Result<Local<'a>, Memory>
    requires context { IsContext context.now }
    requires fits { params_fit context.now.listing.now f.now.params ≡ true }
    ensures means { IfOk result (λ x. state_of entry.now.answers x 0
        ≡ start_c context.now.listing.now f.now (entry_of context.now.listing.now entry.now)) }
    ensures function { IfOk result (λ x. x.variables.f.now ≡ f.now) }
{
    let memory = ByteMap::first(context.alloc, context.listing, entry.state.as_slice())?;
    let stack = stack_pointer(context, &memory)?;
    let origin = Origin {
        memory,
        hidden: OffsetMap::of_bytes(context.alloc, entry.hidden.as_slice())?,
        stack,
    };
    let mut variables = Variables::new(context.alloc, f)?;
    assign_params(context, &origin, &mut variables, f.params.as_slice())?;
    let Origin { memory, .. } = origin;
    Ok(Local {
        variables,
        left: OffsetMap::new(context.alloc),
        memory,
        log: Log {
            taken: 0,
            events: Events::new(context.alloc),
            end: None,
        },
    })
}
