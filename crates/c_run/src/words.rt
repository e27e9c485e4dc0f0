//! Words in memory.

ghost use Rattle.std.specs.Prelude.{◌≡◌, ◌+◌, ◌≤◌, ◌<◌, length, IfOk};
ghost use Rattle.bits_core.specs.Bytes.{word_of as word_in};
ghost use Rattle.pcode_model.specs.Spaces.{bytes_at, register_space, size_of};
ghost use Rattle.pcode_model.specs.Step.{word_in_bytes};
ghost use Rattle.cmeaning.specs.Do.{left_word};
ghost use Rattle.run_world.specs.Maps.{bytes_of};
ghost use Rattle.run_world.specs.Setting.{HasShape, size};
ghost use Rattle.c_run.specs.States.{IsContext, left_of};

use crate::context::CContext;
use bits_core::{Memory, Width, Word};
use run_world::words::word_of;
use run_world::{ByteMap, OffsetMap, Shape};

/// The word of so many bytes.
#[tactic(auto, unfolding(bits_core::specs::Value::limit))]
pub(crate) fn word(big: bool, bytes: &[u8], width: Width) -> Word
    requires { length bytes.now ≡ width.bytes }
    ensures value { result.value ≡ word_in big bytes.now }
    ensures width { result.width ≡ width }
{
    Word {
        value: word_of(big, bytes),
        width,
    }
}

/// The word of a space from an offset on.
#[tactic(auto, using(crate::proofs::Bytes::read_length))]
pub(crate) fn read(
    context: &CContext,
    memory: &ByteMap,
    space: u8,
    shape: Shape,
    offset: u64,
    width: Width,
) -> Result<Word, Memory>
    requires shape { HasShape context.now.listing.now space shape }
    requires inside { offset ≤ shape.last }
    ensures value { IfOk result
        (λ w. w.value ≡ word_in_bytes context.now.listing.now space offset width.bytes (bytes_of memory.now)) }
    ensures width { IfOk result (λ w. w.width ≡ width) }
{
    let bytes = memory.read(
        context.alloc,
        shape,
        space,
        offset,
        usize::from(width.bytes),
    )?;
    Ok(word(shape.big, bytes.as_slice(), width))
}

fn left_byte(left: &OffsetMap, offset: u64) -> u8
    ensures { result ≡ left_of left.now offset }
{
    match left.get(offset) {
        Some(byte) => byte,
        None => 0,
    }
}

/// So many bytes that the last answer left, from an offset on.
fn left_bytes(
    context: &CContext,
    left: &OffsetMap,
    shape: Shape,
    offset: u64,
    count: usize,
) -> Result<Vec<u8>, Memory>
    requires { offset ≤ shape.last }
    ensures { IfOk result (λ v. v.items ≡ bytes_at (size shape) (left_of left.now) offset count) }
{
    let mut out = Vec::new(context.alloc);
    let mut here = offset;
    for _ in 0..count {
        out.push(left_byte(left, here))?;
        here = shape.next(here);
    }
    Ok(out)
}

/// The word of the bytes that the last answer left, from an offset on.
#[tactic(auto, using(crate::proofs::Bytes::read_length))]
pub(crate) fn read_left(
    context: &CContext,
    left: &OffsetMap,
    offset: u64,
    width: Width,
) -> Result<Word, Memory>
    requires context { IsContext context.now }
    requires inside { offset + width.bytes ≤ size_of context.now.listing.now (register_space context.now.listing.now) }
    ensures value { IfOk result (λ w. w.value ≡ left_word context.now.listing.now offset width.bytes (left_of left.now)) }
    ensures width { IfOk result (λ w. w.width ≡ width) }
{
    let shape = context.registers;
    let bytes = left_bytes(context, left, shape, offset, usize::from(width.bytes))?;
    Ok(word(shape.big, bytes.as_slice(), width))
}
