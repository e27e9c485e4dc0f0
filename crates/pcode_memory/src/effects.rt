//! The effects on the world.

ghost use Rattle.std.specs.Prelude.{◌≡◌, ◌≤◌, IfOk, OnOk};
ghost use Rattle.std.specs.Option.{option_copied};
ghost use Rattle.pcode_model.specs.Memory.{whole};
ghost use Rattle.pcode_model.specs.World.{store, take_answer};
ghost use Rattle.run_world.specs.Log.{taken, world_of};
ghost use Rattle.run_world.specs.Setting.{HasShape};
ghost use Rattle.pcode_memory.specs.Context.{IsContext, layout_of, whole_of};
ghost use Rattle.pcode_memory.specs.Effects.{concealed, first_refused, poked, refused};

use crate::context::PcodeContext;
use crate::whole::Whole;
use bits_core::Memory;
use pcode_model::Bytes;
use run_world::{Answer, Byte, End, Event, Log, Shape};

/// Stores bytes by a pointer, which is observed; a store that meets a byte of a frame variable or a read-only one ends
/// the run.
pub fn store(
    context: &PcodeContext,
    memory: &mut Whole,
    log: &mut Log,
    shape: Shape,
    space: u8,
    address: u64,
    bytes: Bytes,
) -> Result<(), Memory>
    requires context { IsContext context.now }
    requires shape { HasShape context.now.listing.now space shape }
    requires inside { address ≤ shape.last }
    ensures { OnOk result (world_of (whole_of memory.new) context.now.answers.now log.new
        ≡ store (whole (layout_of context.now)) space address bytes
        (world_of (whole_of memory.old) context.now.answers.now log.old)) }
{
    if context.any_framed(shape, space, address, bytes.len()) {
        log.end = Some(End::Outside);
        return Ok(());
    }
    if context
        .setting
        .fixed
        .meets(shape, space, address, bytes.len())
    {
        log.end = Some(End::ReadOnlyWrite);
        return Ok(());
    }
    memory.write(context, shape, space, address, bytes.as_slice())?;
    log.events.push(Event::Store {
        space,
        offset: address,
        bytes,
    })?;
    Ok(())
}

// The end that a write of an answer meets.
fn refused(context: &PcodeContext, byte: Byte) -> Option<End>
    requires { IsContext context.now }
    ensures { result ≡ refused (layout_of context.now) byte }
{
    if context.is_framed(byte.space, byte.offset) {
        return Some(End::Outside);
    }
    if context.setting.fixed.get(byte.space, byte.offset).is_some() {
        return Some(End::ReadOnlyWrite);
    }
    None
}

// The end that the first such write of an answer meets.
fn first_refused(context: &PcodeContext, bytes: &[Byte]) -> Option<End>
    requires { IsContext context.now }
    ensures { result ≡ first_refused (layout_of context.now) bytes.now }
{
    for b in bytes {
        if let Some(end) = refused(context, *b) {
            return Some(end);
        }
    }
    None
}

fn write_bytes(context: &PcodeContext, memory: &mut Whole, bytes: &[Byte]) -> Result<(), Memory>
    requires { IsContext context.now }
    ensures { OnOk result (whole_of memory.new ≡ poked context.now.listing.now bytes.now (whole_of memory.old)) }
{
    for b in bytes {
        memory.poke(context, b.space, b.offset, b.value)?;
    }
    Ok(())
}

fn hide_bytes(context: &PcodeContext, memory: &mut Whole, bytes: &[Byte]) -> Result<(), Memory>
    requires { IsContext context.now }
    ensures { OnOk result (whole_of memory.new ≡ concealed (layout_of context.now) bytes.now (whole_of memory.old)) }
{
    for b in bytes {
        memory.conceal(context, b.offset, b.value)?;
    }
    Ok(())
}

/// Takes the next answer, and makes its memory writes and then its hidden writes. None where that ends the run.
pub fn take_answer<'a>(
    context: &PcodeContext<'a>,
    memory: &mut Whole,
    log: &mut Log,
) -> Result<Option<&'a Answer>, Memory>
    requires { IsContext context.now }
    ensures { IfOk result
        (λ answer. taken (option_copied answer) (world_of (whole_of memory.new) context.now.answers.now log.new)
        ≡ take_answer (whole (layout_of context.now))
        (world_of (whole_of memory.old) context.now.answers.now log.old)) }
{
    let Some(answer) = context.answers.get(log.taken) else {
        log.end = Some(End::NoAnswer);
        return Ok(None);
    };
    if let Some(end) = first_refused(context, answer.memory.as_slice()) {
        log.end = Some(end);
        return Ok(None);
    }
    write_bytes(context, memory, answer.memory.as_slice())?;
    hide_bytes(context, memory, answer.hidden.as_slice())?;
    log.taken += 1;
    Ok(Some(answer))
}
