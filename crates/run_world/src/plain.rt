//! The effects on a world whose memory is bytes alone.

ghost use Rattle.std.specs.Prelude.{◌≡◌, ◌≤◌, List, IfOk, OnOk};
ghost use Rattle.std.specs.List.{list_any};
ghost use Rattle.std.specs.Option.{option_copied};
ghost use Rattle.pcode_model.specs.Memory.{plain};
ghost use Rattle.pcode_model.specs.Spaces.{is_fixed};
ghost use Rattle.pcode_model.specs.World.{store, take_answer};
ghost use Rattle.run_world.specs.Log.{made, taken, world_of};
ghost use Rattle.run_world.specs.Maps.{bytes_of};
ghost use Rattle.run_world.specs.Meaning.{poked};
ghost use Rattle.run_world.specs.declared.entry.Answer.{Answer};
ghost use Rattle.run_world.specs.Setting.{HasShape, IsSetting};

use crate::byte_map::ByteMap;
use crate::entry::{Answer, Byte};
use crate::log::Log;
use crate::setting::Setting;
use crate::shape::Shape;
use crate::trace::{End, Event};
use bits_core::Memory;
use pcode_model::{Bytes, Listing};

/// Stores bytes in a space of that shape, which is observed; a store that meets a read-only byte ends the run.
pub fn store(
    listing: &Listing,
    setting: &Setting,
    log: &mut Log,
    memory: &mut ByteMap,
    shape: Shape,
    space: u8,
    address: u64,
    bytes: Bytes,
) -> Result<(), Memory>
    requires setting { IsSetting listing.now setting.now }
    requires shape { HasShape listing.now space shape }
    requires inside { address ≤ shape.last }
    ensures { OnOk result ((answers : List Answer)
        → world_of (bytes_of memory.new) answers log.new
        ≡ store (plain listing.now) space address bytes (world_of (bytes_of memory.old) answers log.old)) }
{
    if setting.fixed.meets(shape, space, address, bytes.len()) {
        log.end = Some(End::ReadOnlyWrite);
        return Ok(());
    }
    memory.write(shape, space, address, bytes.as_slice())?;
    log.events.push(Event::Store {
        space,
        offset: address,
        bytes,
    })?;
    Ok(())
}

// The end that the writes of an answer meet, if they meet a read-only byte.
fn refuses(listing: &Listing, setting: &Setting, bytes: &[Byte]) -> bool
    requires { IsSetting listing.now setting.now }
    ensures { result ≡ list_any (λ b. is_fixed listing.now b.space b.offset) bytes.now }
{
    for b in bytes {
        if setting.fixed.get(b.space, b.offset).is_some() {
            return true;
        }
    }
    false
}

// Takes the bytes of an answer in, in order.
fn write_bytes(memory: &mut ByteMap, bytes: &[Byte]) -> Result<(), Memory>
    ensures { OnOk result (bytes_of memory.new ≡ poked bytes.now (bytes_of memory.old)) }
{
    for b in bytes {
        memory.put(b.space, b.offset, b.value)?;
    }
    Ok(())
}

/// Takes the next answer and makes its memory writes. None where that ends the run.
pub fn take_answer<'a>(
    listing: &Listing,
    setting: &Setting,
    log: &mut Log,
    memory: &mut ByteMap,
    answers: &'a [Answer],
) -> Result<Option<&'a Answer>, Memory>
    requires { IsSetting listing.now setting.now }
    ensures { IfOk result (λ answer. taken (option_copied answer) (world_of (bytes_of memory.new) answers.now log.new)
        ≡ take_answer (plain listing.now) (world_of (bytes_of memory.old) answers.now log.old)) }
{
    let Some(answer) = answers.get(log.taken) else {
        log.end = Some(End::NoAnswer);
        return Ok(None);
    };
    if refuses(listing, setting, answer.memory.as_slice()) {
        log.end = Some(End::ReadOnlyWrite);
        return Ok(None);
    }
    write_bytes(memory, answer.memory.as_slice())?;
    log.taken += 1;
    Ok(Some(answer))
}
