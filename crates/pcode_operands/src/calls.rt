//! Registers after a call.

ghost use Rattle.std.specs.Prelude.{◌≡◌, ◌≤◌, ◌+◌, ℕ, Option, IfSome, None, Some, OnOk};
ghost use Rattle.std.specs.List.{AllByRecursion};
ghost use Rattle.pcode_model.specs.Spaces.{put};
ghost use Rattle.pcode_model.specs.Step.{after_call, after_callee, in_range, with_pop, with_result};
ghost use Rattle.run_world.specs.Maps.{at, bytes_of};
ghost use Rattle.run_world.specs.Meaning.{answer_of, with_offsets};
ghost use Rattle.pcode_memory.specs.Context.{IsContext};
ghost use Rattle.pcode_operands.specs.Calls.{Ends, HoldsTo, forgotten, is_held, mixed};
ghost use Rattle.pcode_operands.specs.Used.{IsLocal, IsStack};

use crate::operands::local_word;
use crate::writes::{reduced, write_local};
use bits_core::{Memory, Word};
use pcode_memory::PcodeContext;
use pcode_model::{Proto, Varnode};
use run_world::{Answer, Byte, ByteMap};

// The last offset of a range, where it holds this offset.
fn last_in(v: Varnode, offset: u64) -> Option<u64>
    requires { Ends v }
    ensures { HoldsTo (in_range v) offset result }
{
    let last = v.offset + u64::from(v.size - 1);
    if v.offset <= offset && offset <= last {
        Some(last)
    } else {
        None
    }
}

// The last offset of a range that a call leaves as it is, where one holds this offset.
fn held(keep: &[Varnode], stack: Option<Varnode>, offset: u64) -> Option<u64>
    requires keep { AllByRecursion Ends keep.now }
    requires stack { IfSome stack Ends }
    ensures { HoldsTo (is_held keep.now stack) offset result }
{
    for v in keep {
        if let Some(last) = last_in(*v, offset) {
            return Some(last);
        }
    }
    match stack {
        Some(v) => last_in(v, offset),
        None => None,
    }
}

// Forgets the byte at an offset, or passes the bytes from there on that a call leaves as they are. The last offset that is
// done with.
fn pass(local: &mut ByteMap, space: u8, keep: &[Varnode], stack: Option<Varnode>, here: u64) -> u64
    requires keep { AllByRecursion Ends keep.now }
    requires stack { IfSome stack Ends }
    ensures later { here ≤ result }
    ensures left { (g : ℕ → ℕ → Option ℕ)
        → at local.old ≡ forgotten (is_held keep.now stack) space here g
        → at local.new ≡ forgotten (is_held keep.now stack) space (result + 1) g }
{
    match held(keep, stack, here) {
        Some(last) => last,
        None => {
            local.remove(space, here);
            here
        }
    }
}

// Forgets the bytes of the register space that a call doesn't leave as they are.
fn forget(local: &mut ByteMap, space: u8, keep: &[Varnode], stack: Option<Varnode>)
    requires keep { AllByRecursion Ends keep.now }
    requires stack { IfSome stack Ends }
    ensures { at local.new ≡ mixed (is_held keep.now stack) space (λ o. None) (at local.old) }
{
    let mut here = 0u64;
    loop {
        let last = pass(local, space, keep, stack, here);
        match local.after(space, last) {
            Some(next) => here = next,
            None => return,
        }
    }
}

// Takes in a byte that an answer leaves, where a call doesn't leave the register's byte as it is.
fn take_byte(
    local: &mut ByteMap,
    space: u8,
    keep: &[Varnode],
    stack: Option<Varnode>,
    byte: Byte,
) -> Result<(), Memory>
    requires keep { AllByRecursion Ends keep.now }
    requires stack { IfSome stack Ends }
    ensures { OnOk result ((g : ℕ → ℕ → Option ℕ)
        → (f : ℕ → Option ℕ)
        → at local.old ≡ mixed (is_held keep.now stack) space f g
        → at local.new ≡ mixed (is_held keep.now stack) space (put f byte.offset (Some byte.value)) g) }
{
    match held(keep, stack, byte.offset) {
        Some(_) => Ok(()),
        None => {
            local.put(space, byte.offset, byte.value)?;
            Ok(())
        }
    }
}

// Takes in the bytes that an answer leaves in the other registers.
fn take_in(
    local: &mut ByteMap,
    space: u8,
    keep: &[Varnode],
    stack: Option<Varnode>,
    bytes: &[Byte],
) -> Result<(), Memory>
    requires keep { AllByRecursion Ends keep.now }
    requires stack { IfSome stack Ends }
    ensures { OnOk result ((g : ℕ → ℕ → Option ℕ)
        → at local.old ≡ mixed (is_held keep.now stack) space (λ o. None) g
        → at local.new ≡ mixed (is_held keep.now stack) space (with_offsets bytes.now (λ o. None)) g) }
{
    for b in bytes {
        take_byte(local, space, keep, stack, *b)?;
    }
    Ok(())
}

// The registers with an answer's bytes where a call doesn't leave them as they are.
fn change_registers(
    context: &PcodeContext,
    local: &mut ByteMap,
    proto: &Proto,
    answer: &Answer,
) -> Result<(), Memory>
    requires context { IsContext context.now }
    requires keep { AllByRecursion Ends proto.now.keep }
    requires stack { IfSome context.now.listing.now.stack Ends }
    ensures { OnOk result (bytes_of local.new
        ≡ after_callee context.now.listing.now proto.now (answer_of answer.now) (bytes_of local.old)) }
{
    let space = context.setting.registers;
    let stack = context.listing.stack;
    let keep = proto.keep.as_slice();
    forget(local, space, keep, stack);
    take_in(local, space, keep, stack, answer.registers.as_slice())?;
    Ok(())
}

fn put_result(
    context: &PcodeContext,
    local: &mut ByteMap,
    gives: Option<Varnode>,
    word: u128,
) -> Result<(), Memory>
    requires { IfSome gives (IsLocal context.now.listing.now) }
    ensures { OnOk result (bytes_of local.new ≡ with_result context.now.listing.now gives word (bytes_of local.old)) }
{
    match gives {
        Some(v) => write_local(context, local, v, reduced(word, v.size)),
        None => Ok(()),
    }
}

fn raise_stack(
    context: &PcodeContext,
    local: &mut ByteMap,
    stack: Option<Varnode>,
    pop: u32,
) -> Result<(), Memory>
    requires { IfSome stack (IsStack context.now.listing.now) }
    ensures { OnOk result (bytes_of local.new ≡ with_pop context.now.listing.now stack pop (bytes_of local.old)) }
{
    match stack {
        Some(v) => {
            let word = local_word(context, local, v)?;
            let raised = reduced(raise(word, pop), v.size);
            write_local(context, local, v, raised)
        }
        None => Ok(()),
    }
}

// A word of at most 8 bytes, and a number added.
fn raise(word: Word, by: u32) -> u128
    requires { word.width.bytes ≤ 8 }
    ensures { result ≡ word.value + by }
{
    word.value + u128::from(by)
}

/// The registers after a call: the answer's bytes where they aren't left as they are, then its word in the result's
/// range, and the stack pointer higher by the pop count.
pub fn after_call(
    context: &PcodeContext,
    local: &mut ByteMap,
    proto: &Proto,
    answer: &Answer,
) -> Result<(), Memory>
    requires context { IsContext context.now }
    requires keep { AllByRecursion Ends proto.now.keep }
    requires gives { IfSome proto.now.gives (IsLocal context.now.listing.now) }
    requires stack { IfSome context.now.listing.now.stack (IsStack context.now.listing.now) }
    ensures { OnOk result (bytes_of local.new
        ≡ after_call context.now.listing.now proto.now (answer_of answer.now) (bytes_of local.old)) }
{
    change_registers(context, local, proto, answer)?;
    put_result(context, local, proto.gives, answer.word)?;
    raise_stack(context, local, context.listing.stack, proto.pop)
}
