//! The frame of a listing as its run looks it up: which accesses are those of frame variables, and which bytes are theirs.
//! Accesses and variables stand in order, so that they are searched by halves.

ghost use Rattle.std.specs.Prelude.{◌≡◌, slice_get};
ghost use Rattle.std.specs.List.{AllByRecursion};
ghost use Rattle.pcode_model.specs.Frame.{framed_in, own_in, wrapped};
ghost use Rattle.pcode_model.specs.Places.{place};
ghost use Rattle.run_world.specs.Setting.{size};
ghost use Rattle.pcode_memory.specs.Frame.{ComesBefore, EndsBefore, IsNear, Rise, any_holds, comes_before, ends_by, first_past, is_at};

use pcode_model::{Frame, FrameAccess, FrameVariable};
use run_world::Shape;

// An offset from the stack pointer's entry word, as a number below the size of the space.
fn wrapped(ram: Shape, offset: i32) -> u64
    ensures { result ≡ wrapped (size ram) offset }
{
    let size = i128::from(ram.last) + 1;
    i128::from(offset).rem_euclid(size) as u64
}

// Whether an access comes before the one at a place with a number.
fn comes_before(access: &FrameAccess, address: u128, index: u32, argument: u32) -> bool
    ensures { result ≡ comes_before access.now (place address index) argument }
{
    let here = u128::from(access.place.address);
    let at = access.place.index;
    here < address
        || (here == address && (at < index || (at == index && access.argument < argument)))
}

fn is_at(access: &FrameAccess, address: u128, index: u32, argument: u32) -> bool
    ensures { result ≡ is_at access.now (place address index) argument }
{
    u128::from(access.place.address) == address
        && access.place.index == index
        && access.argument == argument
}

// How many accesses come before the one at a place with a number.
fn accesses_before(accesses: &[FrameAccess], address: u128, index: u32, argument: u32) -> usize
    requires { Rise ComesBefore accesses.now }
    ensures { slice_get accesses.now result ≡ first_past (λ a. comes_before a (place address index) argument) accesses.now }
{
    accesses.partition_point(
        |access: &FrameAccess| -> bool
            ensures { result ≡ comes_before access.now (place address index) argument }
        { comes_before(access, address, index, argument) },
    )
}

/// The offset of the frame variable's access at a place with that number, where it is one, below the size of the space.
pub fn own(frame: &Frame, ram: Shape, address: u128, index: u32, argument: u32) -> Option<u64>
    requires { Rise ComesBefore frame.now.accesses }
    ensures { result ≡ own_in (size ram) frame.now.accesses (place address index) argument }
{
    let accesses = frame.accesses.as_slice();
    let past = accesses_before(accesses, address, index, argument);
    let Some(access) = accesses.get(past) else {
        return None;
    };
    if is_at(access, address, index, argument) {
        Some(wrapped(ram, access.offset))
    } else {
        None
    }
}

// How many variables end by a signed offset.
fn variables_before(variables: &[FrameVariable], offset: i128) -> usize
    requires { Rise EndsBefore variables.now }
    ensures { slice_get variables.now result ≡ first_past (λ v. ends_by v offset) variables.now }
{
    variables.partition_point(
        |variable: &FrameVariable| -> bool
            ensures { result ≡ ends_by variable.now offset }
        { i128::from(variable.offset) + i128::from(variable.size) <= offset },
    )
}

// Whether the byte at a signed offset is one of a variable's.
fn any_holds(variables: &[FrameVariable], offset: i128) -> bool
    requires { Rise EndsBefore variables.now }
    ensures { result ≡ any_holds variables.now offset }
{
    match variables.get(variables_before(variables, offset)) {
        Some(variable) => i128::from(variable.offset) <= offset,
        None => false,
    }
}

/// Whether the byte at an offset from the stack pointer's entry word is one of a frame variable: at the offset itself, or
/// as far below that word as the space goes on at 0.
pub fn is_framed(frame: &Frame, ram: Shape, offset: u128) -> bool
    requires rising { Rise EndsBefore frame.now.variables }
    requires near { AllByRecursion (IsNear (size ram)) frame.now.variables }
    ensures { result ≡ framed_in (size ram) frame.now.variables offset }
{
    let variables = frame.variables.as_slice();
    let above = i128::from(ram.reduce(offset));
    any_holds(variables, above) || any_holds(variables, above - i128::from(ram.last) - 1)
}
