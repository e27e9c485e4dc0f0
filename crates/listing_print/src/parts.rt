//! Parts of lines.

ghost use Rattle.std.specs.Prelude.{◌≡◌, ◌<◌, ◌∷◌, ◌++◌, [], OnOk, decimal, false, map, slice_get};
ghost use Rattle.std.specs.Fmt.{digit_glyph};
ghost use Rattle.listing_print.specs.Printed.{hexadecimal, name_of, pairs, place_part, proto_name, range_part, sized_part, spaced, storage_part};
ghost use Rattle.operations.specs.Words.{word_of};

use operations::Operation;
use pcode_model::{Opcode, Proto, Space, Storage, Varnode};
use std::alloc::{AllocError, Global};

/// Writes bytes.
pub fn put(out: &mut Vec<u8>, bytes: &[u8]) -> Result<(), AllocError>
    ensures { OnOk result (out.new.items ≡ out.old.items ++ bytes.now) }
{
    out.extend_from_slice(bytes)?;
    Ok(())
}

/// Writes a space and a part.
pub fn part(out: &mut Vec<u8>, bytes: &[u8]) -> Result<(), AllocError>
    ensures { OnOk result (out.new.items ≡ out.old.items ++ spaced (bytes.now ∷ [])) }
{
    put(out, b" ")?;
    put(out, bytes)
}

/// Writes a space and a decimal number.
pub fn decimal_part(alloc: Global, out: &mut Vec<u8>, n: u32) -> Result<(), AllocError>
    ensures { OnOk result (out.new.items ≡ out.old.items ++ spaced (decimal n ∷ [])) }
{
    let text = n.to_string(alloc)?;
    part(out, text.as_bytes())
}

/// Writes a space and a hexadecimal number.
pub fn hexadecimal_part(alloc: Global, out: &mut Vec<u8>, n: u64) -> Result<(), AllocError>
    ensures { OnOk result (out.new.items ≡ out.old.items ++ spaced (hexadecimal n ∷ [])) }
{
    let text = format!(in alloc; "0x{n:x}")?;
    part(out, text.as_bytes())
}

/// The name of the space with that number, or nothing.
pub fn name(spaces: &[Space], number: usize) -> &[u8]
    ensures { result.now ≡ name_of spaces.now number }
{
    match spaces.get(number) {
        Some(space) => space.name.as_slice(),
        None => &[],
    }
}

/// The name of the prototype with that number, or nothing.
pub fn proto(protos: &[Proto], number: usize) -> &[u8]
    ensures { result.now ≡ proto_name (slice_get protos.now number) }
{
    match protos.get(number) {
        Some(proto) => proto.name.as_slice(),
        None => &[],
    }
}

/// Writes a space and a place.
pub fn place(alloc: Global, out: &mut Vec<u8>, name: &[u8], offset: u64) -> Result<(), AllocError>
    ensures { OnOk result (out.new.items ≡ out.old.items ++ spaced (place_part name.now offset ∷ [])) }
{
    let text = format!(in alloc; ":0x{offset:x}")?;
    part(out, name)?;
    put(out, text.as_bytes())
}

fn sized(
    alloc: Global,
    out: &mut Vec<u8>,
    name: &[u8],
    offset: u64,
    size: u32,
) -> Result<(), AllocError>
    ensures { OnOk result (out.new.items ≡ out.old.items ++ spaced (sized_part name.now offset size ∷ [])) }
{
    let text = format!(in alloc; ":0x{offset:x}:{size}")?;
    part(out, name)?;
    put(out, text.as_bytes())
}

/// Writes a space and a range.
pub fn range(
    alloc: Global,
    out: &mut Vec<u8>,
    spaces: &[Space],
    v: Varnode,
) -> Result<(), AllocError>
    ensures { OnOk result (out.new.items ≡ out.old.items ++ spaced (range_part spaces.now v ∷ [])) }
{
    sized(alloc, out, name(spaces, v.space as usize), v.offset, v.size)
}

/// Writes ranges, each after a space.
pub fn ranges(
    alloc: Global,
    out: &mut Vec<u8>,
    spaces: &[Space],
    list: &[Varnode],
) -> Result<(), AllocError>
    ensures { OnOk result (out.new.items ≡ out.old.items ++ spaced (map (range_part spaces.now) list.now)) }
{
    for v in list {
        range(alloc, out, spaces, *v)?;
    }
    Ok(())
}

fn storage(
    alloc: Global,
    out: &mut Vec<u8>,
    spaces: &[Space],
    storage: Storage,
) -> Result<(), AllocError>
    ensures { OnOk result (out.new.items ≡ out.old.items ++ spaced (storage_part spaces.now storage ∷ [])) }
{
    match storage {
        Storage::At(v) => range(alloc, out, spaces, v),
        Storage::Stack { offset, size } => sized(alloc, out, b"stack", u64::from(offset), size),
    }
}

/// Writes storages, each after a space.
pub fn storages(
    alloc: Global,
    out: &mut Vec<u8>,
    spaces: &[Space],
    list: &[Storage],
) -> Result<(), AllocError>
    ensures { OnOk result (out.new.items ≡ out.old.items ++ spaced (map (storage_part spaces.now) list.now)) }
{
    for s in list {
        storage(alloc, out, spaces, *s)?;
    }
    Ok(())
}

fn glyph(d: u8) -> u8
    requires { d < 16 }
    ensures { result ≡ digit_glyph false d }
{
    if d < 10 { 48 + d } else { 87 + d }
}

/// Writes two digits a byte.
pub fn put_pairs(out: &mut Vec<u8>, bytes: &[u8]) -> Result<(), AllocError>
    ensures { OnOk result (out.new.items ≡ out.old.items ++ pairs bytes.now) }
{
    for b in bytes {
        out.push(glyph(*b / 16))?;
        out.push(glyph(*b % 16))?;
    }
    Ok(())
}

/// Writes a space and the word of an operation.
pub fn word(out: &mut Vec<u8>, code: &Opcode) -> Result<(), AllocError>
    ensures { OnOk result (out.new.items ≡ out.old.items ++ spaced (word_of code.now ∷ [])) }
{
    match code {
        Opcode::Unary(op) => part(out, Operation::Unary(*op).word()),
        Opcode::Binary(op) => part(out, Operation::Binary(*op).word()),
        Opcode::Divide(op) => part(out, Operation::Divide(*op).word()),
        Opcode::Load => part(out, Operation::Load.word()),
        Opcode::Store => part(out, Operation::Store.word()),
        Opcode::Branch => part(out, Operation::Branch.word()),
        Opcode::CBranch => part(out, Operation::CBranch.word()),
        Opcode::BranchInd => part(out, Operation::BranchInd.word()),
        Opcode::Call => part(out, Operation::Call.word()),
        Opcode::CallInd => part(out, Operation::CallInd.word()),
        Opcode::CallOther => part(out, Operation::CallOther.word()),
        Opcode::Return => part(out, Operation::Return.word()),
        Opcode::Float(more) => {
            part(out, b"FLOAT_")?;
            put(out, more.as_slice())
        }
        Opcode::FloatConversion(op) => part(out, Operation::FloatConversion(*op).word()),
        Opcode::Analysis(op) => part(out, Operation::Analysis(*op).word()),
        Opcode::LeftOut(op) => part(out, Operation::LeftOut(*op).word()),
    }
}
