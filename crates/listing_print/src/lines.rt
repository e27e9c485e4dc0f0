//! Lines of a listing's text.

ghost use Rattle.std.specs.Prelude.{◌≡◌, ◌∷◌, ◌++◌, [], OnOk};
ghost use Rattle.listing_print.specs.Printed.{at_line, bytes_line, ended, function_line, kind_word, op_line, order_word, output_parts, proto_back, proto_front, proto_line, result_part, returns_parts, space_line, spaced, stack_line, version_line, word_parts};

use crate::parts::{
    decimal_part, hexadecimal_part, name, part, place, proto, put, put_pairs, range, ranges,
    storages, word,
};
use pcode_model::ranges::number_of;
use pcode_model::{Fixed, Function, Instruction, Op, Proto, Space, SpaceKind, Varnode};
use std::alloc::{AllocError, Global};

/// `pcode N`
pub fn version_line(alloc: Global, out: &mut Vec<u8>, version: u8) -> Result<(), AllocError>
    ensures { OnOk result (out.new.items ≡ out.old.items ++ ended (version_line version ∷ [])) }
{
    put(out, b"pcode")?;
    decimal_part(alloc, out, u32::from(version))?;
    put(out, b"\n")
}

fn kind_word(kind: SpaceKind) -> &'static [u8]
    ensures { result.now ≡ kind_word kind }
{
    match kind {
        SpaceKind::Constant => b"const".as_slice(),
        SpaceKind::Ram => b"ram".as_slice(),
        SpaceKind::Register => b"register".as_slice(),
        SpaceKind::Unique => b"unique".as_slice(),
    }
}

fn order_word(big: bool) -> &'static [u8]
    ensures { result.now ≡ order_word big }
{
    if big {
        b"be".as_slice()
    } else {
        b"le".as_slice()
    }
}

// The bytes of a word, in version 2.
fn word_size(alloc: Global, out: &mut Vec<u8>, version: u8, space: &Space) -> Result<(), AllocError>
    ensures { OnOk result (out.new.items ≡ out.old.items ++ spaced (word_parts version space.now)) }
{
    if version == 2 {
        return decimal_part(alloc, out, u32::from(space.word));
    }
    Ok(())
}

/// `space NAME KIND SIZE ORDER`, and in version 2 the bytes of a word.
pub fn space_line(
    alloc: Global,
    out: &mut Vec<u8>,
    version: u8,
    space: &Space,
) -> Result<(), AllocError>
    ensures { OnOk result (out.new.items ≡ out.old.items ++ ended (space_line version space.now ∷ [])) }
{
    put(out, b"space")?;
    part(out, space.name.as_slice())?;
    part(out, kind_word(space.kind))?;
    decimal_part(alloc, out, u32::from(space.size))?;
    part(out, order_word(space.big))?;
    word_size(alloc, out, version, space)?;
    put(out, b"\n")
}

/// `stack VN`
pub fn stack_line(
    alloc: Global,
    out: &mut Vec<u8>,
    spaces: &[Space],
    stack: Varnode,
) -> Result<(), AllocError>
    ensures { OnOk result (out.new.items ≡ out.old.items ++ ended (stack_line spaces.now stack ∷ [])) }
{
    put(out, b"stack")?;
    range(alloc, out, spaces, stack)?;
    put(out, b"\n")
}

// A result, or `none`.
fn gives(
    alloc: Global,
    out: &mut Vec<u8>,
    spaces: &[Space],
    storage: Option<Varnode>,
) -> Result<(), AllocError>
    ensures { OnOk result (out.new.items ≡ out.old.items ++ spaced (result_part spaces.now storage ∷ [])) }
{
    match storage {
        Some(v) => range(alloc, out, spaces, v),
        None => part(out, b"none"),
    }
}

// `proto NAME args STORE*`
fn proto_front(
    alloc: Global,
    out: &mut Vec<u8>,
    spaces: &[Space],
    p: &Proto,
) -> Result<(), AllocError>
    ensures { OnOk result (out.new.items ≡ out.old.items ++ proto_front spaces.now p.now) }
{
    put(out, b"proto")?;
    part(out, p.name.as_slice())?;
    part(out, b"args")?;
    storages(alloc, out, spaces, p.args.as_slice())
}

// `result VN|none pop HEX keep VN*`
fn proto_back(
    alloc: Global,
    out: &mut Vec<u8>,
    spaces: &[Space],
    p: &Proto,
) -> Result<(), AllocError>
    ensures { OnOk result (out.new.items ≡ out.old.items ++ proto_back spaces.now p.now) }
{
    part(out, b"result")?;
    gives(alloc, out, spaces, p.gives)?;
    part(out, b"pop")?;
    hexadecimal_part(alloc, out, u64::from(p.pop))?;
    part(out, b"keep")?;
    ranges(alloc, out, spaces, p.keep.as_slice())
}

/// `proto NAME args STORE* result VN|none pop HEX keep VN*`
pub fn proto_line(
    alloc: Global,
    out: &mut Vec<u8>,
    spaces: &[Space],
    p: &Proto,
) -> Result<(), AllocError>
    ensures { OnOk result (out.new.items ≡ out.old.items ++ ended (proto_line spaces.now p.now ∷ [])) }
{
    proto_front(alloc, out, spaces, p)?;
    proto_back(alloc, out, spaces, p)?;
    put(out, b"\n")
}

// `noreturn`, for a callee that doesn't return.
fn returns(out: &mut Vec<u8>, returns: bool) -> Result<(), AllocError>
    ensures { OnOk result (out.new.items ≡ out.old.items ++ spaced (returns_parts returns)) }
{
    if returns {
        return Ok(());
    }
    part(out, b"noreturn")
}

/// `func` or `callee`, and then `NAME SPACE:HEX PROTO`, and `noreturn` where it doesn't return.
pub fn function_line(
    alloc: Global,
    out: &mut Vec<u8>,
    word: &[u8],
    spaces: &[Space],
    protos: &[Proto],
    f: &Function,
) -> Result<(), AllocError>
    ensures { OnOk result (out.new.items ≡ out.old.items ++ ended (function_line word.now spaces.now protos.now f.now ∷ [])) }
{
    put(out, word)?;
    part(out, f.name.as_slice())?;
    place(
        alloc,
        out,
        name(spaces, number_of(SpaceKind::Ram, spaces)),
        f.address,
    )?;
    part(out, proto(protos, f.proto as usize))?;
    returns(out, f.returns)?;
    put(out, b"\n")
}

/// `bytes SPACE:HEX PAIRS`
pub fn bytes_line(
    alloc: Global,
    out: &mut Vec<u8>,
    spaces: &[Space],
    f: &Fixed,
) -> Result<(), AllocError>
    ensures { OnOk result (out.new.items ≡ out.old.items ++ ended (bytes_line spaces.now f.now ∷ [])) }
{
    put(out, b"bytes")?;
    place(alloc, out, name(spaces, f.space as usize), f.offset)?;
    put(out, b" ")?;
    put_pairs(out, f.bytes.as_slice())?;
    put(out, b"\n")
}

/// `at HEX LENGTH`
pub fn at_line(alloc: Global, out: &mut Vec<u8>, i: &Instruction) -> Result<(), AllocError>
    ensures { OnOk result (out.new.items ≡ out.old.items ++ ended (at_line i.now ∷ [])) }
{
    put(out, b"at")?;
    hexadecimal_part(alloc, out, i.address)?;
    decimal_part(alloc, out, i.length)?;
    put(out, b"\n")
}

// `VN =`, where there is an output.
fn output(
    alloc: Global,
    out: &mut Vec<u8>,
    spaces: &[Space],
    output: Option<Varnode>,
) -> Result<(), AllocError>
    ensures { OnOk result (out.new.items ≡ out.old.items ++ spaced (output_parts spaces.now output)) }
{
    match output {
        Some(v) => {
            range(alloc, out, spaces, v)?;
            part(out, b"=")
        }
        None => Ok(()),
    }
}

/// `  VN = OPCODE VN*` or `  OPCODE VN*`
pub fn op_line(
    alloc: Global,
    out: &mut Vec<u8>,
    spaces: &[Space],
    op: &Op,
) -> Result<(), AllocError>
    ensures { OnOk result (out.new.items ≡ out.old.items ++ ended (op_line spaces.now op.now ∷ [])) }
{
    put(out, b" ")?;
    output(alloc, out, spaces, op.out)?;
    word(out, &op.code)?;
    ranges(alloc, out, spaces, op.inputs.as_slice())?;
    put(out, b"\n")
}
