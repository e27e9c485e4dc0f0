//! The whole text.

ghost use Rattle.std.specs.Prelude.{◌≡◌, ◌++◌, IfOk, OnOk, codes, map};
ghost use Rattle.listing_print.specs.Printed.{body_text, bytes_line, code_text, declared, ended, function_line, header_text, op_line, proto_line, space_line, stack_lines, text_of};

use crate::lines::{
    at_line, bytes_line, function_line, op_line, proto_line, space_line, stack_line, version_line,
};
use crate::parts::put;
use bits_core::Memory;
use pcode_model::{Fixed, Function, Instruction, Listing, Op, Proto, Space, Text, Varnode};
use std::alloc::{AllocError, Global};

/// The canonical text of a listing: no skipped lines, lower case, no leading zeros, LF alone.
pub fn print_listing(alloc: Global, listing: &Listing) -> Result<Text, Memory>
    ensures { IfOk result (λ text. text.items ≡ text_of listing.now) }
{
    let mut out = Vec::new(alloc);
    header(alloc, &mut out, listing)?;
    body(alloc, &mut out, listing)?;
    Ok(out)
}

// All but the read-only bytes and the code.
fn header(alloc: Global, out: &mut Vec<u8>, listing: &Listing) -> Result<(), AllocError>
    ensures { OnOk result (out.new.items ≡ out.old.items ++ header_text listing.now) }
{
    let spaces = listing.spaces.as_slice();
    let protos = listing.protos.as_slice();
    version_line(alloc, out, listing.version)?;
    space_lines(alloc, out, listing.version, declared(spaces))?;
    stack(alloc, out, spaces, listing.stack)?;
    proto_lines(alloc, out, spaces, protos)?;
    function_line(alloc, out, b"func", spaces, protos, &listing.func)?;
    callee_lines(alloc, out, spaces, protos, listing.callees.as_slice())
}

// The read-only bytes and the code.
fn body(alloc: Global, out: &mut Vec<u8>, listing: &Listing) -> Result<(), AllocError>
    ensures { OnOk result (out.new.items ≡ out.old.items ++ body_text listing.now) }
{
    let spaces = listing.spaces.as_slice();
    bytes_lines(alloc, out, spaces, listing.fixed.as_slice())?;
    code_lines(alloc, out, spaces, listing.code.as_slice())?;
    put(out, b"end\n")
}

// The spaces but for the constant one.
fn declared(spaces: &[Space]) -> &[Space]
    ensures { result.now ≡ declared spaces.now }
{
    match spaces {
        [] => spaces,
        [_, declared @ ..] => declared,
    }
}

fn space_lines(
    alloc: Global,
    out: &mut Vec<u8>,
    version: u8,
    list: &[Space],
) -> Result<(), AllocError>
    ensures { OnOk result (out.new.items ≡ out.old.items ++ ended (map (space_line version) list.now)) }
{
    for space in list {
        space_line(alloc, out, version, space)?;
    }
    Ok(())
}

fn stack(
    alloc: Global,
    out: &mut Vec<u8>,
    spaces: &[Space],
    range: Option<Varnode>,
) -> Result<(), AllocError>
    ensures { OnOk result (out.new.items ≡ out.old.items ++ ended (stack_lines spaces.now range)) }
{
    match range {
        Some(v) => stack_line(alloc, out, spaces, v),
        None => Ok(()),
    }
}

fn proto_lines(
    alloc: Global,
    out: &mut Vec<u8>,
    spaces: &[Space],
    list: &[Proto],
) -> Result<(), AllocError>
    ensures { OnOk result (out.new.items ≡ out.old.items ++ ended (map (proto_line spaces.now) list.now)) }
{
    for proto in list {
        proto_line(alloc, out, spaces, proto)?;
    }
    Ok(())
}

fn callee_lines(
    alloc: Global,
    out: &mut Vec<u8>,
    spaces: &[Space],
    protos: &[Proto],
    list: &[Function],
) -> Result<(), AllocError>
    ensures { OnOk result (out.new.items ≡ out.old.items ++ ended (map (function_line (codes "callee") spaces.now protos.now) list.now)) }
{
    for function in list {
        function_line(alloc, out, b"callee", spaces, protos, function)?;
    }
    Ok(())
}

fn bytes_lines(
    alloc: Global,
    out: &mut Vec<u8>,
    spaces: &[Space],
    list: &[Fixed],
) -> Result<(), AllocError>
    ensures { OnOk result (out.new.items ≡ out.old.items ++ ended (map (bytes_line spaces.now) list.now)) }
{
    for fixed in list {
        bytes_line(alloc, out, spaces, fixed)?;
    }
    Ok(())
}

fn op_lines(
    alloc: Global,
    out: &mut Vec<u8>,
    spaces: &[Space],
    list: &[Op],
) -> Result<(), AllocError>
    ensures { OnOk result (out.new.items ≡ out.old.items ++ ended (map (op_line spaces.now) list.now)) }
{
    for op in list {
        op_line(alloc, out, spaces, op)?;
    }
    Ok(())
}

fn code_lines(
    alloc: Global,
    out: &mut Vec<u8>,
    spaces: &[Space],
    code: &[Instruction],
) -> Result<(), AllocError>
    ensures { OnOk result (out.new.items ≡ out.old.items ++ code_text spaces.now code.now) }
{
    for instruction in code {
        at_line(alloc, out, instruction)?;
        op_lines(alloc, out, spaces, instruction.ops.as_slice())?;
    }
    Ok(())
}
