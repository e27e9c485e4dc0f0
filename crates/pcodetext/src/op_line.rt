//! The line of an op.

ghost use Rattle.std.specs.Prelude.{◌≡◌, IfOk, map};
ghost use Rattle.std.specs.List.{list_any};
ghost use Rattle.line_reader.specs.Answer.{Does};
ghost use Rattle.listing_lines.specs.Text.{left};
ghost use Rattle.pcodetext.specs.Checks.{is_empty, of_some};
ghost use Rattle.pcodetext.specs.Convert.{varnode};
ghost use Rattle.pcodetext.specs.Meaning.{step_by};
ghost use Rattle.pcodetext.specs.OpLine.{op_form, op_made};
ghost use Rattle.pcodetext.specs.Written.{ranges_of};

use crate::checks::{any_unknown, is_unknown};
use crate::convert::optional;
use crate::fault::{LineFault, Why};
use crate::line_kinds::Form;
use crate::partial_listing::PartialListing;
use crate::tables::SpaceTable;
use crate::written::{Written, range, ranges};
use listing_lines::{is_name, next_part};
use operations::opcode;
use pcode_model::{Inputs, Op, Opcode};
use sqlite_items::Items;
use std::alloc::{AllocError, Global};

/// `VN = OPCODE VN*` or `OPCODE VN*`, after two spaces.
#[derive(Drop)]
pub struct OpLine {
    pub out: Option<Written>,
    /// The operation of that word, if it is known.
    pub code: Option<Opcode>,
    pub inputs: Items<Written>,
}

/// The form of what stands after the first space of a line.
pub fn op_form(alloc: Global, spaces: &SpaceTable, rest: &[u8]) -> Result<Form, AllocError>
    ensures { IfOk result (λ form. form ≡ op_form spaces.now (left 32 rest.now)) }
{
    let Some((blank, rest)) = next_part(b' ', rest) else {
        return Ok(Form::Nothing);
    };
    let Some((first, rest)) = next_part(b' ', rest) else {
        return Ok(Form::Nothing);
    };
    if !blank.is_empty() {
        return Ok(Form::Nothing);
    }
    let Some((second, after)) = next_part(b' ', rest) else {
        return op_made(alloc, spaces, None, first, rest);
    };
    if second != b"=".as_slice() {
        return op_made(alloc, spaces, None, first, rest);
    }
    let Some(out) = range(spaces, first) else {
        return Ok(Form::Nothing);
    };
    let Some((code, rest)) = next_part(b' ', after) else {
        return Ok(Form::Nothing);
    };
    op_made(alloc, spaces, Some(out), code, rest)
}

fn op_made(
    alloc: Global,
    spaces: &SpaceTable,
    out: Option<Written>,
    code: &[u8],
    rest: &[u8],
) -> Result<Form, AllocError>
    ensures { IfOk result (λ form. form ≡ op_made out code.now (ranges_of spaces.now (left 32 rest.now))) }
{
    let Some(inputs) = ranges(alloc, spaces, rest)? else {
        return Ok(Form::Nothing);
    };
    if !is_name(code) {
        return Ok(Form::Nothing);
    }
    let code = opcode(alloc, code)?;
    Ok(Form::Op(OpLine { out, code, inputs }))
}

// Whether an output has no byte.
fn is_empty(range: Option<Written>) -> bool
    ensures { result ≡ of_some is_empty range }
{
    match range {
        Some(range) => range.size == 0,
        None => false,
    }
}

// Whether one of the ranges has no byte.
fn any_empty(ranges: &[Written]) -> bool
    ensures { result ≡ list_any is_empty ranges.now }
{
    for range in ranges {
        if range.size == 0 {
            return true;
        }
    }
    false
}

fn inputs(alloc: Global, ranges: &[Written]) -> Result<Inputs, AllocError>
    ensures { IfOk result (λ made. made ≡ map varnode ranges.now) }
{
    let mut made = Inputs::new(alloc);
    for range in ranges {
        made.push(range.varnode())?;
    }
    Ok(made)
}

impl PartialListing {
    /// A line of an op. It is taken apart last, so that what ends early has one value to drop.
    pub fn op(&mut self, alloc: Global, line: OpLine) -> Result<(), LineFault>
        ensures { Does (step_by self.old (Form.Op line)) self.new result }
    {
        if self.last.is_none() || self.ended {
            return Err(LineFault::Fault(Why::Order));
        }
        if line.code.is_none() || is_unknown(line.out) || any_unknown(line.inputs.as_slice()) {
            return Err(LineFault::Fault(Why::Unknown));
        }
        if self.ops >= 16384 {
            return Err(LineFault::Fault(Why::Range));
        }
        if is_empty(line.out) || any_empty(line.inputs.as_slice()) {
            return Err(LineFault::Fault(Why::Range));
        }
        let inputs = inputs(alloc, line.inputs.as_slice())?;
        let OpLine {
            out,
            code,
            inputs: _,
        } = line;
        if let Some(last) = &mut self.last {
            if let Some(code) = code {
                last.ops.push(Op {
                    code,
                    out: optional(out),
                    inputs,
                })?;
            }
        }
        self.ops += 1;
        Ok(())
    }
}
