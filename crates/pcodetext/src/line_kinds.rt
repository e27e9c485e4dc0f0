//! Every kind of line: a line by its form, and one line more of a text.

ghost use Rattle.std.specs.Prelude.{◌≡◌, IfOk};
ghost use Rattle.line_reader.specs.Answer.{Does};
ghost use Rattle.listing_lines.specs.Text.{left};
ghost use Rattle.pcodetext.specs.LineKinds.{form_of, head_form, is_two};
ghost use Rattle.pcodetext.specs.Meaning.{is_skipped, step};

use crate::at_line::{AtLine, at_form};
use crate::bytes_line::{BytesLine, bytes_form};
use crate::end_line::end_form;
use crate::fault::{LineFault, Why};
use crate::function_line::{FunctionLine, callee_form, func_form};
use crate::op_line::{OpLine, op_form};
use crate::partial_listing::PartialListing;
use crate::pcode_line::pcode_form;
use crate::proto_line::{ProtoLine, proto_form};
use crate::space_line::{SpaceLine, space_form};
use crate::stack_line::stack_form;
use crate::written::Written;
use listing_lines::first_part;
use std::alloc::{AllocError, Global};

/// A line by its form.
#[derive(Drop)]
pub enum Form {
    /// `pcode N`
    Pcode(u32),
    Space(SpaceLine),
    /// `stack VN`
    Stack(Written),
    Proto(ProtoLine),
    Func(FunctionLine),
    Callee(FunctionLine),
    Bytes(BytesLine),
    At(AtLine),
    Op(OpLine),
    /// `end`
    End,
    /// None of these.
    Nothing,
}

// The form of a line after lines that have said so.
fn form_of(alloc: Global, said: &PartialListing, line: &[u8]) -> Result<Form, AllocError>
    ensures { IfOk result (λ form. form ≡ form_of said.now line.now) }
{
    let (word, rest) = first_part(b' ', line);
    if word.is_empty() {
        return op_form(alloc, &said.spaces, rest);
    }
    if word == b"at".as_slice() {
        return Ok(at_form(rest));
    }
    if word == b"bytes".as_slice() {
        return bytes_form(alloc, &said.spaces, rest);
    }
    if word == b"callee".as_slice() {
        return callee_form(
            alloc,
            is_two(said.version),
            &said.spaces,
            &said.protos,
            rest,
        );
    }
    head_form(alloc, said, word, rest)
}

// The form of a line that stands before the code, or ends it.
fn head_form(
    alloc: Global,
    said: &PartialListing,
    word: &[u8],
    rest: &[u8],
) -> Result<Form, AllocError>
    ensures { IfOk result (λ form. form ≡ head_form said.now word.now (left 32 rest.now)) }
{
    if word == b"pcode".as_slice() {
        return Ok(pcode_form(rest));
    }
    if word == b"space".as_slice() {
        return space_form(alloc, is_two(said.version), rest);
    }
    if word == b"stack".as_slice() {
        return Ok(stack_form(&said.spaces, rest));
    }
    if word == b"proto".as_slice() {
        return proto_form(alloc, &said.spaces, rest);
    }
    if word == b"func".as_slice() {
        return func_form(alloc, &said.spaces, &said.protos, rest);
    }
    if word == b"end".as_slice() {
        return Ok(end_form(rest));
    }
    Ok(Form::Nothing)
}

// The forms are those of version 1 where no version is known yet.
fn is_two(version: Option<u8>) -> bool
    ensures { result ≡ is_two version }
{
    match version {
        Some(version) => version == 2,
        None => false,
    }
}

// An empty line, or one that begins with `#`.
fn is_skipped(line: &[u8]) -> bool
    ensures { result ≡ is_skipped line.now }
{
    match line {
        [] => true,
        [first, ..] => *first == b'#',
    }
}

impl PartialListing {
    /// One line more. After an Err the value is of no more use.
    pub fn step(&mut self, alloc: Global, line: &[u8]) -> Result<(), LineFault>
        ensures { Does (step self.old line.now) self.new result }
    {
        if is_skipped(line) {
            return Ok(());
        }
        match form_of(alloc, self, line)? {
            Form::Op(line) => self.op(alloc, line),
            Form::At(line) => self.at(alloc, line),
            Form::Bytes(line) => self.bytes(line),
            Form::Callee(line) => self.callee(alloc, line),
            Form::Func(line) => self.func(line),
            Form::Proto(line) => self.proto(alloc, line),
            Form::Stack(range) => self.stack(range),
            Form::Space(line) => self.space(alloc, line),
            Form::Pcode(version) => self.pcode(version),
            Form::End => self.end(),
            Form::Nothing => Err(LineFault::Fault(Why::Syntax)),
        }
    }
}
