//! One line more: its faults, and what it says.

ghost use Rattle.std.specs.Prelude.{◌≡◌, ◌≤◌, ◌+◌, ◌^◌, ◌<◌, ◌++◌, length, IfSome, OnOk};
ghost use Rattle.line_reader.specs.Answer.{Does};
ghost use Rattle.pcode_model.specs.Ranges.{leaves};
ghost use Rattle.pcode_model.specs.Spaces.{any_at, is_fixed, size_of};
ghost use Rattle.pcode_model.specs.WellFormed.{IsWellFormed};
ghost use Rattle.run_world.specs.Setting.{IsSetting};
ghost use Rattle.entrytext.specs.Faults.{is_out};
ghost use Rattle.entrytext.specs.Meaning.{bytes_from, start, step, step_by, with_part};
ghost use Rattle.entrytext.specs.declared.form.Form.TheVariants as Form;

use crate::fault::{LineFault, Why};
use crate::form::{BytesLine, Form, Part};
use crate::forms::form;
use crate::partial_entry::PartialEntry;
use pcode_model::Listing;
use run_world::{Answer, Byte, ByteList, Setting, Shape};
use sqlite_items::Items;
use std::alloc::{AllocError, Global};

impl PartialEntry {
    /// What is said before the first line.
    pub fn new(alloc: Global) -> PartialEntry
        ensures { result ≡ start }
    {
        PartialEntry {
            begun: false,
            state: Items::new(alloc),
            hidden: Items::new(alloc),
            done: Items::new(alloc),
            last: None,
            ended: false,
        }
    }

    /// One line more. After an Err the value is of no more use.
    pub fn step(
        &mut self,
        alloc: Global,
        listing: &Listing,
        setting: &Setting,
        line: &[u8],
    ) -> Result<(), LineFault>
        requires formed { IsWellFormed listing.now }
        requires setting { IsSetting listing.now setting.now }
        ensures { Does (step listing.now self.old line.now) self.new result }
    {
        match form(alloc, listing, setting, line)? {
            Form::Entry => self.entry(listing),
            Form::State(line) => self.state(listing, setting, line),
            Form::Hidden(line) => self.hidden(listing, line),
            Form::Answer(word) => self.answer(alloc, listing, word),
            Form::Answered(part, line) => self.answered(listing, part, line),
            Form::End => self.end(listing),
            Form::Nothing => Err(LineFault::Fault(Why::Syntax)),
        }
    }

    // Whether no line but `entry 1` may stand here.
    fn is_out(&self) -> bool
        ensures { result ≡ is_out self.now }
    {
        !self.begun || self.ended
    }

    fn entry(&mut self, listing: &Listing) -> Result<(), LineFault>
        ensures { Does (step_by listing.now self.old Form.Entry) self.new result }
    {
        if self.begun {
            return Err(LineFault::Fault(Why::Order));
        }
        self.begun = true;
        Ok(())
    }

    fn state(
        &mut self,
        listing: &Listing,
        setting: &Setting,
        line: BytesLine,
    ) -> Result<(), LineFault>
        requires setting { IsSetting listing.now setting.now }
        requires space { IfSome line.space (λ n. size_of listing.now n ≤ 2 ^ 64) }
        requires some { 0 < length line.bytes }
        ensures { Does (step_by listing.now self.old (Form.State line)) self.new result }
    {
        if self.is_out() || self.last.is_some() {
            return Err(LineFault::Fault(Why::Order));
        }
        let Some(space) = line.space else {
            return Err(LineFault::Fault(Why::Range));
        };
        if line.leaves(listing, space) {
            return Err(LineFault::Fault(Why::Range));
        }
        if line.is_read_only(listing, setting, space) {
            return Err(LineFault::Fault(Why::Range));
        }
        add(&mut self.state, space, line.offset, line.bytes.as_slice())?;
        Ok(())
    }

    fn hidden(&mut self, listing: &Listing, line: BytesLine) -> Result<(), LineFault>
        requires { IfSome line.space (λ n. size_of listing.now n ≤ 2 ^ 64) }
        ensures { Does (step_by listing.now self.old (Form.Hidden line)) self.new result }
    {
        if self.is_out() || self.last.is_some() {
            return Err(LineFault::Fault(Why::Order));
        }
        let Some(space) = line.space else {
            return Err(LineFault::Fault(Why::Range));
        };
        if line.leaves(listing, space) {
            return Err(LineFault::Fault(Why::Range));
        }
        add(&mut self.hidden, space, line.offset, line.bytes.as_slice())?;
        Ok(())
    }

    fn answer(&mut self, alloc: Global, listing: &Listing, word: u128) -> Result<(), LineFault>
        ensures { Does (step_by listing.now self.old (Form.Answer word)) self.new result }
    {
        if self.is_out() {
            return Err(LineFault::Fault(Why::Order));
        }
        let answer = Answer {
            word,
            registers: Items::new(alloc),
            memory: Items::new(alloc),
            hidden: Items::new(alloc),
        };
        if let Some(last) = self.last.take() {
            self.done.push(last)?;
        }
        self.last = Some(answer);
        Ok(())
    }

    fn answered(&mut self, listing: &Listing, part: Part, line: BytesLine) -> Result<(), LineFault>
        requires { IfSome line.space (λ n. size_of listing.now n ≤ 2 ^ 64) }
        ensures { Does (step_by listing.now self.old (Form.Answered part line)) self.new result }
    {
        if self.is_out() || self.last.is_none() {
            return Err(LineFault::Fault(Why::Order));
        }
        let Some(space) = line.space else {
            return Err(LineFault::Fault(Why::Range));
        };
        if line.leaves(listing, space) {
            return Err(LineFault::Fault(Why::Range));
        }
        if let Some(last) = &mut self.last {
            add_part(last, part, space, line.offset, line.bytes.as_slice())?;
        }
        Ok(())
    }

    fn end(&mut self, listing: &Listing) -> Result<(), LineFault>
        ensures { Does (step_by listing.now self.old Form.End) self.new result }
    {
        if self.is_out() {
            return Err(LineFault::Fault(Why::Order));
        }
        self.ended = true;
        Ok(())
    }
}

impl BytesLine {
    // Whether a byte leaves the space with that number.
    fn leaves(&self, listing: &Listing, space: u8) -> bool
        requires { size_of listing.now space ≤ 2 ^ 64 }
        ensures { result ≡ leaves listing.now.spaces space self.now.offset (length self.now.bytes) }
    {
        let end = u128::from(self.offset) + self.bytes.as_slice().len() as u128;
        u128::from(Shape::new(listing, space).last) + 1 < end
    }

    // Whether one of the bytes is read-only.
    fn is_read_only(&self, listing: &Listing, setting: &Setting, space: u8) -> bool
        requires setting { IsSetting listing.now setting.now }
        requires wide { size_of listing.now space ≤ 2 ^ 64 }
        requires inside { self.now.offset < size_of listing.now space }
        ensures { result ≡ any_at (size_of listing.now space) (is_fixed listing.now space) self.now.offset (length self.now.bytes) }
    {
        let shape = Shape::new(listing, space);
        setting
            .fixed
            .meets(shape, space, self.offset, self.bytes.len())
    }
}

// Adds bytes of a space from an offset on to a list.
fn add(list: &mut ByteList, space: u8, offset: u64, bytes: &[u8]) -> Result<(), AllocError>
    requires { offset + length bytes.now ≤ 2 ^ 64 }
    ensures { OnOk result (list.new ≡ list.old ++ bytes_from space offset bytes.now) }
{
    for i in 0..bytes.len() {
        list.push(Byte {
            space,
            offset: offset + i as u64,
            value: bytes[i],
        })?;
    }
    Ok(())
}

// Adds bytes to that part of an answer.
fn add_part(
    answer: &mut Answer,
    part: Part,
    space: u8,
    offset: u64,
    bytes: &[u8],
) -> Result<(), AllocError>
    requires { offset + length bytes.now ≤ 2 ^ 64 }
    ensures { OnOk result (answer.new ≡ with_part part (bytes_from space offset bytes.now) answer.old) }
{
    match part {
        Part::Registers => add(&mut answer.registers, space, offset, bytes),
        Part::Memory => add(&mut answer.memory, space, offset, bytes),
        Part::Hidden => add(&mut answer.hidden, space, offset, bytes),
    }
}
