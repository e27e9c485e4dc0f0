//! The line that declares a space.

ghost use Rattle.std.specs.Prelude.{◌≡◌, IfOk};
ghost use Rattle.line_reader.specs.Answer.{Does};
ghost use Rattle.listing_lines.specs.Text.{left};
ghost use Rattle.pcodetext.specs.Meaning.{step_by};
ghost use Rattle.pcodetext.specs.SpaceLine.{is_outside, kind_of, order_of, space_form, space_made, word_by};

use crate::fault::{LineFault, Why};
use crate::line_kinds::Form;
use crate::partial_listing::PartialListing;
use listing_lines::{decimal, is_name, next_part};
use pcode_model::{Name, Space, SpaceKind};
use sqlite_items::Items;
use std::alloc::{AllocError, Global};

/// `space NAME KIND SIZE ORDER`, and in version 2 one part more, the bytes of a word.
#[derive(Drop)]
pub struct SpaceLine {
    pub name: Name,
    pub kind: SpaceKind,
    /// Bytes of an offset.
    pub size: u32,
    /// Whether the order is `be`.
    pub big: bool,
    /// Bytes of a word; 1 in version 1.
    pub word: u32,
}

fn kind(word: &[u8]) -> Option<SpaceKind>
    ensures { result ≡ kind_of word.now }
{
    if word == b"ram".as_slice() {
        return Some(SpaceKind::Ram);
    }
    if word == b"register".as_slice() {
        return Some(SpaceKind::Register);
    }
    if word == b"unique".as_slice() {
        return Some(SpaceKind::Unique);
    }
    None
}

// Whether the order is `be`.
fn order(word: &[u8]) -> Option<bool>
    ensures { result ≡ order_of word.now }
{
    if word == b"le".as_slice() {
        return Some(false);
    }
    if word == b"be".as_slice() {
        return Some(true);
    }
    None
}

// The bytes of a word at the end of a `space` line.
fn word_size(two: bool, rest: &[u8]) -> Option<u32>
    ensures { result ≡ word_by two (left 32 rest.now) }
{
    let Some((word, rest)) = next_part(b' ', rest) else {
        return if two { None } else { Some(1) };
    };
    if next_part(b' ', rest).is_some() || !two {
        return None;
    }
    decimal(word)
}

/// The form of what stands after `space`.
pub fn space_form(alloc: Global, two: bool, rest: &[u8]) -> Result<Form, AllocError>
    ensures { IfOk result (λ form. form ≡ space_form two (left 32 rest.now)) }
{
    let Some((name, rest)) = next_part(b' ', rest) else {
        return Ok(Form::Nothing);
    };
    let Some((kind_word, rest)) = next_part(b' ', rest) else {
        return Ok(Form::Nothing);
    };
    let Some((size, rest)) = next_part(b' ', rest) else {
        return Ok(Form::Nothing);
    };
    let Some((order_word, rest)) = next_part(b' ', rest) else {
        return Ok(Form::Nothing);
    };
    space_made(
        alloc,
        name,
        kind(kind_word),
        decimal(size),
        order(order_word),
        word_size(two, rest),
    )
}

fn space_made(
    alloc: Global,
    name: &[u8],
    kind: Option<SpaceKind>,
    size: Option<u32>,
    big: Option<bool>,
    word: Option<u32>,
) -> Result<Form, AllocError>
    ensures { IfOk result (λ form. form ≡ space_made name.now kind size big word) }
{
    let Some(kind) = kind else {
        return Ok(Form::Nothing);
    };
    let Some(size) = size else {
        return Ok(Form::Nothing);
    };
    let Some(big) = big else {
        return Ok(Form::Nothing);
    };
    let Some(word) = word else {
        return Ok(Form::Nothing);
    };
    if !is_name(name) {
        return Ok(Form::Nothing);
    }
    let name = Items::from_slice(alloc, name)?;
    Ok(Form::Space(SpaceLine {
        name,
        kind,
        size,
        big,
        word,
    }))
}

fn is_outside(low: u32, high: u32, n: u32) -> bool
    ensures { result ≡ is_outside low high n }
{
    n < low || high < n
}

impl PartialListing {
    /// A line that declares a space.
    pub fn space(&mut self, alloc: Global, line: SpaceLine) -> Result<(), LineFault>
        ensures { Does (step_by self.old (Form.Space line)) self.new result }
    {
        if self.version.is_none() || self.stack.is_some() || !self.protos.is_empty() {
            return Err(LineFault::Fault(Why::Order));
        }
        let name = line.name.as_slice();
        if name == b"stack".as_slice() || self.spaces.number(name).is_some() {
            return Err(LineFault::Fault(Why::Duplicate));
        }
        if self.spaces.is_full() {
            return Err(LineFault::Fault(Why::Range));
        }
        if is_outside(1, 8, line.size) || is_outside(1, 8, line.word) {
            return Err(LineFault::Fault(Why::Range));
        }
        if line.word != 1
            && (!SpaceKind::Ram.same(line.kind) || self.spaces.how_many(SpaceKind::Ram) == 0)
        {
            return Err(LineFault::Fault(Why::Range));
        }
        let SpaceLine {
            name,
            kind,
            size,
            big,
            word,
        } = line;
        let space = Space {
            name,
            kind,
            size: size as u8,
            big,
            word: word as u8,
        };
        self.spaces.push(alloc, space)?;
        Ok(())
    }
}
