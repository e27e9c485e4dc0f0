//! The form of a line.

ghost use Rattle.std.specs.Prelude.{◌≡◌, ◌≤◌, length, IfOk};
ghost use Rattle.listing_lines.specs.Text.{left, parts_of};
ghost use Rattle.listing_lines.specs.Tokens.{bytes_of, hexadecimal_of};
ghost use Rattle.run_world.specs.Setting.{IsSetting};
ghost use Rattle.entrytext.specs.Forms.{answer_form, end_form, entry_form, form_of, hidden_made, line_made, line_of, named_by, named_line_of, part_form, part_made, state_form, state_made};

use crate::form::{BytesLine, Form, Part};
use crate::spaces::ram_named;
use crate::words::word;
use listing_lines::{first_part, hexadecimal, is_name, next_part, pairs};
use pcode_model::{Listing, Space};
use run_world::Setting;
use std::alloc::{AllocError, Global};

/// The form of a line.
pub fn form(
    alloc: Global,
    listing: &Listing,
    setting: &Setting,
    line: &[u8],
) -> Result<Form, AllocError>
    requires setting { IsSetting listing.now setting.now }
    requires few { length listing.now.spaces ≤ 256 }
    ensures { IfOk result (λ form. form ≡ form_of listing.now line.now) }
{
    let (word, rest) = first_part(b' ', line);
    if word == b"entry".as_slice() {
        return Ok(entry_form(rest));
    }
    if word == b"ans".as_slice() {
        return Ok(answer_form(rest));
    }
    if word == b"end".as_slice() {
        return Ok(end_form(rest));
    }
    state_form(alloc, listing, setting, word, rest)
}

fn state_form(
    alloc: Global,
    listing: &Listing,
    setting: &Setting,
    word: &[u8],
    rest: &[u8],
) -> Result<Form, AllocError>
    requires setting { IsSetting listing.now setting.now }
    requires few { length listing.now.spaces ≤ 256 }
    ensures { IfOk result (λ form. form ≡ state_form listing.now word.now (left 32 rest.now)) }
{
    if word == b"reg".as_slice() {
        return Ok(of_state(plain_line(alloc, setting.registers, rest)?));
    }
    if word == b"uni".as_slice() {
        return Ok(of_state(plain_line(alloc, setting.uniques, rest)?));
    }
    if word == b"mem".as_slice() {
        return Ok(of_state(named_line(alloc, listing.spaces.as_slice(), rest)?));
    }
    if word == b"hid".as_slice() {
        return Ok(of_hidden(plain_line(alloc, setting.first_ram, rest)?));
    }
    part_form(alloc, listing, setting, word, rest)
}

fn part_form(
    alloc: Global,
    listing: &Listing,
    setting: &Setting,
    word: &[u8],
    rest: &[u8],
) -> Result<Form, AllocError>
    requires setting { IsSetting listing.now setting.now }
    requires few { length listing.now.spaces ≤ 256 }
    ensures { IfOk result (λ form. form ≡ part_form listing.now word.now (left 32 rest.now)) }
{
    if word == b"areg".as_slice() {
        return Ok(of_part(Part::Registers, plain_line(alloc, setting.registers, rest)?));
    }
    if word == b"amem".as_slice() {
        return Ok(of_part(
            Part::Memory,
            named_line(alloc, listing.spaces.as_slice(), rest)?,
        ));
    }
    if word == b"ahid".as_slice() {
        return Ok(of_part(Part::Hidden, plain_line(alloc, setting.first_ram, rest)?));
    }
    Ok(Form::Nothing)
}

fn entry_form(rest: &[u8]) -> Form
    ensures { result ≡ entry_form (left 32 rest.now) }
{
    let Some((version, rest)) = next_part(b' ', rest) else {
        return Form::Nothing;
    };
    if next_part(b' ', rest).is_some() {
        return Form::Nothing;
    }
    if version == b"1".as_slice() {
        Form::Entry
    } else {
        Form::Nothing
    }
}

fn answer_form(rest: &[u8]) -> Form
    ensures { result ≡ answer_form (left 32 rest.now) }
{
    let Some((digits, rest)) = next_part(b' ', rest) else {
        return Form::Nothing;
    };
    if next_part(b' ', rest).is_some() {
        return Form::Nothing;
    }
    match word(digits) {
        Some(word) => Form::Answer(word),
        None => Form::Nothing,
    }
}

fn end_form(rest: &[u8]) -> Form
    ensures { result ≡ end_form (left 32 rest.now) }
{
    if next_part(b' ', rest).is_some() {
        Form::Nothing
    } else {
        Form::End
    }
}

fn of_state(line: Option<BytesLine>) -> Form
    ensures { result ≡ state_made line }
{
    match line {
        Some(line) => Form::State(line),
        None => Form::Nothing,
    }
}

fn of_hidden(line: Option<BytesLine>) -> Form
    ensures { result ≡ hidden_made line }
{
    match line {
        Some(line) => Form::Hidden(line),
        None => Form::Nothing,
    }
}

fn of_part(part: Part, line: Option<BytesLine>) -> Form
    ensures { result ≡ part_made part line }
{
    match line {
        Some(line) => Form::Answered(part, line),
        None => Form::Nothing,
    }
}

// The bytes of a space that an offset and pairs of digits write.
fn bytes_line(
    alloc: Global,
    space: Option<u8>,
    offset: &[u8],
    digits: &[u8],
) -> Result<Option<BytesLine>, AllocError>
    ensures { IfOk result (λ line. line ≡ line_made space (hexadecimal_of offset.now) (bytes_of digits.now)) }
{
    let Some(offset) = hexadecimal(offset) else {
        return Ok(None);
    };
    match pairs(alloc, digits)? {
        Some(bytes) => Ok(Some(BytesLine {
            space,
            offset,
            bytes,
        })),
        None => Ok(None),
    }
}

// What the parts left of a line write, if they are `HEX PAIRS`.
fn plain_line(alloc: Global, space: u8, rest: &[u8]) -> Result<Option<BytesLine>, AllocError>
    ensures { IfOk result (λ line. line ≡ line_of space (left 32 rest.now)) }
{
    let Some((offset, rest)) = next_part(b' ', rest) else {
        return Ok(None);
    };
    let Some((digits, rest)) = next_part(b' ', rest) else {
        return Ok(None);
    };
    if next_part(b' ', rest).is_some() {
        return Ok(None);
    }
    bytes_line(alloc, Some(space), offset, digits)
}

// What a place and pairs of digits write, if the place is `SPACE:HEX`.
fn placed_line(
    alloc: Global,
    spaces: &[Space],
    place: &[u8],
    digits: &[u8],
) -> Result<Option<BytesLine>, AllocError>
    requires { length spaces.now ≤ 256 }
    ensures { IfOk result (λ line. line ≡ named_by spaces.now (parts_of 58 place.now) digits.now) }
{
    let (name, rest) = first_part(b':', place);
    let Some((offset, rest)) = next_part(b':', rest) else {
        return Ok(None);
    };
    if next_part(b':', rest).is_some() || !is_name(name) {
        return Ok(None);
    }
    bytes_line(alloc, ram_named(spaces, name), offset, digits)
}

// What the parts left of a line write, if they are `SPACE:HEX PAIRS`.
fn named_line(alloc: Global, spaces: &[Space], rest: &[u8]) -> Result<Option<BytesLine>, AllocError>
    requires { length spaces.now ≤ 256 }
    ensures { IfOk result (λ line. line ≡ named_line_of spaces.now (left 32 rest.now)) }
{
    let Some((place, rest)) = next_part(b' ', rest) else {
        return Ok(None);
    };
    let Some((digits, rest)) = next_part(b' ', rest) else {
        return Ok(None);
    };
    if next_part(b' ', rest).is_some() {
        return Ok(None);
    }
    placed_line(alloc, spaces, place, digits)
}
