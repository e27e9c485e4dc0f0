//! Ranges and places as they are written.

ghost use Rattle.std.specs.Prelude.{◌≡◌, ◌<◌, IfOk};
ghost use Rattle.std.specs.Option.{option_map};
ghost use Rattle.listing_lines.specs.Text.{left};
ghost use Rattle.pcodetext.specs.Written.{named_by, place_of, range_of, range_or_none, ranges_of, ranges_until};

use crate::tables::SpaceTable;
use listing_lines::{decimal, first_part, hexadecimal, is_name, next_part};
use sqlite_items::Items;
use std::alloc::{AllocError, Global};

/// What the name of a space stands for, where the spaces of the lines before are known.
#[derive(Clone, Copy, Debug, PartialEq, Eq)]
pub enum Named {
    /// The known space with that number.
    Space(u8),
    /// The name `stack`.
    Stack,
    /// No space that is known.
    Unknown,
}

/// A range as it is written: `SPACE:HEX:SIZE`.
#[derive(Clone, Copy, Debug, PartialEq, Eq)]
pub struct Written {
    pub space: Named,
    pub offset: u64,
    /// Bytes, below 100,000.
    pub size: u32,
}

// What the name of a space stands for.
fn space_named(spaces: &SpaceTable, name: &[u8]) -> Named
    ensures { result ≡ named_by spaces.now name.now }
{
    if name == b"stack".as_slice() {
        return Named::Stack;
    }
    match spaces.number(name) {
        Some(number) => Named::Space(number),
        None => Named::Unknown,
    }
}

/// The range that `NAME:HEX:SIZE` writes. None where the part has another form.
pub fn range(spaces: &SpaceTable, part: &[u8]) -> Option<Written>
    ensures { result ≡ range_of spaces.now part.now }
{
    let (name, rest) = first_part(b':', part);
    let (offset, rest) = next_part(b':', rest)?;
    let (size, rest) = next_part(b':', rest)?;
    if next_part(b':', rest).is_some() || !is_name(name) {
        return None;
    }
    let offset = hexadecimal(offset)?;
    let size = decimal(size)?;
    Some(Written {
        space: space_named(spaces, name),
        offset,
        size,
    })
}

/// The place that `NAME:HEX` writes. None where the part has another form.
pub fn place(spaces: &SpaceTable, part: &[u8]) -> Option<(Named, u64)>
    ensures { result ≡ place_of spaces.now part.now }
{
    let (name, rest) = first_part(b':', part);
    let (offset, rest) = next_part(b':', rest)?;
    if next_part(b':', rest).is_some() || !is_name(name) {
        return None;
    }
    let offset = hexadecimal(offset)?;
    Some((space_named(spaces, name), offset))
}

/// The ranges that the parts left of a line write. None where one has another form.
pub fn ranges(
    alloc: Global,
    spaces: &SpaceTable,
    line: &[u8],
) -> Result<Option<Items<Written>>, AllocError>
    ensures { IfOk result (λ found. found ≡ ranges_of spaces.now (left 32 line.now)) }
{
    let mut found = Items::new(alloc);
    let mut rest = line;
    while let Some((part, after)) = next_part(b' ', rest) {
        let Some(range) = range(spaces, part) else {
            return Ok(None);
        };
        found.push(range)?;
        rest = after;
    }
    Ok(Some(found))
}

/// The ranges up to a word, and what is left after it. None where a part has another form, or the word doesn't come.
pub fn ranges_until<'a>(
    alloc: Global,
    word: &[u8],
    spaces: &SpaceTable,
    line: &'a [u8],
) -> Result<Option<(Items<Written>, &'a [u8])>, AllocError>
    ensures { IfOk result (λ found. option_map (λ f. (f.0, left 32 f.1.now)) found ≡ ranges_until word.now spaces.now (left 32 line.now)) }
{
    let mut found = Items::new(alloc);
    let mut rest = line;
    while let Some((part, after)) = next_part(b' ', rest) {
        if part == word {
            return Ok(Some((found, after)));
        }
        let Some(range) = range(spaces, part) else {
            return Ok(None);
        };
        found.push(range)?;
        rest = after;
    }
    Ok(None)
}

/// The range that a part writes, or `none`. The outer None where the part has another form.
pub fn range_or_none(spaces: &SpaceTable, part: &[u8]) -> Option<Option<Written>>
    ensures { result ≡ range_or_none spaces.now part.now }
{
    if part == b"none".as_slice() {
        return Some(None);
    }
    match range(spaces, part) {
        Some(range) => Some(Some(range)),
        None => None,
    }
}
