//! The numbers, and their lines.

ghost use Rattle.std.specs.Prelude.{◌≡◌, ◌++◌, IfOk, OnOk};
ghost use Rattle.ctext.specs.Text.{text_of};
ghost use Rattle.summary.specs.Counts.{counts_of, line, lines_of};

use crate::counting::{gotos_in, ops_in};
use bits_core::Memory;
use cmeaning::CFunction;
use ctext::digits::{put, put_decimal};
use ctext::print_c;
use pcode_model::{Listing, Text};
use std::alloc::Global;

/// The numbers of a listing, and of its C function with its text.
#[derive(Clone, Copy, Debug, PartialEq, Eq)]
pub struct Counts {
    pub ops: u64,
    pub blocks: u64,
    pub atoms: u64,
    pub gotos: u64,
    pub bytes: u64,
}

fn put_line(alloc: Global, text: &mut Vec<u8>, name: &[u8], number: u64) -> Result<(), Memory>
    ensures { OnOk result (text.new.items ≡ text.old.items ++ line name.now number) }
{
    put(text, name)?;
    put(text, b" ")?;
    put_decimal(alloc, text, number)?;
    put(text, b"\n")
}

/// A line for each number. Fails where memory runs out.
pub fn counts_text(alloc: Global, counts: &Counts) -> Result<Text, Memory>
    ensures { IfOk result (λ text. text.items ≡ lines_of counts.now) }
{
    let mut text = Vec::new(alloc);
    put_line(alloc, &mut text, b"ops", counts.ops)?;
    put_line(alloc, &mut text, b"blocks", counts.blocks)?;
    put_line(alloc, &mut text, b"atoms", counts.atoms)?;
    put_line(alloc, &mut text, b"gotos", counts.gotos)?;
    put_line(alloc, &mut text, b"bytes", counts.bytes)?;
    Ok(text)
}

fn counted(
    alloc: Global,
    listing: &Listing,
    blocks: u64,
    atoms: u64,
    function: &CFunction,
) -> Result<Counts, Memory>
    ensures { IfOk result (λ counts. counts ≡ counts_of listing.now blocks atoms function.now (text_of function.now)) }
{
    let ops = ops_in(listing)?;
    let gotos = gotos_in(function)?;
    let text = print_c(alloc, function)?;
    Ok(Counts {
        ops,
        blocks,
        atoms,
        gotos,
        bytes: text.len() as u64,
    })
}

/// The lines of a listing of so many blocks and atoms, and of its C function. Fails where memory runs out.
pub fn summary_text(
    alloc: Global,
    listing: &Listing,
    blocks: u64,
    atoms: u64,
    function: &CFunction,
) -> Result<Text, Memory>
    ensures { IfOk result (λ text. text.items ≡ lines_of (counts_of listing.now blocks atoms function.now (text_of function.now))) }
{
    let counts = counted(alloc, listing, blocks, atoms, function)?;
    counts_text(alloc, &counts)
}
