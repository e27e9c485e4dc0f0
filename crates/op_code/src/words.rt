//! The words of ranges, over the variables that these are made of.

ghost use Rattle.std.specs.Prelude.{◌≡◌, ◌++◌, IfOk, OnOk, map};
ghost use Rattle.op_code.specs.Made.{range_word as word_of_range};
ghost use Rattle.op_code.specs.Words.{assigns_part, bytes_below as below_of, joined as joined_of, parts_by};

use crate::covers::{Piece, cover};
use crate::memory::is_big;
use crate::table::Table;
use bits_core::Memory;
use cmeaning::{Body, Expr, Stmt};
use op_values::{constant, part_node, width_by};
use pcode_model::{Listing, Varnode};
use sqlite_items::Boxed;
use std::alloc::Global;

/// The concatenation of variables, the first one most significant.
fn joined(alloc: Global, pieces: Vec<Piece>) -> Result<Expr, Memory>
    ensures { IfOk result (λ e. e ≡ joined_of pieces.items) }
{
    let mut pieces = pieces;
    let Some(last) = pieces.pop() else {
        return Ok(constant(1, 0));
    };
    let mut word = Expr::Var(last.variable);
    while let Some(piece) = pieces.pop() {
        let first = Boxed::new(alloc, Expr::Var(piece.variable))?;
        word = Expr::Concat(first, Boxed::new(alloc, word)?);
    }
    Ok(word)
}

/// The word of a range of the register space or the unique space.
pub fn range_word(
    alloc: Global,
    listing: &Listing,
    table: &Table,
    range: Varnode,
) -> Result<Expr, Memory>
    ensures { IfOk result (λ e. e ≡ word_of_range listing.now table.now range) }
{
    let mut pieces = cover(alloc, table, range)?;
    if !is_big(listing, u64::from(range.space)) {
        pieces.reverse();
    }
    joined(alloc, pieces)
}

/// How many bytes of the word of a range are less significant than a range in it.
fn bytes_below(big: bool, range: Varnode, part: Varnode) -> u64
    ensures { result ≡ below_of big range part }
{
    let first = part.offset.saturating_sub(range.offset);
    if big {
        u64::from(range.size)
            .saturating_sub(first)
            .saturating_sub(u64::from(part.size))
    } else {
        first
    }
}

/// Assigns to a variable its part of the word that a local holds for a range.
fn part_assigned(
    alloc: Global,
    big: bool,
    range: Varnode,
    local: u32,
    piece: Piece,
) -> Result<Stmt, Memory>
    ensures { IfOk result (λ s. s ≡ assigns_part big range local piece) }
{
    let below = bytes_below(big, range, piece.range);
    let width = width_by(range.size);
    Ok(Stmt::Assign {
        target: piece.variable,
        value: part_node(alloc, width, below, piece.range.size, Expr::Var(local))?,
    })
}

fn assign_each(
    alloc: Global,
    big: bool,
    body: &mut Body,
    range: Varnode,
    local: u32,
    pieces: &[Piece],
) -> Result<(), Memory>
    ensures { OnOk result (body.new ≡ body.old ++ map (assigns_part big range local) pieces.now) }
{
    for piece in pieces {
        body.push(part_assigned(alloc, big, range, local, *piece)?)?;
    }
    Ok(())
}

/// Assigns to variables their parts of the word that a local holds for a range. One has been written itself.
#[tactic(auto, using(crate::proofs::Settled::parts_are))]
pub(crate) fn assign_parts(
    alloc: Global,
    big: bool,
    body: &mut Body,
    range: Varnode,
    local: u32,
    pieces: &[Piece],
) -> Result<(), Memory>
    ensures { OnOk result (body.new ≡ body.old ++ parts_by big range local pieces.now) }
{
    if pieces.len() == 1 {
        return Ok(());
    }
    assign_each(alloc, big, body, range, local, pieces)
}
