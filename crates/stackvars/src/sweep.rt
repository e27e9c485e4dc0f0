// Cuts of a line, and the pieces between neighbouring cuts over which a stretch lies.
ghost use Rattle.std.specs.Prelude.{◌≡◌, ◌&&◌, nat_lt, IfOk};
ghost use Rattle.std.specs.List.Sorted.{IsNonDecreasingBy};
ghost use Rattle.stackvars.specs.Sweep.{ArePieces, position_of};

use bits_core::Memory;
use std::alloc::Global;

/// A cut of the line, and how far the stretch goes that begins there: not past the cut, where none begins.
#[derive(Clone, Copy, Debug, PartialEq, Eq)]
pub(crate) struct Mark {
    pub position: u128,
    pub reach: u128,
}

/// What stands between a cut and the next one.
#[derive(Clone, Copy, Debug, PartialEq, Eq)]
pub(crate) struct Piece {
    pub begin: u128,
    pub end: u128,
}

fn is_piece(begin: u128, end: u128, reach: u128) -> bool
    ensures { result ≡ nat_lt begin end && nat_lt begin reach }
{
    begin < end && begin < reach
}

fn sweep(alloc: Global, marks: &[Mark]) -> Result<Vec<Piece>, Memory>
    requires { IsNonDecreasingBy position_of marks.now }
    ensures { IfOk result (λ pieces. ArePieces marks.now pieces.items) }
{
    let mut pieces = Vec::new(alloc);
    let mut begin = 0;
    let mut reach = 0;
    for mark in marks {
        let end = mark.position;
        if is_piece(begin, end, reach) {
            pieces.push(Piece { begin, end })?;
        }
        begin = end;
        reach = reach.max(mark.reach);
    }
    Ok(pieces)
}

/// The pieces of the line, in order.
pub(crate) fn pieces(alloc: Global, mut marks: Vec<Mark>) -> Result<Vec<Piece>, Memory>
    ensures { IfOk result (λ pieces. ArePieces marks.items pieces.items) }
{
    marks.sort_by_key(|mark| mark.position)?;
    sweep(alloc, &marks)
}
