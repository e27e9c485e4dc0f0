//! The variables that ranges are made of.

ghost use Rattle.std.specs.Prelude.{◌≡◌, IfOk};
ghost use Rattle.op_code.specs.Cover.{cover as cover_of};

use crate::table::Table;
use bits_core::Memory;
use pcode_model::Varnode;
use std::alloc::Global;

/// A variable, and the range that it stands for.
#[derive(Clone, Copy)]
pub struct Piece {
    pub variable: u32,
    pub range: Varnode,
}

/// The variables whose ranges begin in a range, by rising offset.
pub(crate) fn cover(alloc: Global, table: &Table, range: Varnode) -> Result<Vec<Piece>, Memory>
    ensures { IfOk result (λ ps. ps.items ≡ cover_of table.now range) }
{
    let mut pieces = Vec::new(alloc);
    for at in 0..range.size {
        let offset = u128::from(range.offset) + u128::from(at);
        table.add_piece(range.space, offset, &mut pieces)?;
    }
    Ok(pieces)
}
