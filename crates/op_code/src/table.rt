//! The variables that stand for ranges, by a table of where these begin.

ghost use Rattle.std.specs.Prelude.{◌≡◌, ◌<◌, ◌^◌, ◌∷◌, ◌++◌, [], List, length, IfOk, OnOk};
ghost use Rattle.pcode_model.specs.declared.listing.Varnode.{Varnode as Range};
ghost use Rattle.op_code.specs.Cover.{pieces_at};
ghost use Rattle.op_code.specs.Numbers.{key_of, HasNumbers};

use crate::covers::Piece;
use bits_core::Memory;
use pcode_model::Varnode;
use sqlite_items::Items;
use std::alloc::{AllocError, Global};
use std::collections::BTreeMap;
use std::marker::Model;

/// Ranges in an order, each of which stands for the variable of its place.
#[derive(Drop)]
pub struct Table {
    ranges: Items<Varnode>,
    /// The first variable whose range begins at an offset of a space. Offsets have 128 bits, so that no walk along a
    /// range goes past the last one.
    numbers: BTreeMap<(u8, u128), u32>,
}

impl Model for Table {
    ghost use Rattle.std.specs.Prelude.{List};
    ghost use Rattle.pcode_model.specs.declared.listing.Varnode.{Varnode as Listed};
    ghost use Rattle.op_code.specs.Numbers.{HasNumbers as HaveNumbers};

    ghost Value = { List Listed };

    ghost view = { λ t. t.ranges };

    ghost invariant = { λ t. HaveNumbers t.ranges t.numbers };
}

fn key(range: Varnode) -> (u8, u128)
    ensures { result ≡ key_of range }
{
    (range.space, u128::from(range.offset))
}

/// Gives a key the number behind those that are listed, unless it has one.
fn add_number(
    numbers: &mut BTreeMap<(u8, u128), u32>,
    key: (u8, u128),
    number: u32,
) -> Result<(), AllocError>
    ensures { (listed : List Range) (v : Range) → HasNumbers listed numbers.old → key_of v ≡ key → number ≡ length listed → OnOk result (HasNumbers (listed ++ v ∷ []) numbers.new) }
{
    if numbers.contains_key(&key) {
        return Ok(());
    }
    match numbers.insert(key, number) {
        Ok(_) => Ok(()),
        Err(_) => Err(AllocError),
    }
}

impl Table {
    pub fn new(alloc: Global, ranges: &[Varnode]) -> Result<Table, Memory>
        requires few { length ranges.now < 2 ^ 32 }
        ensures { IfOk result (λ t. t ≡ ranges.now) }
    {
        let mut numbers = BTreeMap::new(alloc);
        for at in 0..ranges.len() {
            add_number(&mut numbers, key(ranges[at]), at as u32)?;
        }
        Ok(Table {
            ranges: Items::from_slice(alloc, ranges)?,
            numbers,
        })
    }

    /// Adds the first variable whose range begins at an offset of a space, where there is one.
    pub(crate) fn add_piece(
        &self,
        space: u8,
        offset: u128,
        pieces: &mut Vec<Piece>,
    ) -> Result<(), Memory>
        ensures { OnOk result (pieces.new.items ≡ pieces.old.items ++ pieces_at self.now space offset) }
    {
        let Some(number) = self.numbers.get(&(space, offset)) else {
            return Ok(());
        };
        let Some(range) = self.ranges.get(*number as usize) else {
            return Ok(());
        };
        pieces.push(Piece {
            variable: *number,
            range: *range,
        })?;
        Ok(())
    }
}
