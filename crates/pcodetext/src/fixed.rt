//! The read-only bytes of the lines so far.

ghost use Rattle.std.specs.Prelude.{◌≡◌, ◌==◌, ◌∷◌, ◌++◌, [], false, length, OnOk};
ghost use Rattle.pcodetext.specs.Tables.{overlaps, stands_after};

use pcode_model::{Bytes, Fixed, Fixeds};
use sqlite_items::Items;
use std::alloc::{AllocError, Global};
use std::marker::Model;

/// Read-only bytes, whose offsets rise within each space.
#[derive(Drop)]
pub struct FixedTable {
    fixed: Fixeds,
    // By the space's number, the greatest offset and 1, or 0 where it has no bytes.
    nexts: [u128; 256],
    // By the space's number, the greatest end.
    ends: [u128; 256],
}

impl Model for FixedTable {
    ghost use Rattle.std.specs.Prelude.{List};
    ghost use Rattle.pcode_model.specs.declared.listing.Fixed.{Fixed};
    ghost use Rattle.pcodetext.specs.Tables.{HasTops};

    ghost Value = { List Fixed };

    ghost view = { λ t. t.fixed };

    ghost invariant = { λ t. HasTops t.nexts t.ends t.fixed };
}

impl FixedTable {
    pub fn new(alloc: Global) -> FixedTable
        ensures { result ≡ [] }
    {
        FixedTable {
            fixed: Items::new(alloc),
            nexts: [0; 256],
            ends: [0; 256],
        }
    }

    pub fn is_empty(&self) -> bool
        ensures { result ≡ (length self.now == 0) }
    {
        self.fixed.len() == 0
    }

    /// Whether some bytes of the space stand at the offset or after it.
    pub fn stands_after(&self, space: u8, offset: u64) -> bool
        ensures { result ≡ stands_after self.now space offset }
    {
        u128::from(offset) < self.nexts[space as usize]
    }

    /// Whether a byte of the range has a place already. All bytes of its space begin before it.
    pub fn overlaps(&self, space: u8, offset: u64, size: usize) -> bool
        requires { stands_after self.now space offset ≡ false }
        ensures { result ≡ overlaps self.now space offset size }
    {
        u128::from(offset) < self.ends[space as usize]
    }

    pub fn push(&mut self, space: u8, offset: u64, bytes: Bytes) -> Result<(), AllocError>
        requires { stands_after self.old space offset ≡ false }
        ensures { OnOk result (self.new ≡ self.old ++ record { space = space; offset = offset; bytes = bytes } ∷ []) }
    {
        let end = u128::from(offset) + bytes.len() as u128;
        self.fixed.push(Fixed {
            space,
            offset,
            bytes,
        })?;
        let space = space as usize;
        self.nexts[space] = u128::from(offset) + 1;
        if self.ends[space] < end {
            self.ends[space] = end;
        }
        Ok(())
    }

    pub fn into_items(self) -> Fixeds
        ensures { result ≡ self }
    {
        self.fixed
    }
}
