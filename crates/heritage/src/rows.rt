//! Which value each variable has in each block, as far as it is known.

ghost use Rattle.std.specs.Prelude.{◌≡◌, ◌<◌, ◌*◌, ◌+◌, None, ℕ, IfOk, OnOk};
ghost use Rattle.heritage.specs.Rows.{HasBlocks, value_in, with_value};

use bits_core::Memory;
use std::alloc::Global;
use std::collections::BTreeMap;

/// A value for a block and a variable. The first variables, which most blocks know, have a place in each block; the
/// others, of which a block knows few, have one where they are known.
#[derive(Drop)]
pub struct Rows {
    /// How many variables have a place in each block.
    low: u32,
    dense: Vec<Option<u32>>,
    sparse: BTreeMap<(u32, u32), u32>,
}

/// The place of one of the first variables.
fn place(low: u32, block: u32, variable: u32) -> usize
    ensures { result ≡ block * low + variable }
{
    block as usize * low as usize + variable as usize
}

impl Rows {
    /// Rows of so many blocks, in which nothing is known. The first variables are so many.
    pub fn new(alloc: Global, blocks: u32, low: u32) -> Result<Rows, Memory>
        ensures blocks { IfOk result (HasBlocks blocks) }
        ensures none { IfOk result (λ r. value_in r ≡ (λ b v. None)) }
    {
        Ok(Rows {
            low,
            dense: vec![in alloc; None; blocks as usize * low as usize]?,
            sparse: BTreeMap::new(alloc),
        })
    }

    /// The value that the variable has in the block, if it is known.
    pub fn get(&self, block: u32, variable: u32) -> Option<u32>
        ensures { result ≡ value_in self.now block variable }
    {
        if variable < self.low {
            return match self.dense.get(place(self.low, block, variable)) {
                Some(value) => *value,
                None => None,
            };
        }
        match self.sparse.get(&(block, variable)) {
            Some(value) => Some(*value),
            None => None,
        }
    }

    /// The variable has the value in the block from now on.
    pub fn set(&mut self, block: u32, variable: u32, value: u32) -> Result<(), Memory>
        requires { (blocks : ℕ) × (HasBlocks blocks self.old × (block < blocks)) }
        ensures value { OnOk result (value_in self.new ≡ with_value block variable value (value_in self.old)) }
        ensures blocks { (blocks : ℕ) → HasBlocks blocks self.old → HasBlocks blocks self.new }
    {
        if variable < self.low {
            let place = place(self.low, block, variable);
            self.dense[place] = Some(value);
            return Ok(());
        }
        match self.sparse.insert((block, variable), value) {
            Ok(_) => Ok(()),
            Err(_) => Err(Memory),
        }
    }
}
