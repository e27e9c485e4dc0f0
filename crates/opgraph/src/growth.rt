//! Room for more: blocks, and spare ops and slots.
ghost use Rattle.std.specs.Prelude.{◌≡◌, ◌+◌, ◌<◌, ◌≤◌, [], ◌∷◌, ◌++◌, IsOk, IfOk, IfErr, length};
ghost use Rattle.opgraph.specs.Graph.{Same, SameSpares, op_at, block_at, uses_at};
ghost use Rattle.opgraph.specs.Parts.{Kept, KeptNodes};

use crate::code::{Body, Code};
use crate::graph::OpGraph;
use crate::ids::BlockId;
use bits_core::Memory;
use node_lists::Lists;

/// Makes sure of a list of this number.
fn ensure_list<T: Copy + Drop>(lists: &mut Lists<T>, number: u32) -> Result<(), Memory>
    requires { number ≤ length lists.old.lists }
    ensures kept { Kept lists.old lists.new }
    ensures ok { IfOk result (λ _. number < length lists.new.lists) }
{
    if lists.lists() == number {
        lists.add_list()?;
    }
    Ok(())
}

/// Makes sure of a node of this number.
fn ensure_use(uses: &mut Lists<()>, number: u32) -> Result<(), Memory>
    requires { number ≤ length uses.old.held }
    ensures kept { KeptNodes uses.old uses.new }
    ensures ok { IfOk result (λ _. number < length uses.new.held) }
{
    if uses.size() == number {
        uses.add_spare(())?;
    }
    Ok(())
}

impl OpGraph {
    fn grow_ops(&mut self) -> Result<(), Memory>
        ensures same { Same self.old self.new }
        ensures slots { self.new.spare_slots ≡ self.old.spare_slots }
        ensures ok { IfOk result (λ _. self.new.spare_ops ≡ self.old.spare_ops + 1) }
        ensures failed { IfErr result (λ _. self.new.spare_ops ≡ self.old.spare_ops) }
    {
        let number = self.ops.size();
        ensure_list(&mut self.inputs, number)?;
        ensure_list(&mut self.uses, number)?;
        self.ops.add_spare(Body {
            code: Code::Copy,
            width: None,
        })?;
        Ok(())
    }

    fn grow_slots(&mut self) -> Result<(), Memory>
        ensures same { Same self.old self.new }
        ensures ops { self.new.spare_ops ≡ self.old.spare_ops }
        ensures ok { IfOk result (λ _. self.new.spare_slots ≡ self.old.spare_slots + 1) }
        ensures failed { IfErr result (λ _. self.new.spare_slots ≡ self.old.spare_slots) }
    {
        let number = self.inputs.size();
        ensure_use(&mut self.uses, number)?;
        self.inputs.add_spare(0)?;
        Ok(())
    }

    fn spare_ops(&self) -> u32
        ensures { result ≡ self.now.spare_ops }
    {
        self.ops.len(None)
    }

    pub(crate) fn spare_slots(&self) -> u32
        ensures { result ≡ self.now.spare_slots }
    {
        self.inputs.len(None)
    }

    /// Makes the spare ops and the spare slots at least so many.
    pub fn reserve(&mut self, ops: u32, slots: u32) -> Result<(), Memory>
        ensures same { Same self.old self.new }
        ensures ops_stay { self.old.spare_ops ≤ self.new.spare_ops }
        ensures slots_stay { self.old.spare_slots ≤ self.new.spare_slots }
        ensures ops { IfOk result (λ _. ops ≤ self.new.spare_ops) }
        ensures slots { IfOk result (λ _. slots ≤ self.new.spare_slots) }
        ensures ready { ops ≤ self.old.spare_ops → slots ≤ self.old.spare_slots → IsOk result × SameSpares self.old self.new }
    {
        let have = self.spare_ops();
        'ops: for _ in have..ops {
            self.grow_ops()?;
        }
        let have = self.spare_slots();
        'slots: for _ in have..slots {
            self.grow_slots()?;
        }
        Ok(())
    }

    /// A new block with no ops.
    pub fn add_block(&mut self) -> Result<BlockId, Memory>
        ensures number { IfOk result (λ b. b.0 ≡ length self.old.blocks) }
        ensures blocks { IfOk result (λ _. length self.new.blocks ≡ length self.old.blocks + 1) }
        ensures failed { IfErr result (λ _. length self.new.blocks ≡ length self.old.blocks) }
        ensures ops { op_at self.new ≡ op_at self.old }
        ensures lists { block_at self.new ≡ block_at self.old }
        ensures uses { uses_at self.new ≡ uses_at self.old }
        ensures spares { SameSpares self.old self.new }
    {
        Ok(BlockId(self.ops.add_list()?))
    }
}
