//! New ops.
ghost use Rattle.std.specs.Prelude.{◌≡◌, ◌+◌, ◌<◌, ◌≤◌, ◌^◌, [], ◌∷◌, ◌++◌, length, Some, IsOk, IfOk, IfErr};
ghost use Rattle.node_lists.specs.Families.{inserted};
ghost use Rattle.opgraph.specs.Graph.{OpRow, Same, Added, Rewritten, op_at, block_at, IsOp, IsBlock, IsValue, AreValues, numbers};

use crate::code::{Body, Code};
use crate::graph::OpGraph;
use crate::ids::{BlockId, OpId, ValueId};
use bits_core::{Memory, Width};

impl OpGraph {
    /// A spare op becomes the last of a block.
    fn claim_last(&mut self, block: u32, code: Code, width: Option<Width>) -> u32
        requires block { IsBlock self.old block }
        requires spare { 0 < self.old.spare_ops }
        ensures added { Added result (record { block = block; code = code; inputs = []; width = width })
            (block_at self.old block ++ result ∷ []) self.old self.new }
        ensures spare_ops { self.new.spare_ops + 1 ≡ self.old.spare_ops }
        ensures spare_slots { self.new.spare_slots ≡ self.old.spare_slots }
    {
        match self.ops.first(None) {
            None => 0,
            Some(op) => {
                self.ops.set_held(op, Body { code, width });
                self.ops.move_last(op, Some(block));
                op
            }
        }
    }

    /// A spare op becomes the first of a block.
    fn claim_first(&mut self, block: u32, code: Code, width: Option<Width>) -> u32
        requires block { IsBlock self.old block }
        requires spare { 0 < self.old.spare_ops }
        ensures added { Added result (record { block = block; code = code; inputs = []; width = width })
            (result ∷ block_at self.old block) self.old self.new }
        ensures spare_ops { self.new.spare_ops + 1 ≡ self.old.spare_ops }
        ensures spare_slots { self.new.spare_slots ≡ self.old.spare_slots }
    {
        match self.ops.first(None) {
            None => 0,
            Some(op) => {
                self.ops.set_held(op, Body { code, width });
                self.ops.move_first(op, Some(block));
                op
            }
        }
    }

    /// A spare op comes just before another one.
    fn claim_before(&mut self, at: u32, code: Code, width: Option<Width>) -> u32
        requires at { IsOp self.old at }
        requires spare { 0 < self.old.spare_ops }
        ensures added { (r : OpRow)
            → op_at self.old at ≡ Some r
            → Added result (record { block = r.block; code = code; inputs = []; width = width })
            (inserted result at (block_at self.old r.block)) self.old self.new }
        ensures spare_ops { self.new.spare_ops + 1 ≡ self.old.spare_ops }
        ensures spare_slots { self.new.spare_slots ≡ self.old.spare_slots }
    {
        match self.ops.first(None) {
            None => 0,
            Some(op) => {
                self.ops.set_held(op, Body { code, width });
                self.ops.move_before(op, at);
                op
            }
        }
    }

    /// Makes sure of a spare op and a spare slot for each input.
    fn want(&mut self, inputs: &[ValueId]) -> Result<(), Memory>
        ensures same { Same self.old self.new }
        ensures ops_stay { self.old.spare_ops ≤ self.new.spare_ops }
        ensures slots_stay { self.old.spare_slots ≤ self.new.spare_slots }
        ensures ops { IfOk result (λ _. 0 < self.new.spare_ops) }
        ensures slots { IfOk result (λ _. length inputs.now ≤ self.new.spare_slots) }
        ensures ready { 0 < self.old.spare_ops → length inputs.now ≤ self.old.spare_slots → IsOk result }
    {
        if inputs.len() <= self.spare_slots() as usize {
            return self.reserve(1, 0);
        }
        match u32::try_from(inputs.len()) {
            Ok(count) => self.reserve(1, count),
            Err(_) => Err(Memory),
        }
    }

    /// A new op, the last of the block. It takes one spare op and a spare slot
    /// for each input, and memory only where these don't suffice.
    pub fn add_op(
        &mut self,
        block: BlockId,
        code: Code,
        inputs: &[ValueId],
        width: Option<Width>,
    ) -> Result<OpId, Memory>
        requires block { IsBlock self.old block.0 }
        requires inputs { AreValues self.old (numbers inputs.now) }
        ensures added { IfOk result
            (λ op. Added op.0 (record { block = block.0; code = code; inputs = numbers inputs.now; width = width })
            (block_at self.old block.0 ++ op.0 ∷ []) self.old self.new) }
        ensures failed { IfErr result (λ _. Same self.old self.new
            × (self.old.spare_ops ≤ self.new.spare_ops)
            × (self.old.spare_slots ≤ self.new.spare_slots)) }
        ensures ready { 0 < self.old.spare_ops → length inputs.now ≤ self.old.spare_slots → IsOk result }
        ensures spare_ops { self.old.spare_ops ≤ self.new.spare_ops + 1 }
        ensures spare_slots { self.old.spare_slots ≤ self.new.spare_slots + length inputs.now }
    {
        self.want(inputs)?;
        let op = self.claim_last(block.0, code, width);
        self.attach_all(op, inputs);
        Ok(OpId(op))
    }

    /// As `add_op`, with the new op just before `at`, in the block of `at`.
    pub fn add_op_before(
        &mut self,
        at: OpId,
        code: Code,
        inputs: &[ValueId],
        width: Option<Width>,
    ) -> Result<OpId, Memory>
        requires at { IsOp self.old at.0 }
        requires inputs { AreValues self.old (numbers inputs.now) }
        ensures added { IfOk result (λ op.
            (r : OpRow)
            → op_at self.old at.0 ≡ Some r
            → Added op.0 (record { block = r.block; code = code; inputs = numbers inputs.now; width = width })
            (inserted op.0 at.0 (block_at self.old r.block)) self.old self.new) }
        ensures failed { IfErr result (λ _. Same self.old self.new
            × (self.old.spare_ops ≤ self.new.spare_ops)
            × (self.old.spare_slots ≤ self.new.spare_slots)) }
        ensures ready { 0 < self.old.spare_ops → length inputs.now ≤ self.old.spare_slots → IsOk result }
        ensures spare_ops { self.old.spare_ops ≤ self.new.spare_ops + 1 }
        ensures spare_slots { self.old.spare_slots ≤ self.new.spare_slots + length inputs.now }
    {
        self.want(inputs)?;
        let op = self.claim_before(at.0, code, width);
        self.attach_all(op, inputs);
        Ok(OpId(op))
    }

    /// A new MULTIEQUAL with no inputs, the first op of the block.
    pub fn add_multi(&mut self, block: BlockId, atom: u32, width: Width) -> Result<OpId, Memory>
        requires { IsBlock self.old block.0 }
        ensures added { IfOk result
            (λ op. Added op.0 (record { block = block.0; code = Code.Multi atom; inputs = []; width = Some width })
            (op.0 ∷ block_at self.old block.0) self.old self.new) }
        ensures failed { IfErr result (λ _. Same self.old self.new
            × (self.old.spare_ops ≤ self.new.spare_ops)
            × (self.old.spare_slots ≤ self.new.spare_slots)) }
        ensures spare_ops { self.old.spare_ops ≤ self.new.spare_ops + 1 }
        ensures spare_slots { self.old.spare_slots ≤ self.new.spare_slots }
    {
        self.reserve(1, 0)?;
        Ok(OpId(self.claim_first(block.0, Code::Multi(atom), Some(width))))
    }

    /// A new last input of an op. It takes a spare slot, and memory only where
    /// there is none.
    pub fn push_input(&mut self, op: OpId, v: ValueId) -> Result<(), Memory>
        requires op { IsOp self.old op.0 }
        requires value { IsValue self.old v.0 }
        ensures row { IfOk result (λ _. (r : OpRow)
            → op_at self.old op.0 ≡ Some r
            → Rewritten op.0 (record r { inputs = r.inputs ++ v.0 ∷ [] }) self.old self.new) }
        ensures failed { IfErr result (λ _. Same self.old self.new
            × (self.old.spare_ops ≤ self.new.spare_ops)
            × (self.old.spare_slots ≤ self.new.spare_slots)) }
        ensures ready { 0 < self.old.spare_slots → IsOk result }
        ensures spare_ops { self.old.spare_ops ≤ self.new.spare_ops }
        ensures spare_slots { self.old.spare_slots ≤ self.new.spare_slots + 1 }
    {
        self.reserve(0, 1)?;
        self.attach(op.0, v.0);
        Ok(())
    }
}
