//! The ops of a block, the inputs of an op, and the uses of a value, one by one.
ghost use Rattle.std.specs.Prelude.{◌≡◌, ℕ, length, drop, slice_get};
ghost use Rattle.std.specs.Iterator.{at_most};
ghost use Rattle.opgraph.specs.Graph.{block_at, uses_at, op_at, inputs_in, value_ids, IsBlock, IsOp, IsValue, IsWhole};
ghost use Rattle.opgraph.specs.Parts.{op_ids};

use crate::code::Body;
use crate::graph::OpGraph;
use crate::ids::{BlockId, OpId, Slot, ValueId};
use node_lists::{Lists, Walk};
use std::marker::Model;

/// The ops of a block, in order.
#[derive(Drop)]
pub struct BlockOps<'a> {
    walk: Walk<'a, Body>,
}

impl<'a> Model for BlockOps<'a> {
    ghost use Rattle.std.specs.Prelude.{List};
    ghost use Rattle.opgraph.specs.Parts.{op_ids};
    ghost use Rattle.opgraph.specs.declared.ids.OpId.{OpId};

    ghost Value = { List OpId };

    ghost view = { λ b. op_ids b.walk };
}

impl<'a> Iterator for BlockOps<'a> {
    type Item = OpId;

    ghost next_gives = { λ s r t. (r ≡ slice_get s 0) × (t ≡ drop 1 s) };

    ghost remaining = { λ s. at_most (length s) };

    fn next(&mut self) -> Option<OpId> {
        match self.walk.next() {
            None => None,
            Some(op) => Some(OpId(op)),
        }
    }
}

/// The values that the inputs of an op read, in order.
#[derive(Drop)]
pub struct OpInputs<'a> {
    walk: Walk<'a, u32>,
    uses: &'a Lists<()>,
}

impl<'a> Model for OpInputs<'a> {
    ghost use Rattle.std.specs.Prelude.{List, length, map};
    ghost use Rattle.opgraph.specs.Parts.{value_read, AreLow};
    ghost use Rattle.opgraph.specs.declared.ids.ValueId.{ValueId};

    ghost Value = { List ValueId };

    ghost view = { λ i. map (value_read i.uses.now) i.walk };

    ghost invariant = { λ i. AreLow i.walk (length i.uses.now.held) };
}

impl<'a> Iterator for OpInputs<'a> {
    type Item = ValueId;

    ghost next_gives = { λ s r t. (r ≡ slice_get s 0) × (t ≡ drop 1 s) };

    ghost remaining = { λ s. at_most (length s) };

    fn next(&mut self) -> Option<ValueId> {
        match self.walk.next() {
            None => None,
            Some(slot) => Some(ValueId(self.uses.list(slot).unwrap_or(0))),
        }
    }
}

/// The slots that read a value.
#[derive(Drop)]
pub struct Uses<'a> {
    walk: Walk<'a, ()>,
    inputs: &'a Lists<u32>,
}

impl<'a> Model for Uses<'a> {
    ghost use Rattle.std.specs.Prelude.{List, length, map};
    ghost use Rattle.opgraph.specs.Parts.{slot_of, AreLow};
    ghost use Rattle.opgraph.specs.declared.ids.Slot.{Slot};

    ghost Value = { List Slot };

    ghost view = { λ u. map (slot_of u.inputs.now) u.walk };

    ghost invariant = { λ u. AreLow u.walk (length u.inputs.now.held) };
}

impl<'a> Iterator for Uses<'a> {
    type Item = Slot;

    ghost next_gives = { λ s r t. (r ≡ slice_get s 0) × (t ≡ drop 1 s) };

    ghost remaining = { λ s. at_most (length s) };

    fn next(&mut self) -> Option<Slot> {
        match self.walk.next() {
            None => None,
            Some(slot) => Some(Slot {
                op: OpId(self.inputs.list(slot).unwrap_or(0)),
                slot: self.inputs.held(slot),
            }),
        }
    }
}

impl OpGraph {
    /// The ops of a block, in order.
    pub fn block_ops(&self, b: BlockId) -> BlockOps<'_>
        requires { IsBlock self.now b.0 }
        ensures items { result ≡ op_ids (block_at self.now b.0) }
        ensures whole { IsWhole self.now }
    {
        self.known();
        BlockOps {
            walk: self.ops.walk(Some(b.0)),
        }
    }

    /// The values that the inputs of an op read, in order.
    pub fn inputs(&self, op: OpId) -> OpInputs<'_>
        requires { IsOp self.now op.0 }
        ensures items { result ≡ value_ids (inputs_in (op_at self.now op.0)) }
        ensures whole { IsWhole self.now }
    {
        self.known();
        OpInputs {
            walk: self.inputs.walk(Some(op.0)),
            uses: &self.uses,
        }
    }

    /// The slots that read a value, in no order that is told.
    pub fn uses(&self, v: ValueId) -> Uses<'_>
        requires { IsValue self.now v.0 }
        ensures items { result ≡ uses_at self.now v.0 }
        ensures whole { IsWhole self.now }
    {
        self.known();
        Uses {
            walk: self.uses.walk(Some(v.0)),
            inputs: &self.inputs,
        }
    }
}
