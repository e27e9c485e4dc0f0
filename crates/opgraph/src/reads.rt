//! What the graph says.
ghost use Rattle.std.specs.Prelude.{◌≡◌, ◌<◌, ◌↔◌, length, None, Some, IsTrue, IsSome, IfSome, slice_get};
ghost use Rattle.node_lists.specs.Chains.{last_or};
ghost use Rattle.opgraph.specs.Graph.{OpRow, op_at, block_at, op_number, IsOp, IsBlock, IsValue, inputs_in, IsWhole, IsCounted};

use crate::code::Code;
use crate::graph::OpGraph;
use crate::ids::{BlockId, OpId, ValueId};
use bits_core::Width;

impl OpGraph {
    /// The lists of the graph are as the map of its ops says.
    pub fn known(&self)
        ensures { IsWhole self.now }
    {
        let _ = &self.ops;
    }

    /// There are at most 2^32 - 1 blocks, as many ops with the spare ones, and as many inputs with the spare slots.
    pub fn counted(&self)
        ensures { IsCounted self.now }
    {
        let _ops = self.ops.size();
        let _blocks = self.ops.lists();
        let _slots = self.inputs.size();
    }

    /// Whether the op is in the graph.
    pub fn contains_op(&self, op: OpId) -> bool
        ensures { IsTrue result ↔ IsOp self.now op.0 }
    {
        if op.0 < self.ops.size() {
            self.ops.list(op.0).is_some()
        } else {
            false
        }
    }

    /// Whether the value is in the graph: that of an op with a width.
    pub fn contains_value(&self, v: ValueId) -> bool
        ensures { IsTrue result ↔ IsValue self.now v.0 }
    {
        if self.contains_op(OpId(v.0)) {
            self.width(OpId(v.0)).is_some()
        } else {
            false
        }
    }

    /// Whether the block is in the graph.
    pub fn contains_block(&self, b: BlockId) -> bool
        ensures { IsTrue result ↔ IsBlock self.now b.0 }
    {
        b.0 < self.ops.lists()
    }

    /// The last op of a block.
    pub fn last_op(&self, b: BlockId) -> Option<OpId>
        requires { IsBlock self.now b.0 }
        ensures last { op_number result ≡ last_or None (block_at self.now b.0) }
        ensures known { IfSome result (λ op. IsOp self.now op.0) }
    {
        self.known();
        match self.ops.last(Some(b.0)) {
            None => None,
            Some(op) => Some(OpId(op)),
        }
    }

    /// The op whose value it is.
    pub fn def(&self, v: ValueId) -> OpId
        requires { IsValue self.now v.0 }
        ensures number { result.0 ≡ v.0 }
        ensures op { IsOp self.now result.0 }
    {
        let _ = &self.ops;
        OpId(v.0)
    }

    /// What the op does.
    pub fn code(&self, op: OpId) -> Code
        requires { IsOp self.now op.0 }
        ensures { IfSome (op_at self.now op.0) (λ r. result ≡ r.code) }
    {
        self.ops.held(op.0).code
    }

    /// How wide the op's value is, if it has one.
    pub fn width(&self, op: OpId) -> Option<Width>
        requires { IsOp self.now op.0 }
        ensures { IfSome (op_at self.now op.0) (λ r. result ≡ r.width) }
    {
        self.ops.held(op.0).width
    }

    /// How many inputs the op has.
    pub fn input_count(&self, op: OpId) -> u32
        requires { IsOp self.now op.0 }
        ensures { result ≡ length (inputs_in (op_at self.now op.0)) }
    {
        self.inputs.len(Some(op.0))
    }

    /// The value that the input at a place reads.
    pub fn input(&self, op: OpId, slot: u32) -> ValueId
        requires op { IsOp self.now op.0 }
        requires slot { slot < length (inputs_in (op_at self.now op.0)) }
        ensures value { slice_get (inputs_in (op_at self.now op.0)) slot ≡ Some result.0 }
        ensures known { IsValue self.now result.0 }
    {
        let value = match self.inputs.nth(Some(op.0), slot) {
            None => None,
            Some(slot) => self.uses.list(slot),
        };
        ValueId(value.unwrap_or(0))
    }
}
