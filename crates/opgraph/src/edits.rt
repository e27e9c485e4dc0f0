//! Edits that take no memory.
ghost use Rattle.std.specs.Prelude.{◌≡◌, ◌+◌, ◌<◌, ◌≤◌, ◌≢◌, [], length, Some, None, slice_set};
ghost use Rattle.opgraph.specs.Graph.{OpRow, op_at, uses_at, IsOp, IsValue, AreValues, numbers, inputs_in, Rewritten, Renamed, Removed, SameSpares};
ghost use Rattle.node_lists.specs.Families.{IsFull};
ghost use Rattle.opgraph.specs.Parts.{MovedAll};

use crate::code::Code;
use crate::graph::OpGraph;
use crate::ids::{OpId, ValueId};
use node_lists::Lists;

/// Each node of the list `before` goes to the list `after`.
fn move_all(uses: &mut Lists<()>, before: u32, after: u32)
    requires before { before < length uses.old.lists }
    requires after { after < length uses.old.lists }
    requires other { before ≢ after }
    requires full { IsFull uses.old }
    ensures { MovedAll before after uses.old uses.new }
{
    while let Some(slot) = uses.first(Some(before)) {
        uses.move_first(slot, Some(after));
    }
}

impl OpGraph {
    /// The input at a place reads another value.
    pub fn set_input(&mut self, op: OpId, slot: u32, v: ValueId)
        requires op { IsOp self.old op.0 }
        requires slot { slot < length (inputs_in (op_at self.old op.0)) }
        requires value { IsValue self.old v.0 }
        ensures row { (r : OpRow)
            → op_at self.old op.0 ≡ Some r
            → Rewritten op.0 (record r { inputs = slice_set r.inputs slot v.0 }) self.old self.new }
        ensures spares { SameSpares self.old self.new }
    {
        if let Some(slot) = self.inputs.nth(Some(op.0), slot) {
            self.uses.move_first(slot, Some(v.0));
        }
    }

    /// Each slot that reads the old value reads the new one.
    pub fn replace_uses(&mut self, old_value: ValueId, new_value: ValueId)
        requires old { IsValue self.old old_value.0 }
        requires new { IsValue self.old new_value.0 }
        requires other { old_value.0 ≢ new_value.0 }
        ensures renamed { Renamed old_value.0 new_value.0 self.old self.new }
        ensures none { uses_at self.new old_value.0 ≡ [] }
        ensures spares { SameSpares self.old self.new }
    {
        move_all(&mut self.uses, old_value.0, new_value.0);
    }

    /// The op does something else, with other inputs.
    pub fn retarget(&mut self, op: OpId, code: Code, inputs: &[ValueId])
        requires op { IsOp self.old op.0 }
        requires inputs { AreValues self.old (numbers inputs.now) }
        requires room { length inputs.now ≤ self.old.spare_slots + length (inputs_in (op_at self.old op.0)) }
        ensures row { (r : OpRow)
            → op_at self.old op.0 ≡ Some r
            → Rewritten op.0 (record r { code = code; inputs = numbers inputs.now }) self.old self.new }
        ensures spare_ops { self.new.spare_ops ≡ self.old.spare_ops }
        ensures spare_slots { self.new.spare_slots + length inputs.now
            ≡ self.old.spare_slots + length (inputs_in (op_at self.old op.0)) }
    {
        self.detach_all(op.0);
        self.set_code(op.0, code);
        self.attach_all(op.0, inputs);
    }

    /// An op without inputs becomes a spare one.
    fn release(&mut self, op: u32)
        requires op { IsOp self.old op }
        requires uses { uses_at self.old op ≡ [] }
        requires inputs { inputs_in (op_at self.old op) ≡ [] }
        ensures removed { (r : OpRow) → op_at self.old op ≡ Some r → Removed op r self.old self.new }
        ensures spare_ops { self.new.spare_ops ≡ self.old.spare_ops + 1 }
        ensures spare_slots { self.new.spare_slots ≡ self.old.spare_slots }
    {
        self.ops.move_first(op, None);
    }

    /// The op leaves the graph. It and its slots become spare.
    pub fn remove(&mut self, op: OpId)
        requires op { IsOp self.old op.0 }
        requires uses { uses_at self.old op.0 ≡ [] }
        ensures removed { (r : OpRow) → op_at self.old op.0 ≡ Some r → Removed op.0 r self.old self.new }
        ensures spare_ops { self.new.spare_ops ≡ self.old.spare_ops + 1 }
        ensures spare_slots { self.new.spare_slots ≡ self.old.spare_slots + length (inputs_in (op_at self.old op.0)) }
    {
        self.known();
        self.detach_all(op.0);
        self.release(op.0);
    }
}
