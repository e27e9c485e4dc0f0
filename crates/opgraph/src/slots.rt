//! The slots of an op, one at a time.
ghost use Rattle.std.specs.Prelude.{◌≡◌, ◌+◌, ◌<◌, ◌≤◌, [], ◌∷◌, ◌++◌, length, Some};
ghost use Rattle.opgraph.specs.Graph.{OpRow, op_at, IsOp, IsValue, AreValues, numbers, inputs_in, front, Rewritten, SameSpares};

use crate::code::{Body, Code};
use crate::graph::OpGraph;
use crate::ids::{OpId, ValueId};

impl OpGraph {
    /// One spare slot becomes the last input of an op.
    pub(crate) fn attach(&mut self, op: u32, v: u32)
        requires op { IsOp self.old op }
        requires value { IsValue self.old v }
        requires spare { 0 < self.old.spare_slots }
        ensures row { (r : OpRow)
            → op_at self.old op ≡ Some r
            → Rewritten op (record r { inputs = r.inputs ++ v ∷ [] }) self.old self.new }
        ensures spare_ops { self.new.spare_ops ≡ self.old.spare_ops }
        ensures spare_slots { self.new.spare_slots + 1 ≡ self.old.spare_slots }
    {
        if let Some(slot) = self.inputs.first(None) {
            let place = self.inputs.len(Some(op));
            self.inputs.set_held(slot, place);
            self.inputs.move_last(slot, Some(op));
            self.uses.move_first(slot, Some(v));
        }
    }

    /// The last input of an op becomes a spare slot.
    pub(crate) fn detach(&mut self, op: u32)
        requires op { IsOp self.old op }
        requires some { 0 < length (inputs_in (op_at self.old op)) }
        ensures row { (r : OpRow)
            → op_at self.old op ≡ Some r
            → Rewritten op (record r { inputs = front r.inputs }) self.old self.new }
        ensures spare_ops { self.new.spare_ops ≡ self.old.spare_ops }
        ensures spare_slots { self.new.spare_slots ≡ self.old.spare_slots + 1 }
    {
        if let Some(slot) = self.inputs.last(Some(op)) {
            self.inputs.move_first(slot, None);
            self.uses.move_first(slot, None);
        }
    }

    pub(crate) fn set_code(&mut self, op: u32, code: Code)
        requires { IsOp self.old op }
        ensures row { (r : OpRow) → op_at self.old op ≡ Some r → Rewritten op (record r { code = code }) self.old self.new }
        ensures spares { SameSpares self.old self.new }
    {
        let body = self.ops.held(op);
        self.ops.set_held(op, Body { code, ..body });
    }

    /// Spare slots become the last inputs of an op.
    pub(crate) fn attach_all(&mut self, op: u32, inputs: &[ValueId])
        requires op { IsOp self.old op }
        requires values { AreValues self.old (numbers inputs.now) }
        requires spare { length inputs.now ≤ self.old.spare_slots }
        ensures row { (r : OpRow)
            → op_at self.old op ≡ Some r
            → Rewritten op (record r { inputs = r.inputs ++ numbers inputs.now }) self.old self.new }
        ensures spare_ops { self.new.spare_ops ≡ self.old.spare_ops }
        ensures spare_slots { self.new.spare_slots + length inputs.now ≡ self.old.spare_slots }
    {
        self.known();
        for v in inputs {
            self.attach(op, v.0);
        }
    }

    /// The inputs of an op become spare slots.
    pub(crate) fn detach_all(&mut self, op: u32)
        requires { IsOp self.old op }
        ensures row { (r : OpRow) → op_at self.old op ≡ Some r → Rewritten op (record r { inputs = [] }) self.old self.new }
        ensures spare_ops { self.new.spare_ops ≡ self.old.spare_ops }
        ensures spare_slots { self.new.spare_slots ≡ self.old.spare_slots + length (inputs_in (op_at self.old op)) }
    {
        self.known();
        let count = self.input_count(OpId(op));
        'slots: for _ in 0..count {
            self.detach(op);
        }
    }
}
