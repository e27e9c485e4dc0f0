//! Functions in SSA form, and edits that keep the form.
ghost use Rattle.std.specs.Prelude.{◌≡◌, ◌≢◌, ◌+◌, ◌<◌, ◌≤◌, ℕ, [], Some, None, length, IsOk, IfOk, IfErr};
ghost use Rattle.opgraph.specs.Graph.{OpRow, op_at, IsOp, IsValue, AreValues, numbers, inputs_in, uses_at};
ghost use Rattle.node_lists.specs.Chains.{Apart};
ghost use Rattle.ssa_model.specs.Drops.{op_numbers, AreOps, AreUnread, slots_of, without_ops};
ghost use Rattle.ssa_model.specs.Roles.{role_of};
ghost use Rattle.ssa_model.specs.Outline.{form, outline, width_at};
ghost use Rattle.ssa_model.specs.Paths.{IsJoin};
ghost use Rattle.ssa_model.specs.Formed.{Formed};
ghost use Rattle.ssa_model.specs.Edits.{form_at, IsSsa, one_more, renaming, IsAvailableFor, with_row, with_op, without_op, AreAvailable};

use crate::drops::{blank_all, remove_all};
use crate::form::Parts;
use bits_core::{Memory, Width};
use opgraph::{Code, OpId, ValueId};
use std::marker::Model;

/// A function in SSA form: every path from the entry to a use passes the definition, and its blocks and ops have the
/// form that a run needs.
#[derive(Drop)]
pub struct SsaFunction {
    parts: Parts,
    edits: u64,
}

impl Model for SsaFunction {
    ghost use Rattle.ssa_model.specs.Outline.{form};
    ghost use Rattle.ssa_model.specs.Edits.{SsaForm, IsSsa};

    ghost Value = { SsaForm };

    ghost view = { λ f. record { parts = f.parts; edits = f.edits } };

    ghost invariant = { λ f. IsSsa (form f.parts) };
}

impl SsaFunction {
    /// The parts as a function, with no edit made.
    pub fn seal(parts: Parts) -> SsaFunction
        requires { IsSsa (form parts) }
        ensures parts { result.parts ≡ parts }
        ensures edits { result.edits ≡ 0 }
    {
        SsaFunction { parts, edits: 0 }
    }

    /// The graph, the blocks and the entry.
    pub fn parts(&self) -> &Parts
        ensures parts { result.now ≡ self.now.parts }
        ensures form { IsSsa (form self.now.parts) }
    {
        &self.parts
    }

    /// How many values were replaced and ops retargeted since the function was sealed, at most 2^64 - 1.
    pub fn edits(&self) -> u64
        ensures { result ≡ self.now.edits }
    {
        self.edits
    }

    /// Makes the spare ops and the spare slots of the graph at least so many.
    pub fn reserve(&mut self, ops: u32, slots: u32) -> Result<(), Memory>
        ensures form { form_at self.new ≡ form_at self.old }
        ensures edits { self.new.edits ≡ self.old.edits }
        ensures ops_stay { self.old.parts.graph.spare_ops ≤ self.new.parts.graph.spare_ops }
        ensures slots_stay { self.old.parts.graph.spare_slots ≤ self.new.parts.graph.spare_slots }
        ensures ops { IfOk result (λ _. ops ≤ self.new.parts.graph.spare_ops) }
        ensures slots { IfOk result (λ _. slots ≤ self.new.parts.graph.spare_slots) }
        ensures ready { ops ≤ self.old.parts.graph.spare_ops → slots ≤ self.old.parts.graph.spare_slots → IsOk result }
    {
        self.parts.graph.reserve(ops, slots)
    }

    /// Each use of the old value reads the new one, which is available there.
    pub fn replace_value(&mut self, old_value: ValueId, new_value: ValueId)
        requires old { IsValue self.old.parts.graph old_value.0 }
        requires new { IsValue self.old.parts.graph new_value.0 }
        requires other { old_value.0 ≢ new_value.0 }
        requires width { width_at (op_at self.old.parts.graph) old_value.0 ≡ width_at (op_at self.old.parts.graph) new_value.0 }
        requires available { IsAvailableFor (form_at self.old) old_value.0 new_value.0 }
        ensures form { form_at self.new ≡ renaming old_value.0 new_value.0 (form_at self.old) }
        ensures edits { self.new.edits ≡ one_more self.old.edits }
        ensures spare_ops { self.new.parts.graph.spare_ops ≡ self.old.parts.graph.spare_ops }
        ensures spare_slots { self.new.parts.graph.spare_slots ≡ self.old.parts.graph.spare_slots }
    {
        self.parts.graph.replace_uses(old_value, new_value);
        self.edits = self.edits.saturating_add(1);
    }

    /// The op, which is or becomes no MULTIEQUAL, does something else, with other inputs.
    pub fn retarget(&mut self, op: OpId, code: Code, inputs: &[ValueId])
        requires op { IsOp self.old.parts.graph op.0 }
        requires inputs { AreValues self.old.parts.graph (numbers inputs.now) }
        requires room { length inputs.now
            ≤ self.old.parts.graph.spare_slots + length (inputs_in (op_at self.old.parts.graph op.0)) }
        requires plain { IsJoin (role_of code) → ⊥ }
        requires available { (r : OpRow)
            → op_at self.old.parts.graph op.0 ≡ Some r
            → AreAvailable (form_at self.old) op.0 r (numbers inputs.now) }
        requires formed { (r : OpRow)
            → op_at self.old.parts.graph op.0 ≡ Some r
            → Formed
            (outline (with_row op.0 (record r { code = code; inputs = numbers inputs.now }) (form_at self.old))) }
        ensures form { (r : OpRow)
            → op_at self.old.parts.graph op.0 ≡ Some r
            → form_at self.new
            ≡ with_row op.0 (record r { code = code; inputs = numbers inputs.now }) (form_at self.old) }
        ensures edits { self.new.edits ≡ one_more self.old.edits }
        ensures spare_ops { self.new.parts.graph.spare_ops ≡ self.old.parts.graph.spare_ops }
        ensures spare_slots { self.new.parts.graph.spare_slots + length inputs.now
            ≡ self.old.parts.graph.spare_slots + length (inputs_in (op_at self.old.parts.graph op.0)) }
    {
        self.parts.graph.retarget(op, code, inputs);
        self.edits = self.edits.saturating_add(1);
    }

    /// A new op directly before another one, in its block. It takes one spare op and a spare slot for each input, and
    /// memory only where these don't suffice.
    pub fn add_before(
        &mut self,
        at: OpId,
        code: Code,
        inputs: &[ValueId],
        width: Width,
    ) -> Result<OpId, Memory>
        requires at { IsOp self.old.parts.graph at.0 }
        requires inputs { AreValues self.old.parts.graph (numbers inputs.now) }
        requires plain { IsJoin (role_of code) → ⊥ }
        requires available { (r : OpRow)
            → op_at self.old.parts.graph at.0 ≡ Some r
            → AreAvailable (form_at self.old) at.0 r (numbers inputs.now) }
        requires formed { (x : ℕ) (r : OpRow)
            → op_at self.old.parts.graph x ≡ None
            → op_at self.old.parts.graph at.0 ≡ Some r
            → Formed (outline (with_op x at.0
            (record { block = r.block; code = code; inputs = numbers inputs.now; width = Some width })
            (form_at self.old))) }
        ensures fresh { IfOk result (λ op. op_at self.old.parts.graph op.0 ≡ None) }
        ensures form { IfOk result (λ op. (r : OpRow)
            → op_at self.old.parts.graph at.0 ≡ Some r
            → form_at self.new
            ≡ with_op op.0 at.0
            (record { block = r.block; code = code; inputs = numbers inputs.now; width = Some width })
            (form_at self.old)) }
        ensures failed { IfErr result (λ _. (form_at self.new ≡ form_at self.old)
            × (self.old.parts.graph.spare_ops ≤ self.new.parts.graph.spare_ops)
            × (self.old.parts.graph.spare_slots ≤ self.new.parts.graph.spare_slots)) }
        ensures ready { 0 < self.old.parts.graph.spare_ops → length inputs.now ≤ self.old.parts.graph.spare_slots → IsOk result }
        ensures edits { self.new.edits ≡ self.old.edits }
        ensures spare_ops { self.old.parts.graph.spare_ops ≤ self.new.parts.graph.spare_ops + 1 }
        ensures spare_slots { self.old.parts.graph.spare_slots ≤ self.new.parts.graph.spare_slots + length inputs.now }
    {
        self.parts.graph.known();
        self.parts
            .graph
            .add_op_before(at, code, inputs, Some(width))
    }

    /// The op, whose value nothing reads, leaves its block. It and its slots become spare.
    pub fn drop_op(&mut self, op: OpId)
        requires op { IsOp self.old.parts.graph op.0 }
        requires uses { uses_at self.old.parts.graph op.0 ≡ [] }
        requires formed { (r : OpRow)
            → op_at self.old.parts.graph op.0 ≡ Some r
            → Formed (outline (without_op op.0 r (form_at self.old))) }
        ensures form { (r : OpRow)
            → op_at self.old.parts.graph op.0 ≡ Some r
            → form_at self.new ≡ without_op op.0 r (form_at self.old) }
        ensures edits { self.new.edits ≡ self.old.edits }
        ensures spare_ops { self.new.parts.graph.spare_ops ≡ self.old.parts.graph.spare_ops + 1 }
        ensures spare_slots { self.new.parts.graph.spare_slots
            ≡ self.old.parts.graph.spare_slots + length (inputs_in (op_at self.old.parts.graph op.0)) }
    {
        self.parts.graph.known();
        self.parts.graph.remove(op);
    }

    /// The ops, whose values they alone read, leave their blocks at once. They and their slots become spare.
    pub fn drop_ops(&mut self, ops: &[OpId])
        requires ops { AreOps self.old.parts.graph (op_numbers ops.now) }
        requires once { Apart (op_numbers ops.now) }
        requires unread { AreUnread (op_at self.old.parts.graph) (op_numbers ops.now) }
        requires formed { Formed (outline (without_ops (op_numbers ops.now) (form_at self.old))) }
        ensures form { form_at self.new ≡ without_ops (op_numbers ops.now) (form_at self.old) }
        ensures edits { self.new.edits ≡ self.old.edits }
        ensures spare_ops { self.new.parts.graph.spare_ops ≡ self.old.parts.graph.spare_ops + length ops.now }
        ensures spare_slots { self.new.parts.graph.spare_slots
            ≡ self.old.parts.graph.spare_slots + slots_of self.old.parts.graph (op_numbers ops.now) }
    {
        blank_all(&mut self.parts.graph, ops);
        remove_all(&mut self.parts.graph, ops);
    }
}
