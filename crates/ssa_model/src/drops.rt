//! Ops of a graph that are dropped at once. First each becomes a constant, so that none of them reads another; then
//! each is removed.

ghost use Rattle.std.specs.Prelude.{◌≡◌, ◌+◌, length};
ghost use Rattle.node_lists.specs.Chains.{Apart};
ghost use Rattle.opgraph.specs.Graph.{op_at};
ghost use Rattle.ssa_model.specs.Drops.{op_numbers, AreOps, AreReadByNone, Blanked, Cleared, slots_of};

use opgraph::{Code, OpGraph, OpId};

/// The ops become constants, which read nothing.
pub(crate) fn blank_all(graph: &mut OpGraph, ops: &[OpId])
    requires ops { AreOps graph.old (op_numbers ops.now) }
    requires once { Apart (op_numbers ops.now) }
    ensures blanked { Blanked (op_numbers ops.now) graph.old graph.new }
    ensures spare_ops { graph.new.spare_ops ≡ graph.old.spare_ops }
    ensures spare_slots { graph.new.spare_slots ≡ graph.old.spare_slots + slots_of graph.old (op_numbers ops.now) }
{
    graph.known();
    for op in ops {
        graph.retarget(*op, Code::Const(0), &[]);
    }
}

/// The ops, of which no op reads any, leave the graph.
pub(crate) fn remove_all(graph: &mut OpGraph, ops: &[OpId])
    requires ops { AreOps graph.old (op_numbers ops.now) }
    requires once { Apart (op_numbers ops.now) }
    requires unread { AreReadByNone (op_at graph.old) (op_numbers ops.now) }
    ensures cleared { Cleared (op_numbers ops.now) graph.old graph.new }
    ensures spare_ops { graph.new.spare_ops ≡ graph.old.spare_ops + length ops.now }
    ensures spare_slots { graph.new.spare_slots ≡ graph.old.spare_slots + slots_of graph.old (op_numbers ops.now) }
{
    graph.known();
    for op in ops {
        graph.remove(*op);
    }
}
