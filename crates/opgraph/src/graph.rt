//! The graph.
ghost use Rattle.std.specs.Prelude.{◌≡◌, []};
ghost use Rattle.opgraph.specs.Graph.{op_at, block_at, uses_at};

use crate::code::Body;
use node_lists::Lists;
use std::alloc::Global;
use std::marker::Model;

/// Blocks with lists of ops, and the slots that read each value.
#[derive(Drop)]
pub struct OpGraph {
    /// The lists are the blocks, the nodes the ops.
    pub(crate) ops: Lists<Body>,
    /// The lists are the ops, the nodes the slots, each with its place.
    pub(crate) inputs: Lists<u32>,
    /// The lists are the values, the nodes the slots.
    pub(crate) uses: Lists<()>,
}

impl Model for OpGraph {
    ghost use Rattle.opgraph.specs.Graph.{Graph};

    ghost Value = { Graph };

    ghost use Rattle.opgraph.specs.Parts.{graph_of, Good};

    ghost view = { λ g. graph_of g.ops g.inputs g.uses };

    ghost invariant = { λ g. Good g.ops g.inputs g.uses };
}

impl OpGraph {
    /// A graph with no ops, no blocks and no spares.
    pub fn new(alloc: Global) -> OpGraph
        ensures ops { result.ops ≡ [] }
        ensures blocks { result.blocks ≡ [] }
        ensures spare_ops { result.spare_ops ≡ 0 }
        ensures spare_slots { result.spare_slots ≡ 0 }
    {
        OpGraph {
            ops: Lists::new(alloc),
            inputs: Lists::new(alloc),
            uses: Lists::new(alloc),
        }
    }
}
