//! A place in a graph.

ghost use Rattle.std.specs.Prelude.{◌≡◌, ◌<◌, ℕ, ◌↔◌, length, Some, IsTrue};
ghost use Rattle.rule_graph.specs.declared.node.Op.TheVariants as O;
ghost use Rattle.rule_graph.specs.Graph.{IsFormed, IsPlain, op_at, real, width_at};
ghost use Rattle.rule_graph.specs.Sees.{IsSeen};

use crate::node::{Node, Op};
use bits_core::{Width, Word};
use rule_views::{Pair, Single, View};

/// A node that is no COPY, by its number.
#[derive(Clone, Copy)]
pub struct Place<'a> {
    pub nodes: &'a [Node],
    pub at: u32,
    pub ghost formed: { IsFormed nodes.now },
    pub ghost plain: { IsPlain nodes.now at },
}

fn op_here(nodes: &[Node], i: u32) -> Op
    requires { i < length nodes.now }
    ensures { op_at nodes.now i ≡ Some result }
{
    nodes[i as usize].op
}

fn width_here(nodes: &[Node], i: u32) -> Width
    requires { i < length nodes.now }
    ensures { result.bytes ≡ width_at nodes.now i }
{
    nodes[i as usize].width
}

/// The place of an input: what a COPY is of, else the node itself.
pub fn input<'a>(nodes: &'a [Node], i: u32) -> Place<'a>
    requires formed { IsFormed nodes.now }
    requires inside { i < length nodes.now }
    ensures nodes { result.nodes.now ≡ nodes.now }
    ensures at { result.at ≡ real nodes.now i }
{
    match op_here(nodes, i) {
        Op::Copy(j) => Place { nodes, at: j },
        _ => Place { nodes, at: i },
    }
}

impl<'a> View for Place<'a> {
    ghost Sees = { λ vs p e. IsSeen p.nodes.now p.at vs e };

    fn constant(self) -> Option<Word> {
        match op_here(self.nodes, self.at) {
            Op::Const(c) => Some(c),
            _ => None,
        }
    }

    fn single(self) -> Option<(Single, Self)> {
        match op_here(self.nodes, self.at) {
            Op::Single(node, a) => Some((node, input(self.nodes, a))),
            _ => None,
        }
    }

    fn pair(self) -> Option<(Pair, Self, Self)> {
        match op_here(self.nodes, self.at) {
            Op::Pair(node, a, b) => Some((node, input(self.nodes, a), input(self.nodes, b))),
            _ => None,
        }
    }

    fn width(self) -> Width {
        width_here(self.nodes, self.at)
    }

    fn same(self, other: Self) -> bool {
        if self.at == other.at {
            return true;
        }
        match self.constant() {
            Some(c) => is_constant(other, c),
            None => false,
        }
    }
}

fn is_constant(p: Place<'_>, c: Word) -> bool
    ensures { IsTrue result ↔ (op_at p.entry.nodes.now p.entry.at ≡ Some (O.Const c)) }
{
    match op_here(p.nodes, p.at) {
        Op::Const(d) => d == c,
        _ => false,
    }
}
