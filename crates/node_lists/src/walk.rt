//! A walk along a list.
ghost use Rattle.std.specs.Prelude.{◌≡◌, ℕ, length, drop, slice_get};
ghost use Rattle.std.specs.Iterator.{at_most};

use crate::list_arena::ListArena;
use heap_nodes::Link;
use std::marker::Model;

/// The nodes of a list that are left, in order.
#[derive(Drop)]
pub struct Walk<'a, T> {
    pub(crate) list_arena: &'a ListArena<T>,
    pub(crate) at: Option<Link>,
    pub(crate) left: u32,
}

impl<'a, T> Model for Walk<'a, T> {
    ghost use Rattle.std.specs.Prelude.{List, ℕ};
    ghost use Rattle.node_lists.specs.Walks.{nodes_left, IsWalk};

    ghost Value = { List ℕ };

    ghost view = { λ w. nodes_left w.list_arena.now w.at w.left };

    ghost invariant = { λ w. IsWalk w.list_arena.now w.at w.left };
}

impl<'a, T: Copy + Drop> Iterator for Walk<'a, T> {
    type Item = u32;

    ghost next_gives = { λ s r t. (r ≡ slice_get s 0) × (t ≡ drop 1 s) };

    ghost remaining = { λ s. at_most (length s) };

    fn next(&mut self) -> Option<u32> {
        match self.at {
            None => None,
            Some(at) => {
                self.at = self.list_arena.nodes.node(at).next;
                self.left -= 1;
                Some(at.number)
            }
        }
    }
}
