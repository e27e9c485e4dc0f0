//! Lists that share their nodes.
ghost use Rattle.std.specs.Prelude.{◌≡◌, ◌≢◌, ◌<◌, ◌++◌, ◌∷◌, [], ℕ, List, Option, Some, None, IfOk, IfErr, length, slice_get, slice_set};
ghost use Rattle.heap_nodes.specs.Owners.{TakesRoom};
ghost use Rattle.node_lists.specs.Chains.{removed, head_or, last_or};
ghost use Rattle.node_lists.specs.Families.{list_at, key_at, IsKey, IsFull, Moved, MoreSpare, MoreLists, nothing, inserted};

use crate::list_arena::ListArena;
use crate::node::{Head, Node};
use crate::walk::Walk;
use heap_nodes::Arena;
use std::alloc::{AllocError, Global};
use std::marker::Model;

/// Nodes that are each in one of several lists, or spare. The nodes and the
/// lists have numbers that count from 0. The list None is that of the spare
/// nodes.
#[derive(Drop)]
pub struct Lists<T> {
    list_arena: ListArena<T>,
}

impl<T> Model for Lists<T> {
    ghost use Rattle.node_lists.specs.Families.{Family, family_code, family_of};
    ghost use Rattle.node_lists.specs.ListArena.{Rep, list_of};
    ghost use Rattle.node_lists.specs.Edits.{links, IsSound};

    ghost Value = { Family T };

    ghost coded = { family_code T.code };

    ghost view = { λ l. family_of l.list_arena };

    ghost invariant = { λ l. IsSound l.list_arena × Rep (λ _. ⊥) (links l.list_arena) (list_of (links l.list_arena)) };
}

impl<T> Lists<T> {
    /// No nodes and no lists.
    pub fn new(alloc: Global) -> Lists<T>
        ensures { result ≡ nothing }
    {
        Lists {
            list_arena: ListArena {
                nodes: Arena::new(alloc),
                heads: Arena::new(alloc),
                spare: Head {
                    first: None,
                    last: None,
                    len: 0,
                },
            },
        }
    }
}

impl<T: Copy + Drop> Lists<T> {
    /// Each node is in one list.
    pub fn known(&self)
        ensures { IsFull self.now }
    {
        let _ = &self.list_arena;
    }

    /// Moves a node to the end of a list.
    pub fn move_last(&mut self, node: u32, list: Option<u32>)
        requires node { node < length self.old.held }
        requires list { IsKey list self.old }
        ensures { Moved node list (removed node (list_at self.old list) ++ node ∷ []) self.old self.new }
    {
        let at = self.list_arena.nodes.link(node);
        let list = self.list_arena.head_link(list);
        self.list_arena.detach(at);
        let head = self.list_arena.head(list);
        self.list_arena.attach(at, list, head.last, None);
    }

    /// Moves a node to the front of a list.
    pub fn move_first(&mut self, node: u32, list: Option<u32>)
        requires node { node < length self.old.held }
        requires list { IsKey list self.old }
        ensures { Moved node list (node ∷ removed node (list_at self.old list)) self.old self.new }
    {
        let at = self.list_arena.nodes.link(node);
        let list = self.list_arena.head_link(list);
        self.list_arena.detach(at);
        let head = self.list_arena.head(list);
        self.list_arena.attach(at, list, None, head.first);
    }

    /// Moves a node to just before another one, in the list of that one.
    pub fn move_before(&mut self, node: u32, at: u32)
        requires node { node < length self.old.held }
        requires at { at < length self.old.held }
        requires other { at ≢ node }
        ensures { let list = key_at self.old at in Moved node list (inserted node at (removed node (list_at self.old list))) self.old self.new }
    {
        let node = self.list_arena.nodes.link(node);
        let at = self.list_arena.nodes.link(at);
        self.list_arena.detach(node);
        let next = *self.list_arena.nodes.node(at);
        self.list_arena.attach(node, next.list, next.prev, Some(at));
    }

    /// One list more, which is empty.
    pub fn add_list(&mut self) -> Result<u32, AllocError>
        ensures ok { IfOk result (λ k. MoreLists k self.old self.new) }
        ensures failed { IfErr result (λ _. self.new ≡ self.old) }
    {
        let head = self.list_arena.heads.add(Head {
            first: None,
            last: None,
            len: 0,
        })?;
        Ok(head.number)
    }

    /// One spare node more.
    pub fn add_spare(&mut self, held: T) -> Result<(), AllocError>
        ensures ok { IfOk result (λ _. MoreSpare held self.old self.new) }
        ensures failed { IfErr result (λ _. self.new ≡ self.old) }
    {
        let at = self.list_arena.nodes.add(Node {
            prev: None,
            next: None,
            list: None,
            held,
        })?;
        let first = self.list_arena.spare.first;
        self.list_arena.attach(at, None, None, first);
        Ok(())
    }

    /// How many nodes there are.
    pub fn size(&self) -> u32
        ensures { result ≡ length self.now.held }
    {
        self.list_arena.nodes.len()
    }

    /// How many nodes a list has.
    pub fn len(&self, list: Option<u32>) -> u32
        requires { IsKey list self.now }
        ensures { result ≡ length (list_at self.now list) }
    {
        let list = self.list_arena.head_link(list);
        self.list_arena.head(list).len
    }

    /// The first node of a list.
    pub fn first(&self, list: Option<u32>) -> Option<u32>
        requires { IsKey list self.now }
        ensures { result ≡ head_or (list_at self.now list) None }
    {
        let list = self.list_arena.head_link(list);
        match self.list_arena.head(list).first {
            None => None,
            Some(at) => Some(at.number),
        }
    }

    /// The list that a node is in.
    pub fn list(&self, node: u32) -> Option<u32>
        requires { node < length self.now.held }
        ensures { result ≡ key_at self.now node }
    {
        let at = self.list_arena.nodes.link(node);
        match self.list_arena.nodes.node(at).list {
            None => None,
            Some(list) => Some(list.number),
        }
    }

    /// What a node holds.
    pub fn held(&self, node: u32) -> T
        requires { node < length self.now.held }
        ensures { slice_get self.now.held node ≡ Some result }
    {
        let at = self.list_arena.nodes.link(node);
        self.list_arena.nodes.node(at).held
    }

    /// Puts a value into a node.
    pub fn set_held(&mut self, node: u32, held: T)
        requires { node < length self.old.held }
        ensures { self.new ≡ (let f = self.old in record f { held = slice_set f.held node held }) }
    {
        let at = self.list_arena.nodes.link(node);
        let old = *self.list_arena.nodes.node(at);
        self.list_arena.nodes.put(at, Node { held, ..old });
    }

    /// How many lists there are, without that of the spare nodes.
    pub fn lists(&self) -> u32
        ensures { result ≡ length self.now.lists }
    {
        self.list_arena.heads.len()
    }

    /// The last node of a list.
    pub fn last(&self, list: Option<u32>) -> Option<u32>
        requires { IsKey list self.now }
        ensures { result ≡ last_or None (list_at self.now list) }
    {
        let list = self.list_arena.head_link(list);
        match self.list_arena.head(list).last {
            None => None,
            Some(at) => Some(at.number),
        }
    }

    /// The node at a place of a list, which counts from 0.
    pub fn nth(&self, list: Option<u32>, place: u32) -> Option<u32>
        requires { IsKey list self.now }
        ensures { result ≡ slice_get (list_at self.now list) place }
    {
        let list = self.list_arena.head_link(list);
        let mut at = self.list_arena.head(list).first;
        for _ in 0..place {
            if let Some(node) = at {
                at = self.list_arena.nodes.node(node).next;
            }
        }
        match at {
            None => None,
            Some(at) => Some(at.number),
        }
    }

    /// The nodes of a list, in order.
    pub fn walk(&self, list: Option<u32>) -> Walk<'_, T>
        requires { IsKey list self.now }
        ensures { result ≡ list_at self.now list }
    {
        let list = self.list_arena.head_link(list);
        let head = self.list_arena.head(list);
        Walk {
            list_arena: &self.list_arena,
            at: head.first,
            left: head.len,
        }
    }
}
