//! The links of lists, while an edit is under way.
ghost use Rattle.std.specs.Prelude.{◌≡◌, ◌+◌, ◌<◌, ◌^◌, Some, IfSome, List, length, slice_get};
ghost use denote.RawPtr.{Ptr};
ghost use Rattle.node_lists.specs.Chains.{put_at, put_key};
ghost use Rattle.node_lists.specs.ListArena.{if_none, detached, attached};
ghost use Rattle.node_lists.specs.Nodes.{number, Leads, ends_of, ends_at};
ghost use Rattle.node_lists.specs.Edits.{links, IsSound, Edited};

use crate::node::{Head, Node};
use heap_nodes::{Arena, Link};

/// Nodes and heads, and the head of the spare nodes.
#[derive(Drop)]
pub struct ListArena<T> {
    pub nodes: Arena<Node<T>>,
    pub heads: Arena<Head>,
    pub spare: Head,
}

fn pick(test: Option<Link>, other: Option<Link>, link: Option<Link>) -> Option<Link>
    ensures number { number result ≡ if_none (number test) (number other) (number link) }
    ensures leads { (ps : List Ptr) → Leads other ps → Leads link ps → Leads result ps }
{
    match test {
        None => other,
        Some(_) => link,
    }
}

impl<T: Copy + Drop> ListArena<T> {
    fn set_next(&mut self, at: Option<Link>, next: Option<Link>)
        requires sound { IsSound self.old }
        requires at { Leads at self.old.nodes.places }
        requires next { Leads next self.old.nodes.places }
        ensures { Edited (let s = links self.old in record s { next = put_at (number at) (number next) s.next }) self.old self.new }
    {
        if let Some(at) = at {
            let node = *self.nodes.node(at);
            self.nodes.put(at, Node { next, ..node });
        }
    }

    fn set_prev(&mut self, at: Option<Link>, prev: Option<Link>)
        requires sound { IsSound self.old }
        requires at { Leads at self.old.nodes.places }
        requires prev { Leads prev self.old.nodes.places }
        ensures { Edited (let s = links self.old in record s { prev = put_at (number at) (number prev) s.prev }) self.old self.new }
    {
        if let Some(at) = at {
            let node = *self.nodes.node(at);
            self.nodes.put(at, Node { prev, ..node });
        }
    }

    fn set_place(&mut self, at: Link, prev: Option<Link>, next: Option<Link>, list: Option<Link>)
        requires sound { IsSound self.old }
        requires at { Leads (Some at) self.old.nodes.places }
        requires prev { Leads prev self.old.nodes.places }
        requires next { Leads next self.old.nodes.places }
        requires list { Leads list self.old.heads.places }
        ensures edited { Edited (let s = links self.old in record s { prev = put_at (Some at.number) (number prev) s.prev; next = put_at (Some at.number) (number next) s.next; key = put_at (Some at.number) (number list) s.key }) self.old self.new }
        ensures small { length self.new.nodes.values < 2 ^ 32 }
    {
        let node = *self.nodes.node(at);
        self.nodes.put(
            at,
            Node {
                prev,
                next,
                list,
                ..node
            },
        );
    }

    /// The link to the head of a list.
    pub fn head_link(&self, list: Option<u32>) -> Option<Link>
        requires { IfSome list (λ k. k < length self.now.heads.values) }
        ensures number { number result ≡ list }
        ensures leads { Leads result self.now.heads.places }
    {
        match list {
            None => None,
            Some(list) => Some(self.heads.link(list)),
        }
    }

    /// The head of a list.
    pub fn head(&self, list: Option<Link>) -> Head
        requires sound { IsSound self.now }
        requires list { Leads list self.now.heads.places }
        ensures ends { ends_of result ≡ (links self.now).ends (number list) }
        ensures first { Leads result.first self.now.nodes.places }
        ensures last { Leads result.last self.now.nodes.places }
    {
        match list {
            None => self.spare,
            Some(list) => *self.heads.node(list),
        }
    }

    fn set_head(&mut self, list: Option<Link>, head: Head)
        requires sound { IsSound self.old }
        requires list { Leads list self.old.heads.places }
        requires first { Leads head.first self.old.nodes.places }
        requires last { Leads head.last self.old.nodes.places }
        ensures { Edited (let s = links self.old in record s { ends = put_key (number list) (ends_of head) s.ends }) self.old self.new }
    {
        match list {
            None => self.spare = head,
            Some(list) => {
                let _old = *self.heads.node(list);
                self.heads.put(list, head);
            }
        }
    }

    /// Takes a node out of its list.
    pub fn detach(&mut self, at: Link)
        requires sound { IsSound self.old }
        requires at { Leads (Some at) self.old.nodes.places }
        requires some { let s = links self.old in 0 < (s.ends (s.key at.number)).len }
        ensures { Edited (detached at.number (links self.old)) self.old self.new }
    {
        let node = *self.nodes.node(at);
        self.set_next(node.prev, node.next);
        self.set_prev(node.next, node.prev);
        let head = self.head(node.list);
        self.set_head(
            node.list,
            Head {
                first: pick(node.prev, node.next, head.first),
                last: pick(node.next, node.prev, head.last),
                len: head.len - 1,
            },
        );
    }

    /// Puts a node into a list, between two neighbours.
    pub fn attach(
        &mut self,
        at: Link,
        list: Option<Link>,
        before: Option<Link>,
        after: Option<Link>,
    )
        requires sound { IsSound self.old }
        requires at { Leads (Some at) self.old.nodes.places }
        requires list { Leads list self.old.heads.places }
        requires before { Leads before self.old.nodes.places }
        requires after { Leads after self.old.nodes.places }
        requires room { let s = links self.old in (s.ends (number list)).len < s.n }
        ensures { Edited (attached at.number (number list) (number before) (number after) (links self.old)) self.old self.new }
    {
        self.set_place(at, before, after, list);
        self.set_next(before, Some(at));
        self.set_prev(after, Some(at));
        let head = self.head(list);
        self.set_head(
            list,
            Head {
                first: pick(before, Some(at), head.first),
                last: pick(after, Some(at), head.last),
                len: head.len + 1,
            },
        );
    }
}
