//! A row of nodes on the heap, which links reach.
ghost use Rattle.std.specs.Prelude.{◌≡◌, ◌<◌, ◌^◌, [], Some, IsSome, IfOk, IfErr, length, slice_get, slice_set};
ghost use Rattle.heap_nodes.specs.Owners.{TakesRoom, places, IsApart, set_at, value_at};
ghost use Rattle.heap_nodes.specs.Rows.{IsLink, IsAdded};

use crate::{Link, NodePtr, Owner, apart, new_node, node, replace};
use std::alloc::{AllocError, Global};
use std::marker::Model;

/// Nodes that each lie on the heap for as long as the arena lives. A node's
/// number counts from 0.
#[derive(Drop)]
pub struct Arena<T> {
    owners: Vec<Owner<T, Global>>,
    alloc: Global,
}

impl<T> Model for Arena<T> {
    ghost use Rattle.std.specs.Prelude.{◌<◌, ◌^◌, length};
    ghost use Rattle.heap_nodes.specs.Owners.{places, IsApart};
    ghost use Rattle.heap_nodes.specs.Rows.{Rows, rows_code, values_of};

    ghost Value = { Rows T };

    ghost coded = { rows_code T.code };

    ghost view = { λ a. record { places = places a.owners.items; values = values_of a.owners.items } };

    ghost invariant = { λ a. IsApart (places a.owners.items) × (length a.owners.items < 2 ^ 32) };
}

fn apart_in<T>(owners: &mut Vec<Owner<T, Global>>)
    requires { TakesRoom T.row }
    ensures same { owners.new.items ≡ owners.old.items }
    ensures apart { IsApart (places owners.old.items) }
{
    apart(owners);
}

fn replace_in<T>(owners: &mut Vec<Owner<T, Global>>, at: NodePtr, value: T) -> T
    requires { IsSome (value_at at.ptr owners.old.items) }
    ensures { owners.new.items ≡ set_at at.ptr value owners.old.items }
{
    replace(owners, at, value)
}

impl<T> Arena<T> {
    /// No nodes.
    pub fn new(alloc: Global) -> Arena<T>
        ensures places { result.places ≡ [] }
        ensures values { result.values ≡ [] }
    {
        Arena {
            owners: Vec::new(alloc),
            alloc,
        }
    }

    /// How many nodes there are.
    pub fn len(&self) -> u32
        ensures values { result ≡ length self.now.values }
        ensures places { result ≡ length self.now.places }
    {
        self.owners.len() as u32
    }

    /// The link to the node of this number.
    pub fn link(&self, number: u32) -> Link
        requires { number < length self.now.values }
        ensures number { result.number ≡ number }
        ensures leads { IsLink result self.now }
    {
        Link {
            place: self.owners[number as usize].place(),
            number,
        }
    }

    /// What the node holds.
    pub fn node(&self, at: Link) -> &T
        requires { IsLink at self.now }
        ensures { slice_get self.now.values at.number ≡ Some result.now }
    {
        node(&self.owners, at.place)
    }
}

impl<T: Drop> Arena<T> {
    /// Puts a value into the node.
    pub fn put(&mut self, at: Link, value: T)
        requires { IsLink at self.old }
        ensures places { self.new.places ≡ self.old.places }
        ensures values { self.new.values ≡ slice_set self.old.values at.number value }
        ensures small { length self.new.values < 2 ^ 32 }
    {
        let _old = replace_in(&mut self.owners, at.place, value);
    }

    /// One more node. There can be 2^32 - 1.
    pub fn add(&mut self, value: T) -> Result<Link, AllocError>
        requires { TakesRoom T.row }
        ensures ok { IfOk result (λ l. IsAdded l value self.old self.new) }
        ensures failed { IfErr result (λ _. self.new ≡ self.old) }
    {
        let number = self.owners.len();
        if number >= u32::MAX as usize {
            return Err(AllocError);
        }
        self.owners.reserve(1)?;
        let owner = new_node(self.alloc, value)?;
        let place = owner.place();
        if let Err(_) = self.owners.push(owner) {
            return Err(AllocError);
        }
        apart_in(&mut self.owners);
        Ok(Link {
            place,
            number: number as u32,
        })
    }
}
