//! The callees that are declared, with a table of their addresses: a listing asks for the callee of each of its calls.

ghost use Rattle.std.specs.Prelude.{◌≡◌, ◌∷◌, ◌++◌, [], false, length, OnErr, OnOk};
ghost use Rattle.std.specs.List.{list_any};
ghost use Rattle.std.specs.Option.{option_copied};
ghost use Rattle.pcode_model.specs.Functions.{has_address};
ghost use Rattle.pcode_model.specs.Step.{callee_in};

use crate::listing::{Function, Functions};
use indexmap::IndexSet;
use sqlite_items::Items;
use std::alloc::{AllocError, Global};
use std::marker::Model;

/// Callees, no two of which have one address.
#[derive(Drop)]
pub struct Callees {
    listed: Functions,
    addresses: IndexSet<u64>,
}

impl Model for Callees {
    ghost use Rattle.std.specs.Prelude.{List, map, ◌≡◌};
    ghost use Rattle.pcode_model.specs.declared.listing.Function.{Function};
    ghost use Rattle.pcode_model.specs.Functions.{function_address};

    ghost Value = { List Function };

    ghost view = { λ t. t.listed };

    ghost invariant = { λ t. t.addresses.keys ≡ map function_address t.listed };
}

impl Callees {
    pub fn new(alloc: Global) -> Callees
        ensures { result ≡ [] }
    {
        Callees {
            listed: Items::new(alloc),
            addresses: IndexSet::new(alloc),
        }
    }

    pub fn len(&self) -> usize
        ensures { result ≡ length self.now }
    {
        self.listed.len()
    }

    pub fn as_slice(&self) -> &[Function]
        ensures { result.now ≡ self.now }
    {
        self.listed.as_slice()
    }

    /// Whether a callee has that address.
    pub fn has_address(&self, address: u64) -> bool
        ensures { result ≡ list_any (has_address address) self.now }
    {
        self.addresses.contains(&address)
    }

    /// The callee of an address.
    pub fn at(&self, address: u64) -> Option<&Function>
        ensures { option_copied result ≡ callee_in self.now address }
    {
        match self.addresses.get_index_of(&address) {
            Some(place) => self.listed.get(place),
            None => None,
        }
    }

    /// Adds a callee whose address no other has. After an Err the table is as before.
    pub fn push(&mut self, callee: Function) -> Result<(), AllocError>
        requires { list_any (has_address callee.address) self.old ≡ false }
        ensures ok { OnOk result (self.new ≡ self.old ++ callee ∷ []) }
        ensures err { OnErr result (self.new ≡ self.old) }
    {
        match self.addresses.insert(callee.address) {
            Ok(_) => {}
            Err(_) => return Err(AllocError),
        }
        match self.listed.push(callee) {
            Ok(()) => Ok(()),
            Err(refused) => {
                self.addresses.pop();
                Err(refused)
            }
        }
    }
}
