//! The callees of the lines so far, by their addresses and by their names.

ghost use Rattle.std.specs.Prelude.{◌≡◌, ◌∷◌, ◌++◌, [], false, length, OnErr, OnOk};
ghost use Rattle.std.specs.List.{list_any};
ghost use Rattle.pcode_model.specs.Functions.{has_address};
ghost use Rattle.pcodetext.specs.Tables.{has_name};

use names::NameTable;
use pcode_model::{Callees, Function};
use std::alloc::{AllocError, Global};
use std::marker::Model;

/// Callees, no two of which have one name or one address.
#[derive(Drop)]
pub struct CalleeTable {
    callees: Callees,
    names: NameTable,
}

impl Model for CalleeTable {
    ghost use Rattle.std.specs.Prelude.{List, map, ◌≡◌};
    ghost use Rattle.pcode_model.specs.declared.listing.Function.{Function};
    ghost use Rattle.pcodetext.specs.Tables.{function_name};

    ghost Value = { List Function };

    ghost view = { λ t. t.callees };

    ghost invariant = { λ t. t.names ≡ map function_name t.callees };
}

impl CalleeTable {
    pub fn new(alloc: Global) -> CalleeTable
        ensures { result ≡ [] }
    {
        CalleeTable {
            callees: Callees::new(alloc),
            names: NameTable::new(alloc),
        }
    }

    pub fn len(&self) -> usize
        ensures { result ≡ length self.now }
    {
        self.callees.len()
    }

    /// Whether a callee has that name.
    pub fn has_name(&self, name: &[u8]) -> bool
        ensures { result ≡ list_any (has_name name.now) self.now }
    {
        self.names.number(name).is_some()
    }

    /// Whether a callee has that address.
    pub fn has_address(&self, address: u64) -> bool
        ensures { result ≡ list_any (has_address address) self.now }
    {
        self.callees.has_address(address)
    }

    /// Adds a callee whose name and address no other has. After an Err the table is as before.
    pub fn push(&mut self, alloc: Global, callee: Function) -> Result<(), AllocError>
        requires other_name { list_any (has_name callee.name) self.old ≡ false }
        requires other_address { list_any (has_address callee.address) self.old ≡ false }
        ensures ok { OnOk result (self.new ≡ self.old ++ callee ∷ []) }
        ensures err { OnErr result (self.new ≡ self.old) }
    {
        self.names.push(alloc, callee.name.as_slice())?;
        match self.callees.push(callee) {
            Ok(()) => Ok(()),
            Err(refused) => {
                self.names.pop();
                Err(refused)
            }
        }
    }

    pub fn into_callees(self) -> Callees
        ensures { result ≡ self }
    {
        self.callees
    }
}
