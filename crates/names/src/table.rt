//! A table of names.

ghost use Rattle.std.specs.Prelude.{◌≡◌, ◌∷◌, ◌++◌, ◌<◌, [], ℕ, List, None, length, IfSome, OnErr, OnOk};
ghost use Rattle.names.specs.Names.{place_in};

use indexmap::IndexSet;
use std::alloc::{AllocError, Global};
use std::marker::Model;

/// Names, numbered from 0 in the order in which they were added.
#[derive(Drop)]
pub struct NameTable {
    names: IndexSet<Vec<u8>>,
}

impl Model for NameTable {
    ghost use Rattle.std.specs.Prelude.{List, ℕ, map, vec_items};

    ghost Value = { List (List ℕ) };

    ghost view = { λ t. map vec_items t.names.keys };
}

impl NameTable {
    pub fn new(alloc: Global) -> NameTable
        ensures { result ≡ [] }
    {
        NameTable {
            names: IndexSet::new(alloc),
        }
    }

    /// The number of a name, if it stands in the table.
    pub fn number(&self, name: &[u8]) -> Option<usize>
        ensures place { result ≡ place_in name.now self.now }
        ensures within { IfSome result (λ n. n < length self.now) }
    {
        self.names.get_index_of(name)
    }

    /// Adds a name that doesn't stand in the table yet.
    pub fn push(&mut self, alloc: Global, name: &[u8]) -> Result<(), AllocError>
        requires { place_in name.now self.old ≡ None }
        ensures ok { OnOk result (self.new ≡ self.old ++ name.now ∷ []) }
        ensures err { OnErr result (self.new ≡ self.old) }
    {
        let copy = Vec::from_slice(alloc, name)?;
        match self.names.insert(copy) {
            Ok(_) => Ok(()),
            Err(_) => Err(AllocError),
        }
    }

    /// Takes the last name out.
    pub fn pop(&mut self)
        ensures { (names : List (List ℕ)) (name : List ℕ) → self.old ≡ names ++ name ∷ [] → self.new ≡ names }
    {
        self.names.pop();
    }
}
