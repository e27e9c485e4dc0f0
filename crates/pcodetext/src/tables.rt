//! Tables of what is declared: spaces, prototypes and read-only bytes.

ghost use Rattle.std.specs.Prelude.{◌≡◌, ◌∷◌, ◌++◌, [], None, false, nat_le, ◌==◌, length, IfOk, OnOk, map};
ghost use Rattle.pcode_model.specs.WellFormed.{constant_space, how_many};
ghost use Rattle.pcodetext.specs.Tables.{place_in, space_name, proto_name};

use names::NameTable;
use pcode_model::{Proto, Protos, Space, SpaceKind, Spaces};
use sqlite_items::Items;
use std::alloc::{AllocError, Global};
use std::marker::Model;

/// The constant space and at most eight declared ones, by their numbers.
#[derive(Drop)]
pub struct SpaceTable {
    spaces: Spaces,
    names: NameTable,
}

impl Model for SpaceTable {
    ghost use Rattle.std.specs.Prelude.{List, length, map, ◌≡◌, ◌≤◌};
    ghost use Rattle.pcode_model.specs.declared.listing.Space.{Space};
    ghost use Rattle.pcodetext.specs.Tables.{space_name};

    ghost Value = { List Space };

    ghost view = { λ t. t.spaces };

    ghost invariant = { λ t. (length t.spaces ≤ 9) × (t.names ≡ map space_name t.spaces) };
}

impl SpaceTable {
    /// The constant space alone.
    pub fn new(alloc: Global) -> Result<SpaceTable, AllocError>
        ensures { IfOk result (λ t. t ≡ constant_space ∷ []) }
    {
        let mut spaces = Items::new(alloc);
        spaces.push(Space {
            name: Items::from_slice(alloc, b"const")?,
            kind: SpaceKind::Constant,
            size: 8,
            big: false,
            word: 1,
        })?;
        let mut names = NameTable::new(alloc);
        names.push(alloc, b"const")?;
        Ok(SpaceTable { spaces, names })
    }

    pub fn as_slice(&self) -> &[Space]
        ensures { result.now ≡ self.now }
    {
        self.spaces.as_slice()
    }

    pub fn is_full(&self) -> bool
        ensures { result ≡ nat_le 9 (length self.now) }
    {
        self.spaces.len() >= 9
    }

    pub fn push(&mut self, alloc: Global, space: Space) -> Result<(), AllocError>
        requires few { nat_le 9 (length self.old) ≡ false }
        requires other { place_in space.name (map space_name self.old) ≡ None }
        ensures { OnOk result (self.new ≡ self.old ++ space ∷ []) }
    {
        self.names.push(alloc, space.name.as_slice())?;
        match self.spaces.push(space) {
            Ok(()) => Ok(()),
            Err(refused) => {
                self.names.pop();
                Err(refused)
            }
        }
    }

    /// The number of the space of that name.
    pub fn number(&self, name: &[u8]) -> Option<u8>
        ensures { result ≡ place_in name.now (map space_name self.now) }
    {
        match self.names.number(name) {
            Some(number) => Some(number as u8),
            None => None,
        }
    }

    /// How many spaces are of that kind.
    pub fn how_many(&self, kind: SpaceKind) -> usize
        ensures { result ≡ how_many kind self.now }
    {
        let mut n = 0;
        for space in self.spaces.as_slice() {
            if kind.same(space.kind) {
                n += 1;
            }
        }
        n
    }

    pub fn into_items(self) -> Spaces
        ensures { result ≡ self }
    {
        self.spaces
    }
}

/// At most 64 prototypes, by their numbers.
#[derive(Drop)]
pub struct ProtoTable {
    protos: Protos,
    names: NameTable,
}

impl Model for ProtoTable {
    ghost use Rattle.std.specs.Prelude.{List, length, map, ◌≡◌, ◌≤◌};
    ghost use Rattle.pcode_model.specs.declared.listing.Proto.{Proto};
    ghost use Rattle.pcodetext.specs.Tables.{proto_name};

    ghost Value = { List Proto };

    ghost view = { λ t. t.protos };

    ghost invariant = { λ t. (length t.protos ≤ 64) × (t.names ≡ map proto_name t.protos) };
}

impl ProtoTable {
    pub fn new(alloc: Global) -> ProtoTable
        ensures { result ≡ [] }
    {
        ProtoTable {
            protos: Items::new(alloc),
            names: NameTable::new(alloc),
        }
    }

    pub fn is_empty(&self) -> bool
        ensures { result ≡ (length self.now == 0) }
    {
        self.protos.len() == 0
    }

    pub fn is_full(&self) -> bool
        ensures { result ≡ nat_le 64 (length self.now) }
    {
        self.protos.len() >= 64
    }

    pub fn push(&mut self, alloc: Global, proto: Proto) -> Result<(), AllocError>
        requires few { nat_le 64 (length self.old) ≡ false }
        requires other { place_in proto.name (map proto_name self.old) ≡ None }
        ensures { OnOk result (self.new ≡ self.old ++ proto ∷ []) }
    {
        self.names.push(alloc, proto.name.as_slice())?;
        match self.protos.push(proto) {
            Ok(()) => Ok(()),
            Err(refused) => {
                self.names.pop();
                Err(refused)
            }
        }
    }

    /// The number of the prototype of that name.
    pub fn number(&self, name: &[u8]) -> Option<u32>
        ensures { result ≡ place_in name.now (map proto_name self.now) }
    {
        match self.names.number(name) {
            Some(number) => Some(number as u32),
            None => None,
        }
    }

    pub fn into_items(self) -> Protos
        ensures { result ≡ self }
    {
        self.protos
    }
}
