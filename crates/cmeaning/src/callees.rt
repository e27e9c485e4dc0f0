//! The declarations of callees, with tables of their addresses and names.

ghost use Rattle.std.specs.Prelude.{◌≡◌, ◌≤◌, ◌<◌, ◌^◌, ◌∷◌, ◌++◌, [], List, length, option_copied, vec_items, OnOk, IfOk};
ghost use Rattle.cmeaning.specs.declared.tree.CalleeDecl.{CalleeDecl as Decl};
ghost use Rattle.cmeaning.specs.declared.tree.CName.TheVariants.{Declared};
ghost use Rattle.cmeaning.specs.Mentions.{place_of};
ghost use Rattle.cmeaning.specs.Places.{first_of, has_name, HasAddresses, HasNames};
ghost use Rattle.cmeaning.specs.Firsts.{is_place, is_first as stands_first, is_first_name as is_name_first};
ghost use Rattle.cmeaning.specs.Valid.{declared_in};

use crate::tree::{CName, CalleeDecl};
use sqlite_items::Items;
use std::alloc::{AllocError, Global};
use std::collections::BTreeMap;
use std::marker::Model;

/// Declarations of callees in an order.
#[derive(Drop)]
pub struct CalleeDecls {
    listed: Items<CalleeDecl>,
    /// Where each address is listed first.
    addresses: BTreeMap<u64, usize>,
    /// Where each declared name is listed first.
    names: BTreeMap<Vec<u8>, usize>,
}

impl Model for CalleeDecls {
    ghost use Rattle.std.specs.Prelude.{List, vec_items};
    ghost use Rattle.cmeaning.specs.declared.tree.CalleeDecl.{CalleeDecl as Listed};
    ghost use Rattle.cmeaning.specs.Places.{HasAddresses, HasNames};

    ghost Value = { List Listed };

    ghost view = { λ s. s.listed };

    ghost invariant = { λ s. HasAddresses s.listed s.addresses × HasNames vec_items s.listed s.names };
}

/// Gives the address of a declaration the place behind those that are listed, unless it has a place.
fn add_address(
    addresses: &mut BTreeMap<u64, usize>,
    address: u64,
    place: usize,
) -> Result<(), AllocError>
    ensures { (listed : List Decl) (c : Decl) → HasAddresses listed addresses.old → c.address ≡ address → place ≡ length listed → OnOk result (HasAddresses (listed ++ c ∷ []) addresses.new) }
{
    if addresses.contains_key(&address) {
        return Ok(());
    }
    match addresses.insert(address, place) {
        Ok(_) => Ok(()),
        Err(_) => Err(AllocError),
    }
}

/// The same for its name.
fn add_name(
    alloc: Global,
    names: &mut BTreeMap<Vec<u8>, usize>,
    name: &CName,
    place: usize,
) -> Result<(), AllocError>
    ensures { (listed : List Decl) (c : Decl) → HasNames vec_items listed names.old → c.name ≡ name.now → place ≡ length listed → OnOk result (HasNames vec_items (listed ++ c ∷ []) names.new) }
{
    match name {
        CName::Bare => Ok(()),
        CName::Declared(text) => add_text(alloc, names, text.as_slice(), place),
    }
}

fn add_text(
    alloc: Global,
    names: &mut BTreeMap<Vec<u8>, usize>,
    text: &[u8],
    place: usize,
) -> Result<(), AllocError>
    ensures { (listed : List Decl) (c : Decl) → HasNames vec_items listed names.old → c.name ≡ Declared text.now → place ≡ length listed → OnOk result (HasNames vec_items (listed ++ c ∷ []) names.new) }
{
    if names.contains_key(text) {
        return Ok(());
    }
    let copy = Vec::from_slice(alloc, text)?;
    match names.insert(copy, place) {
        Ok(_) => Ok(()),
        Err(_) => Err(AllocError),
    }
}

impl CalleeDecls {
    pub fn new(alloc: Global) -> CalleeDecls
        ensures { result ≡ [] }
    {
        CalleeDecls {
            listed: Items::new(alloc),
            addresses: BTreeMap::new(alloc),
            names: BTreeMap::new(alloc),
        }
    }

    /// With one more declaration behind the others.
    pub fn with(self, alloc: Global, c: CalleeDecl) -> Result<CalleeDecls, AllocError>
        ensures { IfOk result (λ more. more ≡ self ++ c ∷ []) }
    {
        let CalleeDecls {
            mut listed,
            mut addresses,
            mut names,
        } = self;
        let place = listed.len();
        add_address(&mut addresses, c.address, place)?;
        add_name(alloc, &mut names, &c.name, place)?;
        listed.push(c)?;
        Ok(CalleeDecls {
            listed,
            addresses,
            names,
        })
    }

    pub fn as_slice(&self) -> &[CalleeDecl]
        ensures { result.now ≡ self.now }
    {
        self.listed.as_slice()
    }

    pub fn len(&self) -> usize
        ensures { result ≡ length self.now }
    {
        self.listed.len()
    }

    /// How many are listed before the first of an address; all of them where there is none.
    pub fn place(&self, address: u64) -> usize
        ensures value { result ≡ place_of self.now address }
        ensures within { result ≤ length self.now }
        ensures fits { result < 2 ^ 63 }
    {
        let count = self.listed.as_slice().len();
        match self.addresses.get(&address) {
            Some(place) => *place,
            None => count,
        }
    }

    /// The first of an address.
    pub fn declared(&self, address: u64) -> Option<&CalleeDecl>
        ensures { option_copied result ≡ declared_in self.now address }
    {
        match self.addresses.get(&address) {
            Some(place) => self.listed.get(*place),
            None => None,
        }
    }

    /// The first of a declared name.
    pub fn named(&self, name: &[u8]) -> Option<&CalleeDecl>
        ensures { option_copied result ≡ first_of (has_name name.now) self.now }
    {
        match self.names.get(name) {
            Some(place) => self.listed.get(*place),
            None => None,
        }
    }

    /// Whether the declaration at a place is the first of its address and of its name.
    pub(crate) fn is_first(&self, at: usize, c: &CalleeDecl) -> bool
        ensures { result ≡ stands_first at self.now c.now }
    {
        stands_at(self.addresses.get(&c.address).copied(), at) && self.is_first_name(at, &c.name)
    }

    fn is_first_name(&self, at: usize, name: &CName) -> bool
        ensures { result ≡ is_name_first at self.now name.now }
    {
        match name {
            CName::Declared(text) => stands_at(self.names.get(text.as_slice()).copied(), at),
            CName::Bare => true,
        }
    }
}

fn stands_at(place: Option<usize>, at: usize) -> bool
    ensures { result ≡ is_place at place }
{
    match place {
        Some(place) => place == at,
        None => false,
    }
}
