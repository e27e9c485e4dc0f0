//! The parameters of a function, with a table of their places.

ghost use Rattle.std.specs.Prelude.{◌≡◌, ◌<◌, ◌∷◌, ◌++◌, [], List, length, option_copied, slice_get, OnOk, OnSome, IfOk};
ghost use Rattle.cmeaning.specs.declared.tree.Param.{Param as Variable};
ghost use Rattle.cmeaning.specs.Places.{place as place_in};
ghost use Rattle.cmeaning.specs.Entries.{is_param, entry_key, HasPlaces};

use crate::params::key;
use crate::tree::Param;
use pcode_model::ParamStorage;
use sqlite_items::Items;
use std::alloc::{AllocError, Global};
use std::collections::BTreeMap;
use std::marker::Model;

/// Parameters in an order.
#[derive(Drop)]
pub struct ParamDecls {
    listed: Items<Param>,
    /// Where each storage is listed first, apart by whether it is one of the prototype's arguments.
    places: BTreeMap<(bool, (u8, i128)), usize>,
}

impl Model for ParamDecls {
    ghost use Rattle.std.specs.Prelude.{List};
    ghost use Rattle.cmeaning.specs.declared.tree.Param.{Param as Listed};
    ghost use Rattle.cmeaning.specs.Entries.{HasPlaces};

    ghost Value = { List Listed };

    ghost view = { λ s. s.listed };

    ghost invariant = { λ s. HasPlaces s.listed s.places };
}

/// Gives a key the place behind those that are listed, unless it has a place.
fn add_place(
    places: &mut BTreeMap<(bool, (u8, i128)), usize>,
    key: (bool, (u8, i128)),
    place: usize,
) -> Result<(), AllocError>
    ensures { (listed : List Variable) (p : Variable) → HasPlaces listed places.old → entry_key p.model p.storage ≡ key → place ≡ length listed → OnOk result (HasPlaces (listed ++ p ∷ []) places.new) }
{
    if places.contains_key(&key) {
        return Ok(());
    }
    match places.insert(key, place) {
        Ok(_) => Ok(()),
        Err(_) => Err(AllocError),
    }
}

impl ParamDecls {
    pub fn new(alloc: Global) -> ParamDecls
        ensures { result ≡ [] }
    {
        ParamDecls {
            listed: Items::new(alloc),
            places: BTreeMap::new(alloc),
        }
    }

    /// With one more parameter behind the others.
    pub fn with(self, p: Param) -> Result<ParamDecls, AllocError>
        ensures { IfOk result (λ more. more ≡ self ++ p ∷ []) }
    {
        let ParamDecls {
            mut listed,
            mut places,
        } = self;
        let place = listed.len();
        add_place(&mut places, (p.model, key(p.storage)), place)?;
        listed.push(p)?;
        Ok(ParamDecls { listed, places })
    }

    pub fn as_slice(&self) -> &[Param]
        ensures { result.now ≡ self.now }
    {
        self.listed.as_slice()
    }

    pub fn len(&self) -> usize
        ensures { result ≡ length self.now }
    {
        self.listed.len()
    }

    pub fn get(&self, at: usize) -> Option<&Param>
        ensures value { option_copied result ≡ slice_get self.now at }
        ensures within { OnSome result (at < length self.now) }
    {
        self.listed.get(at)
    }

    /// How many are listed before the first with this storage, among the prototype's arguments or the others.
    pub fn place(&self, model: bool, storage: ParamStorage) -> Option<usize>
        ensures { result ≡ place_in (is_param model storage) self.now }
    {
        self.places.get(&(model, key(storage))).copied()
    }
}
