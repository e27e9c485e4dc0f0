//! Numbers and addresses listed by first appearance, with tables of their places.

ghost use Rattle.std.specs.Prelude.{◌≡◌, ◌<◌, ◌==◌, ◌+◌, ◌∷◌, ◌++◌, [], ℕ, List, length, if◌then◌else◌, Some, IfOk, OnOk};
ghost use Rattle.naming.specs.Listed.{with_one, place_in};
ghost use Rattle.naming.specs.Places.{is_same, entry, place as place_by};

use bits_core::Memory;
use sqlite_items::Items;
use std::alloc::Global;
use std::collections::BTreeSet;
use std::marker::Model;

/// Small numbers, each listed once.
#[derive(Drop)]
pub struct Numbers {
    listed: Items<u32>,
    /// By number.
    places: Vec<Option<u32>>,
}

impl Model for Numbers {
    ghost use Rattle.std.specs.Prelude.{List, ℕ};
    ghost use Rattle.naming.specs.Places.{entry, HasPlaces};

    ghost Value = { List ℕ };

    ghost view = { λ s. s.listed };

    ghost invariant = { λ s. HasPlaces s.listed (entry s.places.items) };
}

/// Makes a table long enough for a number.
fn lengthen(table: &mut Vec<Option<u32>>, x: u32) -> Result<(), Memory>
    ensures long { OnOk result (x < length table.new.items) }
    ensures same { (y : ℕ) → OnOk result (entry table.new.items y ≡ entry table.old.items y) }
{
    while table.len() <= x as usize {
        table.push(None)?;
    }
    Ok(())
}

/// Writes the place of a number into a table.
fn set_place(table: &mut Vec<Option<u32>>, x: u32, place: u32) -> Result<(), Memory>
    ensures { (y : ℕ) → OnOk result (entry table.new.items y ≡ (if x == y then Some place else entry table.old.items y)) }
{
    lengthen(table, x)?;
    table[x as usize] = Some(place);
    Ok(())
}

impl Numbers {
    pub fn new(alloc: Global) -> Numbers
        ensures { result ≡ [] }
    {
        Numbers {
            listed: Items::new(alloc),
            places: Vec::new(alloc),
        }
    }

    pub fn as_slice(&self) -> &[u32]
        ensures { result.now ≡ self.now }
    {
        self.listed.as_slice()
    }

    /// With one more behind the others, unless it is listed.
    pub(crate) fn with(self, x: u32) -> Result<Numbers, Memory>
        ensures { IfOk result (λ more. more ≡ with_one self x) }
    {
        if self.found(x).is_some() {
            return Ok(self);
        }
        let Numbers {
            mut listed,
            mut places,
        } = self;
        let place = behind(0, listed.len())?;
        set_place(&mut places, x, place)?;
        listed.push(x)?;
        Ok(Numbers { listed, places })
    }

    /// How many are listed before it; what isn't listed comes behind all that is.
    pub(crate) fn place(&self, x: u32) -> Result<u32, Memory>
        ensures { IfOk result (λ n. n ≡ place_in self.now x) }
    {
        match self.found(x) {
            Some(place) => Ok(place),
            None => behind(x, self.listed.len()),
        }
    }

    fn found(&self, x: u32) -> Option<u32>
        ensures { result ≡ place_by (is_same x) self.now }
    {
        match self.places.get(x as usize) {
            Some(place) => *place,
            None => None,
        }
    }
}

/// A sum, which has 32 bits where the memory holds as many things.
pub(crate) fn behind(x: u32, count: usize) -> Result<u32, Memory>
    ensures { IfOk result (λ n. n ≡ x + count) }
{
    let count = match u32::try_from(count) {
        Ok(count) => count,
        Err(_) => return Err(Memory),
    };
    match x.checked_add(count) {
        Some(sum) => Ok(sum),
        None => Err(Memory),
    }
}

/// Addresses, each listed once.
#[derive(Drop)]
pub struct Addresses {
    listed: Items<u64>,
    known: BTreeSet<u64>,
}

impl Model for Addresses {
    ghost use Rattle.std.specs.Prelude.{List, ℕ};
    ghost use Rattle.naming.specs.Places.{HasAll};

    ghost Value = { List ℕ };

    ghost view = { λ s. s.listed };

    ghost invariant = { λ s. HasAll s.listed s.known };
}

impl Addresses {
    pub fn new(alloc: Global) -> Addresses
        ensures { result ≡ [] }
    {
        Addresses {
            listed: Items::new(alloc),
            known: BTreeSet::new(alloc),
        }
    }

    pub fn as_slice(&self) -> &[u64]
        ensures { result.now ≡ self.now }
    {
        self.listed.as_slice()
    }

    /// With one more behind the others, unless it is listed.
    pub fn with(self, x: u64) -> Result<Addresses, Memory>
        ensures { IfOk result (λ more. more ≡ with_one self x) }
    {
        let Addresses {
            mut listed,
            mut known,
        } = self;
        match known.insert(x) {
            Ok(true) => {
                listed.push(x)?;
                Ok(Addresses { listed, known })
            }
            Ok(false) => Ok(Addresses { listed, known }),
            Err(_) => Err(Memory),
        }
    }
}
