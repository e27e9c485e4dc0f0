//! The arms of a switch: one for each block that it leads to, by the least value that leads there.

ghost use Rattle.std.specs.Prelude.{◌≡◌, ◌<◌, [], Some, length, map, IfOk, OnOk};
ghost use Rattle.std.specs.Ordering.{nat_cmp};
ghost use Rattle.std.specs.BTreeMap.{get, Updates};
ghost use Rattle.blockcode.specs.Laid.{by_value as by_value_of, switch_arms};
ghost use Rattle.layout.specs.Collected.{first_of, with_value, with_case, with_cases, branch_arm};

use bits_core::Memory;
use blockcode::Arm;
use cmeaning::{Arm as Branch, Arms as Branches, Body, Stmt, Values};
use std::alloc::Global;
use std::collections::BTreeMap;
use std::marker::Model;

/// The values that lead to a block.
#[derive(Drop)]
struct Led {
    to: u32,
    values: Values,
}

/// One for each block, with a table of where a block's stands.
#[derive(Drop)]
struct AllLed {
    listed: Vec<Led>,
    places: BTreeMap<u32, usize>,
}

impl Model for AllLed {
    ghost use Rattle.std.specs.Prelude.{List};
    ghost use Rattle.layout.specs.declared.branches.Led.{Led as OneLed};
    ghost use Rattle.layout.specs.Collected.{HasPlaces};

    ghost Value = { List OneLed };

    ghost view = { λ s. s.listed.items };

    ghost invariant = { λ s. HasPlaces s.listed.items s.places };
}

fn found(places: &BTreeMap<u32, usize>, block: u32) -> Option<usize>
    ensures { result ≡ get nat_cmp places.now block }
{
    match places.get(&block) {
        Some(place) => Some(*place),
        None => None,
    }
}

fn add_place(places: &mut BTreeMap<u32, usize>, block: u32, place: usize) -> Result<(), Memory>
    ensures { OnOk result (Updates nat_cmp places.old places.new block (Some place)) }
{
    match places.insert(block, place) {
        Ok(_) => Ok(()),
        Err(_) => Err(Memory),
    }
}

/// Adds a value to those at a place.
fn add_value(listed: &mut Vec<Led>, place: usize, value: u128) -> Result<(), Memory>
    requires { place < length listed.now.items }
    ensures { OnOk result (listed.new.items ≡ with_value listed.old.items place value) }
{
    listed[place].values.push(value)?;
    Ok(())
}

fn first(alloc: Global, arm: Arm) -> Result<Led, Memory>
    ensures { IfOk result (λ led. led ≡ first_of arm) }
{
    let mut values = Values::new(alloc);
    values.push(arm.value)?;
    Ok(Led { to: arm.to, values })
}

impl AllLed {
    fn new(alloc: Global) -> AllLed
        ensures { result ≡ [] }
    {
        AllLed {
            listed: Vec::new(alloc),
            places: BTreeMap::new(alloc),
        }
    }

    /// With one more case, behind those that lead to its block.
    fn with(self, alloc: Global, arm: Arm) -> Result<AllLed, Memory>
        ensures { IfOk result (λ more. more ≡ with_case self arm) }
    {
        let AllLed {
            mut listed,
            mut places,
        } = self;
        match found(&places, arm.to) {
            Some(place) => add_value(&mut listed, place, arm.value)?,
            None => {
                add_place(&mut places, arm.to, listed.len())?;
                listed.push(first(alloc, arm)?)?;
            }
        }
        Ok(AllLed { listed, places })
    }
}

fn branch(alloc: Global, led: Led) -> Result<Branch, Memory>
    ensures { IfOk result (λ b. b ≡ branch_arm led) }
{
    let mut body = Body::new(alloc);
    body.push(Stmt::Goto(led.to))?;
    Ok(Branch {
        cases: led.values,
        body,
    })
}

fn collected(alloc: Global, arms: &[Arm]) -> Result<AllLed, Memory>
    ensures { IfOk result (λ all. all ≡ with_cases [] arms.now) }
{
    let mut all = AllLed::new(alloc);
    for arm in arms {
        all = all.with(alloc, *arm)?;
    }
    Ok(all)
}

fn made(alloc: Global, listed: Vec<Led>) -> Result<Branches, Memory>
    ensures { IfOk result (λ bs. bs ≡ map branch_arm listed.items) }
{
    let mut listed = listed;
    listed.reverse();
    let mut branches = Branches::new(alloc);
    while let Some(led) = listed.pop() {
        branches.push(branch(alloc, led)?)?;
    }
    Ok(branches)
}

/// The cases by their values.
fn by_value(alloc: Global, arms: &[Arm]) -> Result<Vec<Arm>, Memory>
    ensures { IfOk result (λ cases. cases.items ≡ by_value_of arms.now) }
{
    let mut cases = Vec::from_slice(alloc, arms)?;
    cases.sort_by_key(|arm| arm.value)?;
    Ok(cases)
}

/// The arms of a switch of these cases.
#[tactic(auto, using(crate::proofs::Collected::branches_are))]
pub(crate) fn branches(alloc: Global, arms: &[Arm]) -> Result<Branches, Memory>
    ensures { IfOk result (λ bs. bs ≡ switch_arms arms.now) }
{
    let cases = by_value(alloc, arms)?;
    let AllLed { listed, .. } = collected(alloc, &cases)?;
    made(alloc, listed)
}
