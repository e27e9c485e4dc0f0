//! The case values of a switch.

ghost use Rattle.std.specs.Prelude.{◌≡◌, ◌++◌, List, ℕ, None, nat_lt, IsTrue, IfOk, IsOk};
ghost use Rattle.bits_core.specs.Value.{limit};
ghost use Rattle.cmeaning.specs.Do.{widths_in};
ghost use Rattle.cmeaning.specs.Shape.{shape_of};
ghost use Rattle.cmeaning.specs.Valid.{has_case, is_in, are_words, are_cases_of, cases_of};
ghost use Rattle.cmeaning.specs.Arms.{is_case, differ_from, arms_differ, arms_fit, are_new, Holds};

use crate::shape::expr_shape;
use crate::tree::{Arm, CFunction, Expr};
use bits_core::Memory;
use std::alloc::Global;
use std::collections::BTreeSet;

/// Whether an arm has a case value.
pub(crate) fn is_named(values: &[u128]) -> bool
    ensures { result ≡ has_case values.now }
{
    match values.first() {
        None => false,
        Some(_) => true,
    }
}

fn among(x: u128, values: &[u128]) -> bool
    ensures { result ≡ is_in x values.now }
{
    for y in values {
        if x == *y {
            return true;
        }
    }
    false
}

fn among_arms(x: u128, arms: &[Arm]) -> bool
    ensures { result ≡ is_case x arms.now }
{
    for arm in arms {
        if among(x, arm.cases.as_slice()) {
            return true;
        }
    }
    false
}

/// Whether the values differ from each other and from those of later arms.
fn differ(values: &[u128], later: &[Arm]) -> bool
    ensures { result ≡ differ_from values.now later.now }
{
    for i in 0..values.len() {
        if among(values[i], &values[i + 1..]) || among_arms(values[i], later) {
            return false;
        }
    }
    true
}

fn all_differ(arms: &[Arm]) -> bool
    ensures { result ≡ arms_differ arms.now }
{
    for i in 0..arms.len() {
        if !differ(arms[i].cases.as_slice(), &arms[i + 1..]) {
            return false;
        }
    }
    true
}

/// Puts values in a set, up to one that it has.
fn add_new(seen: &mut BTreeSet<u128>, values: &[u128]) -> Result<bool, Memory>
    ensures { (known : List ℕ) → Holds seen.old known → IfOk result (λ b. (b ≡ are_new known values.now) × (IsTrue b → Holds seen.new (known ++ values.now))) }
{
    for x in values {
        match seen.insert(*x) {
            Ok(true) => {}
            Ok(false) => return Ok(false),
            Err(_) => return Err(Memory),
        }
    }
    Ok(true)
}

/// The same as `all_differ`, by a set.
fn all_new(alloc: Global, arms: &[Arm]) -> Result<bool, Memory>
    ensures { IfOk result (λ b. b ≡ arms_differ arms.now) }
{
    let mut seen = BTreeSet::new(alloc);
    for arm in arms {
        let added = add_new(&mut seen, arm.cases.as_slice())?;
        if !added {
            return Ok(false);
        }
    }
    Ok(true)
}

fn distinct(memory: Option<Global>, arms: &[Arm]) -> Result<bool, Memory>
    ensures right { IfOk result (λ b. b ≡ arms_differ arms.now) }
    ensures without { memory ≡ None → IsOk result }
{
    match memory {
        None => Ok(all_differ(arms)),
        Some(alloc) => all_new(alloc, arms),
    }
}

#[tactic(auto, using(crate::proofs::Distinct::wide_fits))]
fn fits(width: u8, x: u128) -> bool
    ensures { result ≡ nat_lt x (limit width) }
{
    if width >= 16 {
        return true;
    }
    x < 1 << (8 * u32::from(width))
}

fn each_fits(width: u8, values: &[u128]) -> bool
    ensures { result ≡ are_words width values.now }
{
    for x in values {
        if !fits(width, *x) {
            return false;
        }
    }
    true
}

fn all_fit(width: u8, arms: &[Arm]) -> bool
    ensures { result ≡ arms_fit width arms.now }
{
    for arm in arms {
        if !each_fits(width, arm.cases.as_slice()) {
            return false;
        }
    }
    true
}

/// Whether the case values of the arms are distinct words of the switch's value. They are compared by a set where there is
/// memory for one, else in pairs.
#[tactic(auto, using(crate::proofs::Distinct::distinct_by_arms, crate::proofs::Distinct::words_by_arms))]
pub(crate) fn cases_fit(
    memory: Option<Global>,
    f: &CFunction,
    value: &Expr,
    arms: &[Arm],
) -> Result<bool, Memory>
    ensures right { IfOk result (λ b. b ≡ are_cases_of (cases_of arms.now) (shape_of (widths_in f.now) value.now)) }
    ensures without { memory ≡ None → IsOk result }
{
    match expr_shape(f, value) {
        None => Ok(false),
        Some(s) => {
            let differ = distinct(memory, arms)?;
            Ok(differ && all_fit(s.width, arms))
        }
    }
}
