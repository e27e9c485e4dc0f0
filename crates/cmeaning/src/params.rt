//! The rules of parameters.

ghost use Rattle.std.specs.Prelude.{◌≡◌, List, None, IsTrue, IfOk, IsOk};
ghost use Rattle.cmeaning.specs.declared.tree.Param.{Param as Variable};
ghost use Rattle.cmeaning.specs.Valid.{is_storage, is_before, may_precede, precedes_all, are_params};
ghost use Rattle.cmeaning.specs.Entries.{key_of};
ghost use Rattle.cmeaning.specs.Order.{HoldsKeys, comes_before, may_come, next_last, next_known};

use crate::tree::Param;
use bits_core::Memory;
use pcode_model::ParamStorage;
use std::alloc::Global;
use std::collections::BTreeSet;

fn before(a: ParamStorage, b: ParamStorage) -> bool
    ensures { result ≡ is_before a b }
{
    match a {
        ParamStorage::Register(x) => match b {
            ParamStorage::Register(y) => x < y,
            _ => true,
        },
        ParamStorage::Unique(x) => match b {
            ParamStorage::Register(_) => false,
            ParamStorage::Unique(y) => x < y,
            ParamStorage::Stack(_) => true,
        },
        ParamStorage::Stack(x) => match b {
            ParamStorage::Stack(y) => x < y,
            _ => false,
        },
    }
}

fn precedes(p: &Param, q: &Param) -> bool
    ensures { result ≡ may_precede p.now q.now }
{
    if !p.model {
        return !q.model && before(p.storage, q.storage);
    }
    !q.model || before(p.storage, q.storage) || before(q.storage, p.storage)
}

fn precedes_each(p: &Param, params: &[Param]) -> bool
    ensures { result ≡ precedes_all p.now params.now }
{
    for q in params {
        if !precedes(p, q) {
            return false;
        }
    }
    true
}

fn storage_fits(p: ParamStorage) -> bool
    ensures { result ≡ is_storage p }
{
    match p {
        ParamStorage::Register(_) => true,
        ParamStorage::Unique(_) => true,
        ParamStorage::Stack(_) => true,
    }
}

fn in_pairs(params: &[Param]) -> bool
    ensures { result ≡ are_params params.now }
{
    for i in 0..params.len() {
        if !storage_fits(params[i].storage) || !precedes_each(&params[i], &params[i + 1..]) {
            return false;
        }
    }
    true
}

/// The number of the storage's space, and its offset.
pub(crate) fn key(p: ParamStorage) -> (u8, i128)
    ensures { result ≡ key_of p }
{
    match p {
        ParamStorage::Register(offset) => (0, i128::from(offset)),
        ParamStorage::Unique(offset) => (1, i128::from(offset)),
        ParamStorage::Stack(offset) => (2, i128::from(offset)),
    }
}

fn after_last(last: Option<ParamStorage>, p: ParamStorage) -> bool
    ensures { result ≡ comes_before last p }
{
    match last {
        None => true,
        Some(last) => before(last, p),
    }
}

fn later(last: Option<ParamStorage>, p: &Param) -> Option<ParamStorage>
    ensures { result ≡ next_last last p.now }
{
    if p.model { last } else { Some(p.storage) }
}

/// Whether a parameter may come behind those that were seen, of which the set has the model parameters, and `last` is the
/// last other one.
fn comes(
    seen: &mut BTreeSet<(u8, i128)>,
    last: Option<ParamStorage>,
    p: &Param,
) -> Result<bool, Memory>
    ensures { (known : List Variable) → HoldsKeys seen.old known → IfOk result (λ b. (b ≡ may_come last known p.now) × (IsTrue b → HoldsKeys seen.new (next_known known p.now))) }
{
    if !storage_fits(p.storage) {
        return Ok(false);
    }
    if !p.model {
        return Ok(after_last(last, p.storage));
    }
    if last.is_some() {
        return Ok(false);
    }
    match seen.insert(key(p.storage)) {
        Ok(added) => Ok(added),
        Err(_) => Err(Memory),
    }
}

/// The same as `in_pairs`, one after another.
fn in_turn(alloc: Global, params: &[Param]) -> Result<bool, Memory>
    ensures { IfOk result (λ b. b ≡ are_params params.now) }
{
    let mut seen = BTreeSet::new(alloc);
    let mut last = None;
    for p in params {
        let right = comes(&mut seen, last, p)?;
        if !right {
            return Ok(false);
        }
        last = later(last, p);
    }
    Ok(true)
}

/// Whether the parameters obey the rules. The prototype's arguments are compared by a set where there is memory for one,
/// else in pairs.
pub(crate) fn params_fit(memory: Option<Global>, params: &[Param]) -> Result<bool, Memory>
    ensures right { IfOk result (λ b. b ≡ are_params params.now) }
    ensures without { memory ≡ None → IsOk result }
{
    match memory {
        None => Ok(in_pairs(params)),
        Some(alloc) => in_turn(alloc, params),
    }
}
