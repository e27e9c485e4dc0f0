//! Types, and the names of variables and callees.

ghost use Rattle.std.specs.Prelude.{◌≡◌, ◌<◌, ◌%◌, ◌^◌, length, IfSome};
ghost use Rattle.std.specs.Option.{option_map};
ghost use Rattle.ctext.specs.Names.{scope_of};
ghost use Rattle.cread.specs.Words.{decimal_at};
ghost use Rattle.cread.specs.Names.{width_by, word_by, typed, type_at, below_at, stack_at, storage_at, entry_by, entry_at, place_of, small, local_by, param_by, variable_at, address_of as address_in};

use crate::item::Entry;
use crate::words::{decimal, hex, skip};
use bits_core::{Width, Word};
use cmeaning::{CFunction, CalleeDecls, Local, ParamDecls};
use pcode_model::ParamStorage;

/// The width of so many bytes, or the nearest one.
#[tactic(auto, unfolding(crate::specs::Names::width_by))]
pub fn width_of(bytes: u128) -> Width
    ensures { result ≡ width_by bytes }
{
    match Width::new(bytes.max(1).min(16) as u8) {
        Some(width) => width,
        None => unreachable!(),
    }
}

/// A number as a word, reduced to its width.
pub fn word_of(width: Width, n: u128) -> Word
    ensures { result ≡ word_by width n }
{
    Word::new(n, width)
}

fn typed_of(signed: bool, bytes: &[u8]) -> (Local, &[u8])
    ensures { (result.0, result.1.now) ≡ typed signed (decimal_at bytes.now) }
{
    let (bits, rest) = decimal(bytes);
    let width = width_of(bits / 8);
    (Local { width, signed }, rest)
}

/// The type that stands here.
#[tactic(auto, unfolding(crate::specs::Names::type_at))]
pub fn type_of(bytes: &[u8]) -> Option<(Local, &[u8])>
    ensures { option_map (λ x. (x.0, x.1.now)) result ≡ type_at bytes.now }
{
    if let Some(rest) = skip(b"u", bytes) {
        return Some(typed_of(false, rest));
    }
    if let Some(rest) = skip(b"s", bytes) {
        return Some(typed_of(true, rest));
    }
    None
}

// ---- the names of parameters

pub fn long(n: u128) -> u64
    ensures { result ≡ n % 2 ^ 64 }
{
    (n % 0x1_0000_0000_0000_0000) as u64
}

fn below(n: u128, rest: &[u8]) -> Option<(ParamStorage, &[u8])>
    ensures { option_map (λ x. (x.0, x.1.now)) result ≡ below_at (n, rest.now) }
{
    if n > 0x8000_0000 {
        return None;
    }
    Some((ParamStorage::Stack((-(n as i64)) as i32), rest))
}

fn above(n: u128, rest: &[u8]) -> Option<(ParamStorage, &[u8])>
    ensures { option_map (λ x. (x.0, x.1.now)) result ≡ stack_at (n, rest.now) }
{
    if n >= 0x8000_0000 {
        return None;
    }
    Some((ParamStorage::Stack(n as i32), rest))
}

#[tactic(auto, unfolding(crate::specs::Names::storage_at))]
fn storage(bytes: &[u8]) -> Option<(ParamStorage, &[u8])>
    ensures { option_map (λ x. (x.0, x.1.now)) result ≡ storage_at bytes.now }
{
    if let Some(rest) = skip(b"register_", bytes) {
        let (n, rest) = hex(rest);
        return Some((ParamStorage::Register(long(n)), rest));
    }
    if let Some(rest) = skip(b"unique_", bytes) {
        let (n, rest) = hex(rest);
        return Some((ParamStorage::Unique(long(n)), rest));
    }
    if let Some(rest) = skip(b"stack_m", bytes) {
        let (n, rest) = hex(rest);
        return below(n, rest);
    }
    if let Some(rest) = skip(b"stack_", bytes) {
        let (n, rest) = hex(rest);
        return above(n, rest);
    }
    None
}

fn entry_of(model: bool, bytes: &[u8]) -> Option<(Entry, &[u8])>
    ensures { option_map (λ x. (x.0, x.1.now)) result ≡ entry_by model bytes.now }
{
    let (storage, rest) = storage(bytes)?;
    Some((Entry { model, storage }, rest))
}

/// The name of a parameter that stands here.
#[tactic(auto, unfolding(crate::specs::Names::entry_at))]
pub fn entry(bytes: &[u8]) -> Option<(Entry, &[u8])>
    ensures { option_map (λ x. (x.0, x.1.now)) result ≡ entry_at bytes.now }
{
    if let Some(rest) = skip(b"p_", bytes) {
        return entry_of(true, rest);
    }
    if let Some(rest) = skip(b"in_", bytes) {
        return entry_of(false, rest);
    }
    None
}

// ---- the numbers of variables

/// The place of a parameter.
fn place(e: Entry, params: &ParamDecls) -> Option<usize>
    ensures value { result ≡ place_of e 0 params.now }
    ensures within { IfSome result (λ n. n < length params.now) }
{
    params.place(e.model, e.storage)
}

fn narrowed(n: usize) -> Option<u32>
    ensures { result ≡ small n }
{
    if n < 0x1_0000_0000 {
        Some(n as u32)
    } else {
        None
    }
}

fn local(count: usize, n: u128, rest: &[u8]) -> Option<(u32, &[u8])>
    requires { count < 2 ^ 63 }
    ensures { option_map (λ x. (x.0, x.1.now)) result ≡ local_by count (n, rest.now) }
{
    let n = (n % 0x2_0000_0000) as usize;
    let k = narrowed(count + n.saturating_sub(1))?;
    Some((k, rest))
}

fn param<'b>(params: &ParamDecls, e: Entry, rest: &'b [u8]) -> Option<(u32, &'b [u8])>
    ensures { option_map (λ x. (x.0, x.1.now)) result ≡ param_by params.now (e, rest.now) }
{
    let k = place(e, params)?;
    let k = narrowed(k)?;
    Some((k, rest))
}

/// The number of the variable whose name stands here.
#[tactic(auto, unfolding(crate::specs::Names::variable_at))]
pub fn variable<'b>(f: &CFunction, bytes: &'b [u8]) -> Option<(u32, &'b [u8])>
    ensures { option_map (λ x. (x.0, x.1.now)) result ≡ variable_at (scope_of f.now) bytes.now }
{
    if let Some(rest) = skip(b"v", bytes) {
        let (n, rest) = decimal(rest);
        return local(f.params.as_slice().len(), n, rest);
    }
    let (e, rest) = entry(bytes)?;
    param(&f.params, e, rest)
}

// ---- callees

/// The address of the first callee with a name.
pub fn address_of(name: &[u8], callees: &CalleeDecls) -> Option<u64>
    ensures { result ≡ address_in name.now callees.now }
{
    match callees.named(name) {
        Some(c) => Some(c.address),
        None => None,
    }
}
