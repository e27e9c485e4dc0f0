//! The names and types of the C text.

ghost use Rattle.std.specs.Prelude.{◌≡◌, ◌++◌, ◌-◌, length, slice_get, option_copied, OnOk};
ghost use Rattle.cmeaning.specs.Callees.{declared_in, returns_by};
ghost use Rattle.ctext.specs.Names.{type_text, result_type, param_name, storage_text, callee_name, scope_of, variable, name_at};

use crate::digits::{put, put_decimal, put_hex};
use bits_core::{Memory, Width};
use cmeaning::{CFunction, CName, CalleeDecl, CalleeDecls, Local, Param};
use pcode_model::ParamStorage;
use std::alloc::Global;

pub fn put_type(alloc: Global, out: &mut Vec<u8>, signed: bool, bytes: u8) -> Result<(), Memory>
    ensures { OnOk result (out.new.items ≡ out.old.items ++ type_text signed bytes) }
{
    if signed {
        put(out, b"s")?;
    } else {
        put(out, b"u")?;
    }
    put_decimal(alloc, out, 8 * u64::from(bytes))
}

pub fn put_result_type(alloc: Global, out: &mut Vec<u8>, gives: Option<Width>) -> Result<(), Memory>
    ensures { OnOk result (out.new.items ≡ out.old.items ++ result_type gives) }
{
    match gives {
        None => put(out, b"void"),
        Some(w) => put_type(alloc, out, false, w.bytes),
    }
}

fn put_storage(out: &mut Vec<u8>, storage: ParamStorage) -> Result<(), Memory>
    ensures { OnOk result (out.new.items ≡ out.old.items ++ storage_text storage) }
{
    match storage {
        ParamStorage::Register(offset) => {
            put(out, b"register_")?;
            put_hex(out, u128::from(offset))
        }
        ParamStorage::Unique(offset) => {
            put(out, b"unique_")?;
            put_hex(out, u128::from(offset))
        }
        ParamStorage::Stack(offset) => {
            if offset < 0 {
                put(out, b"stack_m")?;
            } else {
                put(out, b"stack_")?;
            }
            put_hex(out, u128::from(offset.unsigned_abs()))
        }
    }
}

pub fn put_param_name(out: &mut Vec<u8>, p: &Param) -> Result<(), Memory>
    ensures { OnOk result (out.new.items ≡ out.old.items ++ param_name p.now) }
{
    if p.model {
        put(out, b"p_")?;
    } else {
        put(out, b"in_")?;
    }
    put_storage(out, p.storage)
}

pub fn put_callee_name(out: &mut Vec<u8>, name: &CName, address: u64) -> Result<(), Memory>
    ensures { OnOk result (out.new.items ≡ out.old.items ++ callee_name name.now address) }
{
    match name {
        CName::Declared(name) => {
            put(out, b"f_")?;
            put(out, name.as_slice())
        }
        CName::Bare => {
            put(out, b"g_")?;
            put_hex(out, u128::from(address))
        }
    }
}

/// The local of a variable that is no parameter.
fn local_of(f: &CFunction, n: u32) -> Option<Local>
    ensures { result ≡ slice_get f.now.locals (n - length f.now.params) }
{
    let k = (n as usize).saturating_sub(f.params.len());
    f.locals.as_slice().get(k).copied()
}

/// The width in bytes of a variable, or 0 of none.
#[tactic(auto, unfolding(crate::specs::Names::variable))]
pub fn variable_width(f: &CFunction, n: u32) -> u8
    ensures { result ≡ (variable (scope_of f.now) n).width }
{
    match f.params.as_slice().get(n as usize) {
        Some(p) => p.width.bytes,
        None => match local_of(f, n) {
            Some(l) => l.width.bytes,
            None => 0,
        },
    }
}

#[tactic(auto, unfolding(crate::specs::Names::variable))]
pub fn variable_signed(f: &CFunction, n: u32) -> bool
    ensures { result ≡ (variable (scope_of f.now) n).signed }
{
    match f.params.as_slice().get(n as usize) {
        Some(p) => p.signed,
        None => match local_of(f, n) {
            Some(l) => l.signed,
            None => false,
        },
    }
}

#[tactic(auto, unfolding(crate::specs::Names::variable))]
pub fn put_variable(alloc: Global, out: &mut Vec<u8>, f: &CFunction, n: u32) -> Result<(), Memory>
    ensures { OnOk result (out.new.items ≡ out.old.items ++ (variable (scope_of f.now) n).name) }
{
    match f.params.as_slice().get(n as usize) {
        Some(p) => put_param_name(out, p),
        None => match local_of(f, n) {
            Some(_) => {
                put(out, b"v")?;
                put_decimal(
                    alloc,
                    out,
                    u64::from(n).saturating_sub(f.params.len() as u64) + 1,
                )
            }
            None => Ok(()),
        },
    }
}

/// The first of the callees with an address.
pub fn find_callee(callees: &CalleeDecls, address: u64) -> Option<&CalleeDecl>
    ensures { option_copied result ≡ declared_in callees.now address }
{
    callees.declared(address)
}

/// Whether a call of the callee with this address goes on.
pub fn call_goes_on(f: &CFunction, address: u64) -> bool
    ensures { result ≡ returns_by f.now.callees address }
{
    match find_callee(&f.callees, address) {
        Some(c) => c.returns,
        None => true,
    }
}

/// The name of the callee with an address.
pub fn put_name_at(out: &mut Vec<u8>, f: &CFunction, address: u64) -> Result<(), Memory>
    ensures { OnOk result (out.new.items ≡ out.old.items ++ name_at (declared_in f.now.callees address)) }
{
    match find_callee(&f.callees, address) {
        Some(c) => put_callee_name(out, &c.name, c.address),
        None => Ok(()),
    }
}
