//! The rules of a valid tree, but for those of parameters, expressions, case values and bodies.

ghost use Rattle.std.specs.Prelude.{◌≡◌, ◌==◌, ◌&&◌, ◌<◌, ◌↔◌, IsTrue, true, false, None, IfOk, IsOk};
ghost use Rattle.cmeaning.specs.Do.{widths_in};
ghost use Rattle.cmeaning.specs.Shape.{shape_of, is_right, has_width as is_wide};
ghost use Rattle.cmeaning.specs.Firsts.{are_firsts};
ghost use Rattle.cmeaning.specs.Valid.{is_name, are_params, is_callee_name, is_callee, are_callees, declared_in, is_variable, is_target, is_space, are_right, have_widths, takes, is_call, is_assigned, is_returned, is_long, is_complete, IsValid};

use crate::body::body_holds;
use crate::callees::CalleeDecls;
use crate::numbering::{Next, number_body};
use crate::params::params_fit;
use crate::shape::{has_width, obeys, variable_width};
use crate::tree::{CFunction, CName, CalleeDecl, Expr};
use bits_core::{Memory, Width};
use listing_lines::is_name;
use pcode_model::Name;
use std::alloc::Global;

// ---- declarations of callees

fn callee_name_fits(name: &CName) -> bool
    ensures { result ≡ is_callee_name name.now }
{
    match name {
        CName::Declared(name) => is_name(name.as_slice()),
        CName::Bare => true,
    }
}

fn callee_fits(c: &CalleeDecl) -> bool
    ensures { result ≡ is_callee c.now }
{
    let _address = c.address;
    callee_name_fits(&c.name) && (c.returns || c.gives.is_none())
}

/// Whether each is right, and the first of its address and of its name.
fn firsts_fit(callees: &CalleeDecls) -> bool
    ensures { result ≡ are_firsts callees.now 0 callees.now }
{
    let listed = callees.as_slice();
    for i in 0..listed.len() {
        if !callee_fits(&listed[i]) || !callees.is_first(i, &listed[i]) {
            return false;
        }
    }
    true
}

#[tactic(auto, using(crate::proofs::Firsts::callees_by_firsts))]
fn callees_fit(callees: &CalleeDecls) -> bool
    ensures { result ≡ are_callees callees.now }
{
    firsts_fit(callees)
}

// ---- the parts of statements

fn is_numbered(f: &CFunction, v: u32) -> bool
    ensures { result ≡ is_variable (widths_in f.now) v }
{
    variable_width(f, v) > 0
}

fn target_fits(f: &CFunction, v: Option<u32>) -> bool
    ensures { result ≡ is_target (widths_in f.now) v }
{
    match v {
        None => true,
        Some(v) => is_numbered(f, v),
    }
}

fn space_fits(space: &Option<Name>) -> bool
    ensures { result ≡ is_space space.now }
{
    match space {
        None => true,
        Some(name) => is_name(name.as_slice()),
    }
}

fn obey(f: &CFunction, es: &[Expr]) -> bool
    ensures { result ≡ are_right (widths_in f.now) es.now }
{
    for e in es {
        if !obeys(f, e) {
            return false;
        }
    }
    true
}

#[tactic(auto, using(crate::proofs::Lengths::args_of_lengths))]
fn args_fit(f: &CFunction, args: &[Expr], widths: &[Width]) -> bool
    ensures { result ≡ have_widths (widths_in f.now) args.now widths.now }
{
    if args.len() != widths.len() {
        return false;
    }
    for i in 0..args.len() {
        if !has_width(f, widths[i].bytes, &args[i]) {
            return false;
        }
    }
    true
}

fn result_taken(f: &CFunction, v: Option<u32>, gives: Option<Width>) -> bool
    ensures { result ≡ takes (widths_in f.now) v gives }
{
    match v {
        None => true,
        Some(v) => match gives {
            None => false,
            Some(w) => is_numbered(f, v) && variable_width(f, v) == w.bytes,
        },
    }
}

pub(crate) fn call_fits(f: &CFunction, v: Option<u32>, callee: u64, args: &[Expr]) -> bool
    ensures { result ≡ is_call (widths_in f.now) v args.now (declared_in f.now.callees callee) }
{
    match f.callees.declared(callee) {
        Some(c) => args_fit(f, args, c.args.as_slice()) && result_taken(f, v, c.gives),
        None => false,
    }
}

pub(crate) fn assigns(f: &CFunction, v: u32, e: &Expr) -> bool
    ensures { result ≡ is_assigned (widths_in f.now) v (shape_of (widths_in f.now) e.now) }
{
    is_numbered(f, v) && has_width(f, variable_width(f, v), e)
}

pub(crate) fn returns_right(f: &CFunction, e: &Option<Expr>) -> bool
    ensures { result ≡ is_returned (widths_in f.now) f.now.gives e.now }
{
    match (f.gives, e) {
        (None, None) => true,
        (Some(w), Some(e)) => has_width(f, w.bytes, e),
        _ => false,
    }
}

pub(crate) fn load_fits(f: &CFunction, v: u32, space: &Option<Name>, address: &Expr) -> bool
    ensures { result ≡ (is_variable (widths_in f.now) v && (is_space space.now && is_right (shape_of (widths_in f.now) address.now))) }
{
    is_numbered(f, v) && space_fits(space) && obeys(f, address)
}

pub(crate) fn store_fits(f: &CFunction, space: &Option<Name>, address: &Expr, value: &Expr) -> bool
    ensures { result ≡ (is_space space.now && (is_right (shape_of (widths_in f.now) address.now) && is_right (shape_of (widths_in f.now) value.now))) }
{
    space_fits(space) && obeys(f, address) && obeys(f, value)
}

pub(crate) fn call_ind_fits(f: &CFunction, v: Option<u32>, callee: &Expr, args: &[Expr]) -> bool
    ensures { result ≡ (is_target (widths_in f.now) v && (is_right (shape_of (widths_in f.now) callee.now) && are_right (widths_in f.now) args.now)) }
{
    target_fits(f, v) && obeys(f, callee) && obey(f, args)
}

pub(crate) fn other_fits(f: &CFunction, v: Option<u32>, index: u64, args: &[Expr]) -> bool
    ensures { result ≡ (is_target (widths_in f.now) v && (is_long index && are_right (widths_in f.now) args.now)) }
{
    let _index = index;
    target_fits(f, v) && obey(f, args)
}

pub(crate) fn extra_fits(f: &CFunction, v: u32, offset: u64, after_call: bool) -> bool
    ensures { result ≡ (after_call && (is_variable (widths_in f.now) v && is_long offset)) }
{
    let _offset = offset;
    after_call && is_numbered(f, v)
}

pub(crate) fn divide_fits(f: &CFunction, v: u32, left: &Expr, right: &Expr) -> bool
    ensures { result ≡ (is_assigned (widths_in f.now) v (shape_of (widths_in f.now) left.now) && is_wide (widths_in f.now v) (shape_of (widths_in f.now) right.now)) }
{
    assigns(f, v, left) && has_width(f, variable_width(f, v), right)
}

// ---- functions

fn header_fits(memory: Option<Global>, f: &CFunction) -> Result<bool, Memory>
    ensures right { IfOk result (λ b. b ≡ (is_name f.now.name && (are_params f.now.params && are_callees f.now.callees))) }
    ensures without { memory ≡ None → IsOk result }
{
    if !is_name(f.name.as_slice()) {
        return Ok(false);
    }
    let ordered = params_fit(memory, f.params.as_slice())?;
    Ok(ordered && callees_fit(&f.callees))
}

fn body_fits(memory: Option<Global>, f: &CFunction, next: Option<Next>) -> Result<bool, Memory>
    ensures right { IfOk result (λ b. b ≡ is_complete f.now next) }
    ensures without { memory ≡ None → IsOk result }
{
    match next {
        None => Ok(false),
        Some(n) => {
            let variables = f.params.as_slice().len() + f.locals.as_slice().len();
            if n.variable != variables || n.callee != f.callees.len() {
                return Ok(false);
            }
            body_holds(memory, f, n.label, f.body.as_slice())
        }
    }
}

fn obeys_all(memory: Option<Global>, f: &CFunction) -> Result<bool, Memory>
    ensures right { IfOk result (λ b. IsTrue b ↔ IsValid f.now) }
    ensures without { memory ≡ None → IsOk result }
{
    let first = Next {
        variable: f.params.len(),
        callee: 0,
        label: 1,
    };
    let next = number_body(&f.callees, Some(first), f.body.as_slice());
    let header = header_fits(memory, f)?;
    if !header {
        return Ok(false);
    }
    body_fits(memory, f, next)
}

/// Whether a tree is valid, so that it has a text. It takes no memory.
pub fn valid(f: &CFunction) -> bool
    ensures { IsTrue result ↔ IsValid f.now }
{
    match obeys_all(None, f) {
        Ok(holds) => holds,
        Err(_) => unreachable!(),
    }
}

/// Whether a tree is valid, as `valid` says it. With memory for the case values of one switch and for the
/// parameters, it compares no pairs of them.
pub fn checked(alloc: Global, f: &CFunction) -> Result<bool, Memory>
    ensures { IfOk result (λ b. IsTrue b ↔ IsValid f.now) }
{
    obeys_all(Some(alloc), f)
}
