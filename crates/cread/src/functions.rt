//! Reading a function with the declarations of its callees.

ghost use Rattle.std.specs.Prelude.{◌≡◌, Some};
ghost use Rattle.cread.specs.Words.{Gives, behind};
ghost use Rattle.cread.specs.Functions.{result_at, callee_name_at, marked_by, no_return_mark, head_at, width_at, further_width, more_widths, widths_at, tail_at, callee_at, callees_at, param_at, further_param, more_params, params_at, local_at, locals_at, declared_name, title_at, variables_at, frame_at, function_at};

use crate::item::{CFault, Head};
use crate::names::{entry, long, type_of};
use crate::statements::body;
use crate::words::{decimal, ends, hex, name, need, skip};
use bits_core::Width;
use cmeaning::{
    Body, CFunction, CName, CalleeDecl, CalleeDecls, Local, Locals, Param, ParamDecls, Widths,
};
use pcode_model::Name;
use std::alloc::Global;

// ---- what callees and the function begin with

fn result(bytes: &[u8]) -> Result<(Option<Width>, &[u8]), CFault>
    ensures { Gives (λ x. (x.0, x.1.now)) result (result_at bytes.now) }
{
    if let Some(rest) = skip(b"void", bytes) {
        return Ok((None, rest));
    }
    match type_of(bytes) {
        Some((t, rest)) => Ok((Some(t.width), rest)),
        None => Err(CFault::NotC),
    }
}

fn callee_name(alloc: Global, bytes: &[u8]) -> Result<(CName, &[u8]), CFault>
    ensures { Gives (λ x. (x.0, x.1.now)) result (callee_name_at bytes.now) }
{
    if let Some(rest) = skip(b"f_", bytes) {
        let (name, rest) = name(rest);
        let name = Name::from_slice(alloc, name)?;
        return Ok((CName::Declared(name), rest));
    }
    if let Some(rest) = skip(b"g_", bytes) {
        let (_, rest) = hex(rest);
        return Ok((CName::Bare, rest));
    }
    Err(CFault::NotC)
}

fn marked(alloc: Global, returns: bool, bytes: &[u8]) -> Result<(Head, &[u8]), CFault>
    ensures { Gives (λ x. (x.0, x.1.now)) result (marked_by returns bytes.now) }
{
    let (gives, rest) = result(bytes)?;
    let rest = need(b" ", rest)?;
    let found = callee_name(alloc, rest)?;
    let (name, rest) = ends(b"(", found)?;
    Ok((
        Head {
            returns,
            gives,
            name,
        },
        rest,
    ))
}

/// What the declaration of a callee that never returns begins with.
#[tactic(auto, unfolding(crate::specs::Functions::no_return_mark))]
fn mark() -> &'static [u8]
    ensures { result.now ≡ no_return_mark }
{
    b"[[noreturn]] "
}

/// Up to the parenthesis.
#[tactic(auto, unfolding(crate::specs::Functions::head_at))]
fn head(alloc: Global, bytes: &[u8]) -> Result<(Head, &[u8]), CFault>
    ensures { Gives (λ x. (x.0, x.1.now)) result (head_at bytes.now) }
{
    match skip(mark(), bytes) {
        Some(rest) => marked(alloc, false, rest),
        None => marked(alloc, true, bytes),
    }
}

// ---- callees

#[tactic(auto, unfolding(crate::specs::Functions::width_at))]
fn width(bytes: &[u8]) -> Result<(Width, &[u8]), CFault>
    ensures { Gives (λ x. (x.0, x.1.now)) result (width_at bytes.now) }
{
    match type_of(bytes) {
        Some((t, rest)) => Ok((t.width, rest)),
        None => Err(CFault::NotC),
    }
}

#[tactic(auto, unfolding(crate::specs::Functions::further_width))]
fn next_width(bytes: &[u8]) -> Result<(Width, &[u8]), CFault>
    ensures { Gives (λ x. (x.0, x.1.now)) result (further_width bytes.now) }
{
    let rest = need(b", ", bytes)?;
    width(rest)
}

#[tactic(auto, using(crate::proofs::Rows::row_more, crate::proofs::Rows::row_stops, crate::proofs::Rows::row_ends))]
fn add_widths(found: Widths, bytes: &[u8]) -> Result<(Widths, &[u8]), CFault>
    ensures { Gives (λ x. (x.0, x.1.now)) result (Some (behind found (more_widths bytes.now))) }
{
    let mut found = found;
    let mut rest = bytes;
    for _ in 0..bytes.len() {
        match next_width(rest) {
            Ok((w, more)) => {
                found.push(w)?;
                rest = more;
            }
            Err(CFault::NotC) => return Ok((found, rest)),
            Err(CFault::Memory) => return Err(CFault::Memory),
        }
    }
    Ok((found, rest))
}

#[tactic(auto, unfolding(crate::specs::Functions::widths_at))]
fn widths(alloc: Global, bytes: &[u8]) -> Result<(Widths, &[u8]), CFault>
    ensures { Gives (λ x. (x.0, x.1.now)) result (widths_at bytes.now) }
{
    if let Some(rest) = skip(b"void", bytes) {
        return Ok((Widths::new(alloc), rest));
    }
    let (w, rest) = width(bytes)?;
    let mut found = Widths::new(alloc);
    found.push(w)?;
    add_widths(found, rest)
}

/// The widths of the arguments and the address, up to the end of the line.
#[tactic(auto, unfolding(crate::specs::Functions::tail_at))]
fn tail(alloc: Global, bytes: &[u8]) -> Result<((Widths, u64), &[u8]), CFault>
    ensures { Gives (λ x. (x.0, x.1.now)) result (tail_at bytes.now) }
{
    let found = widths(alloc, bytes)?;
    let (args, rest) = ends(b"); // 0x", found)?;
    let (n, rest) = hex(rest);
    ends(b"\n", ((args, long(n)), rest))
}

/// The declaration of a callee, in a line of its own.
#[tactic(auto, unfolding(crate::specs::Functions::callee_at))]
fn callee(alloc: Global, bytes: &[u8]) -> Result<(CalleeDecl, &[u8]), CFault>
    ensures { Gives (λ x. (x.0, x.1.now)) result (callee_at bytes.now) }
{
    let (head, rest) = head(alloc, bytes)?;
    let ((args, address), rest) = tail(alloc, rest)?;
    Ok((
        CalleeDecl {
            name: head.name,
            address,
            gives: head.gives,
            args,
            returns: head.returns,
        },
        rest,
    ))
}

#[tactic(auto, using(crate::proofs::Rows::row_more, crate::proofs::Rows::row_stops, crate::proofs::Rows::row_ends))]
fn callees(alloc: Global, bytes: &[u8]) -> Result<(CalleeDecls, &[u8]), CFault>
    ensures { Gives (λ x. (x.0, x.1.now)) result (Some (callees_at bytes.now)) }
{
    let mut found = CalleeDecls::new(alloc);
    let mut rest = bytes;
    for _ in 0..bytes.len() {
        match callee(alloc, rest) {
            Ok((c, more)) => {
                found = found.with(alloc, c)?;
                rest = more;
            }
            Err(CFault::NotC) => return Ok((found, rest)),
            Err(CFault::Memory) => return Err(CFault::Memory),
        }
    }
    Ok((found, rest))
}

// ---- parameters and locals

#[tactic(auto, unfolding(crate::specs::Functions::param_at))]
fn param(bytes: &[u8]) -> Result<(Param, &[u8]), CFault>
    ensures { Gives (λ x. (x.0, x.1.now)) result (param_at bytes.now) }
{
    let Some((t, rest)) = type_of(bytes) else {
        return Err(CFault::NotC);
    };
    let rest = need(b" ", rest)?;
    let Some((e, rest)) = entry(rest) else {
        return Err(CFault::NotC);
    };
    Ok((
        Param {
            storage: e.storage,
            model: e.model,
            width: t.width,
            signed: t.signed,
        },
        rest,
    ))
}

#[tactic(auto, unfolding(crate::specs::Functions::further_param))]
fn next_param(bytes: &[u8]) -> Result<(Param, &[u8]), CFault>
    ensures { Gives (λ x. (x.0, x.1.now)) result (further_param bytes.now) }
{
    let rest = need(b", ", bytes)?;
    param(rest)
}

#[tactic(auto, using(crate::proofs::Rows::row_more, crate::proofs::Rows::row_stops, crate::proofs::Rows::row_ends))]
fn add_params(found: ParamDecls, bytes: &[u8]) -> Result<(ParamDecls, &[u8]), CFault>
    ensures { Gives (λ x. (x.0, x.1.now)) result (Some (behind found (more_params bytes.now))) }
{
    let mut found = found;
    let mut rest = bytes;
    for _ in 0..bytes.len() {
        match next_param(rest) {
            Ok((p, more)) => {
                found = found.with(p)?;
                rest = more;
            }
            Err(CFault::NotC) => return Ok((found, rest)),
            Err(CFault::Memory) => return Err(CFault::Memory),
        }
    }
    Ok((found, rest))
}

#[tactic(auto, unfolding(crate::specs::Functions::params_at))]
fn params(alloc: Global, bytes: &[u8]) -> Result<(ParamDecls, &[u8]), CFault>
    ensures { Gives (λ x. (x.0, x.1.now)) result (params_at bytes.now) }
{
    if let Some(rest) = skip(b"void", bytes) {
        return Ok((ParamDecls::new(alloc), rest));
    }
    let (p, rest) = param(bytes)?;
    let found = ParamDecls::new(alloc).with(p)?;
    add_params(found, rest)
}

/// The line of a local.
#[tactic(auto, unfolding(crate::specs::Functions::local_at))]
fn local(bytes: &[u8]) -> Result<(Local, &[u8]), CFault>
    ensures { Gives (λ x. (x.0, x.1.now)) result (local_at bytes.now) }
{
    let rest = need(b"  ", bytes)?;
    let Some((t, rest)) = type_of(rest) else {
        return Err(CFault::NotC);
    };
    let rest = need(b" v", rest)?;
    let (_, rest) = decimal(rest);
    let rest = need(b";\n", rest)?;
    Ok((t, rest))
}

#[tactic(auto, using(crate::proofs::Rows::row_more, crate::proofs::Rows::row_stops, crate::proofs::Rows::row_ends))]
fn locals(alloc: Global, bytes: &[u8]) -> Result<(Locals, &[u8]), CFault>
    ensures { Gives (λ x. (x.0, x.1.now)) result (Some (locals_at bytes.now)) }
{
    let mut found = Locals::new(alloc);
    let mut rest = bytes;
    for _ in 0..bytes.len() {
        match local(rest) {
            Ok((l, more)) => {
                found.push(l)?;
                rest = more;
            }
            Err(CFault::NotC) => return Ok((found, rest)),
            Err(CFault::Memory) => return Err(CFault::Memory),
        }
    }
    Ok((found, rest))
}

// ---- the function

fn declared(name: CName) -> Result<Name, CFault>
    ensures { Gives (λ x. x) result (declared_name name) }
{
    match name {
        CName::Declared(name) => Ok(name),
        CName::Bare => Err(CFault::NotC),
    }
}

/// The name and the width of the result.
#[tactic(auto, unfolding(crate::specs::Functions::title_at))]
fn title(alloc: Global, bytes: &[u8]) -> Result<((Name, Option<Width>), &[u8]), CFault>
    ensures { Gives (λ x. (x.0, x.1.now)) result (title_at bytes.now) }
{
    let (head, rest) = head(alloc, bytes)?;
    let gives = head.gives;
    let name = declared(head.name)?;
    Ok(((name, gives), rest))
}

/// The parameters and the locals.
#[tactic(auto, unfolding(crate::specs::Functions::variables_at))]
fn variables(alloc: Global, bytes: &[u8]) -> Result<((ParamDecls, Locals), &[u8]), CFault>
    ensures { Gives (λ x. (x.0, x.1.now)) result (variables_at bytes.now) }
{
    let found = params(alloc, bytes)?;
    let (params, rest) = ends(b")\n{\n", found)?;
    let (locals, rest) = locals(alloc, rest)?;
    Ok(((params, locals), rest))
}

/// All but the body.
#[tactic(auto, unfolding(crate::specs::Functions::frame_at))]
fn frame(alloc: Global, bytes: &[u8]) -> Result<(CFunction, &[u8]), CFault>
    ensures { Gives (λ x. (x.0, x.1.now)) result (frame_at bytes.now) }
{
    let (callees, rest) = callees(alloc, bytes)?;
    let ((name, gives), rest) = title(alloc, rest)?;
    let ((params, locals), rest) = variables(alloc, rest)?;
    Ok((
        CFunction {
            callees,
            name,
            gives,
            params,
            locals,
            body: Body::new(alloc),
        },
        rest,
    ))
}

/// The tree that the text may have.
#[tactic(auto, unfolding(crate::specs::Functions::function_at))]
pub fn function(alloc: Global, bytes: &[u8]) -> Result<CFunction, CFault>
    ensures { Gives (λ x. x) result (function_at bytes.now) }
{
    let (frame, rest) = frame(alloc, bytes)?;
    let (body, _) = body(alloc, &frame, false, 256, rest)?;
    Ok(CFunction {
        callees: frame.callees,
        name: frame.name,
        gives: frame.gives,
        params: frame.params,
        locals: frame.locals,
        body,
    })
}
