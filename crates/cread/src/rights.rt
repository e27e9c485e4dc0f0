//! Memory accesses, calls, divisions and assignments, up to the end of their line.

ghost use Rattle.std.specs.Prelude.{◌≡◌, Some};
ghost use Rattle.std.specs.Option.{option_map};
ghost use Rattle.ctext.specs.Names.{scope_of};
ghost use Rattle.cread.specs.Words.{Gives, behind};
ghost use Rattle.cread.specs.Statements.{right_at, division_at, value_at, further_item, further_at, args_at, listed_at, pointed_at, memory_at, with_args, named_call, bare_call, indirect_call, other_call, extra_at, divide_at, loaded, right_by, assigned_by, target_at, effect_at};

use crate::expressions::{expr, expr_up_to};
use crate::item::{Access, CFault, Right};
use crate::names::{address_of, long, variable};
use crate::words::{decimal, ends, hex, name, need, skip};
use cmeaning::{CFunction, Expr, Exprs, StatementDivision, Stmt};
use pcode_model::Name;
use std::alloc::Global;

#[tactic(auto, unfolding(crate::specs::Statements::right_at))]
fn right(bytes: &[u8]) -> Option<(Right, &[u8])>
    ensures { option_map (λ x. (x.0, x.1.now)) result ≡ right_at bytes.now }
{
    if let Some(rest) = skip(b"*(u", bytes) {
        return Some((Right::Pointed, rest));
    }
    if let Some(rest) = skip(b"MEM", bytes) {
        return Some((Right::Memory, rest));
    }
    if let Some(rest) = skip(b"f_", bytes) {
        return Some((Right::Named, rest));
    }
    if let Some(rest) = skip(b"g_", bytes) {
        return Some((Right::Bare, rest));
    }
    if let Some(rest) = skip(b"CALLIND", bytes) {
        return Some((Right::Indirect, rest));
    }
    if let Some(rest) = skip(b"OTHER", bytes) {
        return Some((Right::Other, rest));
    }
    if let Some(rest) = skip(b"EXTRAOUT", bytes) {
        return Some((Right::Extra, rest));
    }
    division(bytes)
}

#[tactic(auto, unfolding(crate::specs::Statements::division_at))]
fn division(bytes: &[u8]) -> Option<(Right, &[u8])>
    ensures { option_map (λ x. (x.0, x.1.now)) result ≡ division_at bytes.now }
{
    if let Some(rest) = skip(b"DIV(", bytes) {
        return Some((Right::Divide(StatementDivision::Div), rest));
    }
    if let Some(rest) = skip(b"SDIV(", bytes) {
        return Some((Right::Divide(StatementDivision::SDiv), rest));
    }
    if let Some(rest) = skip(b"REM(", bytes) {
        return Some((Right::Divide(StatementDivision::Rem), rest));
    }
    if let Some(rest) = skip(b"SREM(", bytes) {
        return Some((Right::Divide(StatementDivision::SRem), rest));
    }
    None
}

/// A value at the end of a line.
pub fn value<'b>(alloc: Global, f: &CFunction, bytes: &'b [u8]) -> Result<(Expr, &'b [u8]), CFault>
    ensures { Gives (λ x. (x.0, x.1.now)) result (value_at (scope_of f.now) bytes.now) }
{
    expr_up_to(alloc, f, b";\n", bytes)
}

// ---- arguments

#[tactic(auto, unfolding(crate::specs::Statements::further_item))]
fn further_arg<'b>(
    alloc: Global,
    f: &CFunction,
    bytes: &'b [u8],
) -> Result<(Expr, &'b [u8]), CFault>
    ensures { Gives (λ x. (x.0, x.1.now)) result (further_item (scope_of f.now) bytes.now) }
{
    let rest = need(b", ", bytes)?;
    expr(alloc, f, rest)
}

/// Adds each expression that stands here behind a comma.
#[tactic(auto, using(crate::proofs::Rows::row_more, crate::proofs::Rows::row_stops, crate::proofs::Rows::row_ends))]
fn further<'b>(
    alloc: Global,
    f: &CFunction,
    found: Exprs,
    bytes: &'b [u8],
) -> Result<(Exprs, &'b [u8]), CFault>
    ensures { Gives (λ x. (x.0, x.1.now)) result (Some (behind found (further_at (scope_of f.now) bytes.now))) }
{
    let mut found = found;
    let mut rest = bytes;
    for _ in 0..bytes.len() {
        match further_arg(alloc, f, rest) {
            Ok((e, more)) => {
                found.push(e)?;
                rest = more;
            }
            Err(CFault::NotC) => return Ok((found, rest)),
            Err(CFault::Memory) => return Err(CFault::Memory),
        }
    }
    Ok((found, rest))
}

/// The arguments of a call, up to the parenthesis behind them.
#[tactic(auto, unfolding(crate::specs::Statements::args_at))]
fn args<'b>(alloc: Global, f: &CFunction, bytes: &'b [u8]) -> Result<(Exprs, &'b [u8]), CFault>
    ensures { Gives (λ x. (x.0, x.1.now)) result (args_at (scope_of f.now) bytes.now) }
{
    if skip(b")", bytes).is_some() {
        return Ok((Exprs::new(alloc), bytes));
    }
    let (e, rest) = expr(alloc, f, bytes)?;
    let mut found = Exprs::new(alloc);
    found.push(e)?;
    further(alloc, f, found, rest)
}

/// The expressions that stand here behind a comma each, up to the end of the line.
fn listed<'b>(alloc: Global, f: &CFunction, bytes: &'b [u8]) -> Result<(Exprs, &'b [u8]), CFault>
    ensures { Gives (λ x. (x.0, x.1.now)) result (listed_at (scope_of f.now) bytes.now) }
{
    let found = further(alloc, f, Exprs::new(alloc), bytes)?;
    ends(b");\n", found)
}

// ---- memory

#[tactic(auto, unfolding(crate::specs::Statements::pointed_at))]
fn pointed<'b>(alloc: Global, f: &CFunction, bytes: &'b [u8]) -> Result<(Access, &'b [u8]), CFault>
    ensures { Gives (λ x. (x.0, x.1.now)) result (pointed_at (scope_of f.now) bytes.now) }
{
    let (_, rest) = decimal(bytes);
    let rest = need(b" *)(", rest)?;
    let (address, rest) = expr_up_to(alloc, f, b")", rest)?;
    let space = None;
    Ok((Access { space, address }, rest))
}

#[tactic(auto, unfolding(crate::specs::Statements::memory_at))]
fn memory<'b>(alloc: Global, f: &CFunction, bytes: &'b [u8]) -> Result<(Access, &'b [u8]), CFault>
    ensures { Gives (λ x. (x.0, x.1.now)) result (memory_at (scope_of f.now) bytes.now) }
{
    let (_, rest) = decimal(bytes);
    let rest = need(b"(", rest)?;
    let (space, rest) = name(rest);
    let rest = need(b", ", rest)?;
    let space = Name::from_slice(alloc, space)?;
    let (address, rest) = expr_up_to(alloc, f, b")", rest)?;
    let space = Some(space);
    Ok((Access { space, address }, rest))
}

/// A load or a store.
fn access<'b>(
    alloc: Global,
    f: &CFunction,
    v: Option<u32>,
    found: (Access, &'b [u8]),
) -> Result<(Stmt, &'b [u8]), CFault>
    ensures { Gives (λ x. (x.0, x.1.now)) result (loaded v (found.entry.0, found.entry.1.now) (scope_of f.now)) }
{
    match v {
        Some(target) => {
            let (a, rest) = ends(b";\n", found)?;
            let Access { space, address } = a;
            Ok((
                Stmt::Load {
                    target,
                    space,
                    address,
                },
                rest,
            ))
        }
        None => {
            let (a, rest) = ends(b" = ", found)?;
            let (value, rest) = value(alloc, f, rest)?;
            let Access { space, address } = a;
            Ok((
                Stmt::Store {
                    space,
                    address,
                    value,
                },
                rest,
            ))
        }
    }
}

// ---- calls

fn call<'b>(
    alloc: Global,
    f: &CFunction,
    target: Option<u32>,
    callee: u64,
    bytes: &'b [u8],
) -> Result<(Stmt, &'b [u8]), CFault>
    ensures { Gives (λ x. (x.0, x.1.now)) result (with_args (scope_of f.now) target callee bytes.now) }
{
    let rest = need(b"(", bytes)?;
    let found = args(alloc, f, rest)?;
    let (args, rest) = ends(b");\n", found)?;
    Ok((
        Stmt::Call {
            target,
            callee,
            args,
        },
        rest,
    ))
}

#[tactic(auto, unfolding(crate::specs::Statements::named_call))]
fn named<'b>(
    alloc: Global,
    f: &CFunction,
    target: Option<u32>,
    bytes: &'b [u8],
) -> Result<(Stmt, &'b [u8]), CFault>
    ensures { Gives (λ x. (x.0, x.1.now)) result (named_call (scope_of f.now) target bytes.now) }
{
    let (name, rest) = name(bytes);
    match address_of(name, &f.callees) {
        Some(address) => call(alloc, f, target, address, rest),
        None => Err(CFault::NotC),
    }
}

#[tactic(auto, unfolding(crate::specs::Statements::bare_call))]
fn bare<'b>(
    alloc: Global,
    f: &CFunction,
    target: Option<u32>,
    bytes: &'b [u8],
) -> Result<(Stmt, &'b [u8]), CFault>
    ensures { Gives (λ x. (x.0, x.1.now)) result (bare_call (scope_of f.now) target bytes.now) }
{
    let (n, rest) = hex(bytes);
    call(alloc, f, target, long(n), rest)
}

#[tactic(auto, unfolding(crate::specs::Statements::indirect_call))]
fn indirect<'b>(
    alloc: Global,
    f: &CFunction,
    target: Option<u32>,
    bytes: &'b [u8],
) -> Result<(Stmt, &'b [u8]), CFault>
    ensures { Gives (λ x. (x.0, x.1.now)) result (indirect_call (scope_of f.now) target bytes.now) }
{
    let (_, rest) = decimal(bytes);
    let rest = need(b"(", rest)?;
    let (callee, rest) = expr(alloc, f, rest)?;
    let (args, rest) = listed(alloc, f, rest)?;
    Ok((
        Stmt::CallInd {
            target,
            callee,
            args,
        },
        rest,
    ))
}

#[tactic(auto, unfolding(crate::specs::Statements::other_call))]
fn other<'b>(
    alloc: Global,
    f: &CFunction,
    target: Option<u32>,
    bytes: &'b [u8],
) -> Result<(Stmt, &'b [u8]), CFault>
    ensures { Gives (λ x. (x.0, x.1.now)) result (other_call (scope_of f.now) target bytes.now) }
{
    let (_, rest) = decimal(bytes);
    let rest = need(b"(0x", rest)?;
    let (n, rest) = hex(rest);
    let index = long(n);
    let (args, rest) = listed(alloc, f, rest)?;
    Ok((
        Stmt::Other {
            target,
            index,
            args,
        },
        rest,
    ))
}

#[tactic(auto, unfolding(crate::specs::Statements::extra_at))]
fn extra(target: Option<u32>, bytes: &[u8]) -> Result<(Stmt, &[u8]), CFault>
    ensures { Gives (λ x. (x.0, x.1.now)) result (extra_at target bytes.now) }
{
    let Some(target) = target else {
        return Err(CFault::NotC);
    };
    let (_, rest) = decimal(bytes);
    let rest = need(b"(0x", rest)?;
    let (n, rest) = hex(rest);
    let rest = need(b");\n", rest)?;
    let offset = long(n);
    Ok((Stmt::Extra { target, offset }, rest))
}

#[tactic(auto, unfolding(crate::specs::Statements::divide_at))]
fn divide<'b>(
    alloc: Global,
    f: &CFunction,
    target: Option<u32>,
    op: StatementDivision,
    bytes: &'b [u8],
) -> Result<(Stmt, &'b [u8]), CFault>
    ensures { Gives (λ x. (x.0, x.1.now)) result (divide_at (scope_of f.now) target op bytes.now) }
{
    let Some(target) = target else {
        return Err(CFault::NotC);
    };
    let (left, rest) = expr_up_to(alloc, f, b", ", bytes)?;
    let (right, rest) = expr_up_to(alloc, f, b");\n", rest)?;
    Ok((
        Stmt::Divide {
            target,
            op,
            left,
            right,
        },
        rest,
    ))
}

// ---- behind a target or alone

#[tactic(auto, unfolding(crate::specs::Statements::right_by))]
fn behind_word<'b>(
    alloc: Global,
    f: &CFunction,
    target: Option<u32>,
    word: Right,
    bytes: &'b [u8],
) -> Result<(Stmt, &'b [u8]), CFault>
    ensures { Gives (λ x. (x.0, x.1.now)) result (right_by (scope_of f.now) target word bytes.now) }
{
    match word {
        Right::Pointed => {
            let found = pointed(alloc, f, bytes)?;
            access(alloc, f, target, found)
        }
        Right::Memory => {
            let found = memory(alloc, f, bytes)?;
            access(alloc, f, target, found)
        }
        Right::Named => named(alloc, f, target, bytes),
        Right::Bare => bare(alloc, f, target, bytes),
        Right::Indirect => indirect(alloc, f, target, bytes),
        Right::Other => other(alloc, f, target, bytes),
        Right::Extra => extra(target, bytes),
        Right::Divide(op) => divide(alloc, f, target, op, bytes),
    }
}

fn assigned<'b>(
    alloc: Global,
    f: &CFunction,
    target: u32,
    bytes: &'b [u8],
) -> Result<(Stmt, &'b [u8]), CFault>
    ensures { Gives (λ x. (x.0, x.1.now)) result (assigned_by (scope_of f.now) target bytes.now) }
{
    if let Some((word, rest)) = right(bytes) {
        return behind_word(alloc, f, Some(target), word, rest);
    }
    let (value, rest) = value(alloc, f, bytes)?;
    Ok((Stmt::Assign { target, value }, rest))
}

#[tactic(auto, unfolding(crate::specs::Statements::target_at))]
fn assign<'b>(alloc: Global, f: &CFunction, bytes: &'b [u8]) -> Result<(Stmt, &'b [u8]), CFault>
    ensures { Gives (λ x. (x.0, x.1.now)) result (target_at (scope_of f.now) bytes.now) }
{
    match variable(f, bytes) {
        Some((v, rest)) => {
            let rest = need(b" = ", rest)?;
            assigned(alloc, f, v, rest)
        }
        None => Err(CFault::NotC),
    }
}

/// A statement of one line that begins with no word of its own.
#[tactic(auto, unfolding(crate::specs::Statements::effect_at))]
pub fn effect<'b>(alloc: Global, f: &CFunction, bytes: &'b [u8]) -> Result<(Stmt, &'b [u8]), CFault>
    ensures { Gives (λ x. (x.0, x.1.now)) result (effect_at (scope_of f.now) bytes.now) }
{
    if let Some((word, rest)) = right(bytes) {
        return behind_word(alloc, f, None, word, rest);
    }
    assign(alloc, f, bytes)
}
