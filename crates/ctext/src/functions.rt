//! The text of a whole function.

ghost use Rattle.std.specs.Prelude.{◌≡◌, ◌+◌, ◌++◌, ◌<◌, map, codes, OnOk, IfOk};
ghost use Rattle.ctext.specs.Names.{scope_of, further, separated_or_void};
ghost use Rattle.ctext.specs.Statements.{body_text};
ghost use Rattle.ctext.specs.Text.{callee_line, callee_lines, param_text, local_lines, function_line, text_of, width_types, returns_mark, callee_head, address_text};

use crate::digits::{put, put_decimal, put_hex};
use crate::names::{put_callee_name, put_param_name, put_result_type, put_type};
use crate::statements::print_body;
use bits_core::{Memory, Width};
use cmeaning::{CFunction, CalleeDecl, Local, Param};
use pcode_model::Text;
use std::alloc::Global;

fn print_further_types(alloc: Global, out: &mut Vec<u8>, args: &[Width]) -> Result<(), Memory>
    ensures { OnOk result (out.new.items ≡ out.old.items ++ further (width_types args.now)) }
{
    for w in args {
        put(out, b", ")?;
        put_type(alloc, out, false, w.bytes)?;
    }
    Ok(())
}

fn print_types(alloc: Global, out: &mut Vec<u8>, args: &[Width]) -> Result<(), Memory>
    ensures { OnOk result (out.new.items ≡ out.old.items ++ separated_or_void (width_types args.now)) }
{
    match args.split_first() {
        None => put(out, b"void"),
        Some((w, more)) => {
            put_type(alloc, out, false, w.bytes)?;
            print_further_types(alloc, out, more)
        }
    }
}

fn put_returns_mark(out: &mut Vec<u8>, returns: bool) -> Result<(), Memory>
    ensures { OnOk result (out.new.items ≡ out.old.items ++ returns_mark returns) }
{
    if returns {
        Ok(())
    } else {
        put(out, b"[[noreturn]] ")
    }
}

fn print_callee_head(alloc: Global, out: &mut Vec<u8>, c: &CalleeDecl) -> Result<(), Memory>
    ensures { OnOk result (out.new.items ≡ out.old.items ++ callee_head c.now) }
{
    put_returns_mark(out, c.returns)?;
    put_result_type(alloc, out, c.gives)?;
    put(out, b" ")?;
    put_callee_name(out, &c.name, c.address)
}

fn put_address(out: &mut Vec<u8>, address: u64) -> Result<(), Memory>
    ensures { OnOk result (out.new.items ≡ out.old.items ++ address_text address) }
{
    put(out, b"); // 0x")?;
    put_hex(out, u128::from(address))?;
    put(out, b"\n")
}

fn print_callee(alloc: Global, out: &mut Vec<u8>, c: &CalleeDecl) -> Result<(), Memory>
    ensures { OnOk result (out.new.items ≡ out.old.items ++ callee_line c.now) }
{
    print_callee_head(alloc, out, c)?;
    put(out, b"(")?;
    print_types(alloc, out, c.args.as_slice())?;
    put_address(out, c.address)
}

fn print_callees(alloc: Global, out: &mut Vec<u8>, callees: &[CalleeDecl]) -> Result<(), Memory>
    ensures { OnOk result (out.new.items ≡ out.old.items ++ callee_lines callees.now) }
{
    for c in callees {
        print_callee(alloc, out, c)?;
    }
    Ok(())
}

fn print_param(alloc: Global, out: &mut Vec<u8>, p: &Param) -> Result<(), Memory>
    ensures { OnOk result (out.new.items ≡ out.old.items ++ param_text p.now) }
{
    put_type(alloc, out, p.signed, p.width.bytes)?;
    put(out, b" ")?;
    put_param_name(out, p)
}

fn print_further_params(alloc: Global, out: &mut Vec<u8>, params: &[Param]) -> Result<(), Memory>
    ensures { OnOk result (out.new.items ≡ out.old.items ++ further (map param_text params.now)) }
{
    for p in params {
        put(out, b", ")?;
        print_param(alloc, out, p)?;
    }
    Ok(())
}

fn print_params(alloc: Global, out: &mut Vec<u8>, params: &[Param]) -> Result<(), Memory>
    ensures { OnOk result (out.new.items ≡ out.old.items ++ separated_or_void (map param_text params.now)) }
{
    match params.split_first() {
        None => put(out, b"void"),
        Some((p, more)) => {
            print_param(alloc, out, p)?;
            print_further_params(alloc, out, more)
        }
    }
}

fn print_function_line(alloc: Global, out: &mut Vec<u8>, f: &CFunction) -> Result<(), Memory>
    ensures { OnOk result (out.new.items ≡ out.old.items ++ function_line f.now) }
{
    put_result_type(alloc, out, f.gives)?;
    put(out, b" f_")?;
    put(out, f.name.as_slice())?;
    put(out, b"(")?;
    print_params(alloc, out, f.params.as_slice())?;
    put(out, b")\n")
}

fn print_locals(alloc: Global, out: &mut Vec<u8>, locals: &[Local]) -> Result<(), Memory>
    ensures { OnOk result (out.new.items ≡ out.old.items ++ local_lines 0 locals.now) }
{
    let mut n: u64 = 0;
    for l in locals {
        n += 1;
        put(out, b"  ")?;
        put_type(alloc, out, l.signed, l.width.bytes)?;
        put(out, b" v")?;
        put_decimal(alloc, out, n)?;
        put(out, b";\n")?;
    }
    Ok(())
}

fn print_declarations(alloc: Global, out: &mut Vec<u8>, f: &CFunction) -> Result<(), Memory>
    ensures { OnOk result (out.new.items ≡ out.old.items ++ (callee_lines f.now.callees ++ function_line f.now)) }
{
    print_callees(alloc, out, f.callees.as_slice())?;
    print_function_line(alloc, out, f)
}

/// The locals and the body in braces.
fn print_braces(alloc: Global, out: &mut Vec<u8>, f: &CFunction) -> Result<(), Memory>
    ensures { OnOk result (out.new.items ≡ out.old.items ++ (codes "{\n" ++ (local_lines 0 f.now.locals ++ (body_text (scope_of f.now) f.now.body (codes "  ") ++ codes "}\n")))) }
{
    put(out, b"{\n")?;
    print_locals(alloc, out, f.locals.as_slice())?;
    print_body(alloc, out, f, f.body.as_slice(), b"  ")?;
    put(out, b"}\n")
}

/// The text of a tree: a line for each callee, the function's line, its locals and its body.
#[tactic(auto, unfolding(crate::specs::Text::text_of))]
pub fn print_c(alloc: Global, f: &CFunction) -> Result<Text, Memory>
    ensures { IfOk result (λ out. out.items ≡ text_of f.now) }
{
    let mut out = Vec::new(alloc);
    print_declarations(alloc, &mut out, f)?;
    print_braces(alloc, &mut out, f)?;
    Ok(out)
}
