//! The text of a statement without a body.

ghost use Rattle.std.specs.Prelude.{◌≡◌, ◌++◌, codes, OnOk, Some, None};
ghost use Rattle.std.specs.Fmt.{decimal};
ghost use Rattle.ctext.specs.Names.{scope_of, variable, further, separated};
ghost use Rattle.ctext.specs.Expressions.{form};
ghost use Rattle.ctext.specs.Statements.{target_text, target_width, assigned, access_text, plain_texts, division_word, return_text, load_text, store_text, assign_text, call_text, call_ind_text, other_text, extra_text, divide_text};

use crate::digits::{put, put_decimal, put_hex};
use crate::expressions::{Mode, print_expr, print_pair, width_of};
use crate::names::{put_name_at, put_type, put_variable, variable_signed, variable_width};
use bits_core::Memory;
use cmeaning::{CFunction, Expr, StatementDivision};
use pcode_model::Name;
use std::alloc::Global;

fn put_target(
    alloc: Global,
    out: &mut Vec<u8>,
    f: &CFunction,
    target: Option<u32>,
) -> Result<(), Memory>
    ensures { OnOk result (out.new.items ≡ out.old.items ++ target_text (scope_of f.now) target) }
{
    match target {
        None => Ok(()),
        Some(v) => {
            put_variable(alloc, out, f, v)?;
            put(out, b" = ")
        }
    }
}

fn width_of_target(f: &CFunction, target: Option<u32>) -> u8
    ensures { result ≡ target_width (scope_of f.now) target }
{
    match target {
        None => 0,
        Some(v) => variable_width(f, v),
    }
}

fn print_assigned(
    alloc: Global,
    out: &mut Vec<u8>,
    f: &CFunction,
    v: u32,
    e: &Expr,
) -> Result<(), Memory>
    ensures { OnOk result (out.new.items ≡ out.old.items ++ assigned (variable (scope_of f.now) v) (form (scope_of f.now) e.now)) }
{
    if variable_signed(f, v) {
        print_expr(alloc, out, f, Mode::Signed, e)
    } else {
        print_expr(alloc, out, f, Mode::Plain, e)
    }
}

pub fn print_assign(
    alloc: Global,
    out: &mut Vec<u8>,
    f: &CFunction,
    v: u32,
    e: &Expr,
) -> Result<(), Memory>
    ensures { OnOk result (out.new.items ≡ out.old.items ++ assign_text (scope_of f.now) v e.now) }
{
    put_variable(alloc, out, f, v)?;
    put(out, b" = ")?;
    print_assigned(alloc, out, f, v, e)?;
    put(out, b";\n")
}

fn print_pointed(
    alloc: Global,
    out: &mut Vec<u8>,
    f: &CFunction,
    bytes: u8,
    a: &Expr,
) -> Result<(), Memory>
    ensures { OnOk result (out.new.items ≡ out.old.items ++ access_text None bytes (form (scope_of f.now) a.now)) }
{
    put(out, b"*(")?;
    put_type(alloc, out, false, bytes)?;
    put(out, b" *)(")?;
    print_expr(alloc, out, f, Mode::Plain, a)?;
    put(out, b")")
}

fn print_named(
    alloc: Global,
    out: &mut Vec<u8>,
    f: &CFunction,
    name: &[u8],
    bytes: u8,
    a: &Expr,
) -> Result<(), Memory>
    ensures { OnOk result (out.new.items ≡ out.old.items ++ access_text (Some name.now) bytes (form (scope_of f.now) a.now)) }
{
    put(out, b"MEM")?;
    put_decimal(alloc, out, u64::from(bytes))?;
    put(out, b"(")?;
    put(out, name)?;
    put(out, b", ")?;
    print_expr(alloc, out, f, Mode::Plain, a)?;
    put(out, b")")
}

fn print_access(
    alloc: Global,
    out: &mut Vec<u8>,
    f: &CFunction,
    space: &Option<Name>,
    bytes: u8,
    a: &Expr,
) -> Result<(), Memory>
    ensures { OnOk result (out.new.items ≡ out.old.items ++ access_text space.now bytes (form (scope_of f.now) a.now)) }
{
    match space {
        None => print_pointed(alloc, out, f, bytes, a),
        Some(name) => print_named(alloc, out, f, name.as_slice(), bytes, a),
    }
}

pub fn print_load(
    alloc: Global,
    out: &mut Vec<u8>,
    f: &CFunction,
    v: u32,
    space: &Option<Name>,
    a: &Expr,
) -> Result<(), Memory>
    ensures { OnOk result (out.new.items ≡ out.old.items ++ load_text (scope_of f.now) v space.now a.now) }
{
    put_variable(alloc, out, f, v)?;
    put(out, b" = ")?;
    print_access(alloc, out, f, space, variable_width(f, v), a)?;
    put(out, b";\n")
}

pub fn print_store(
    alloc: Global,
    out: &mut Vec<u8>,
    f: &CFunction,
    space: &Option<Name>,
    a: &Expr,
    e: &Expr,
) -> Result<(), Memory>
    ensures { OnOk result (out.new.items ≡ out.old.items ++ store_text (scope_of f.now) space.now a.now e.now) }
{
    print_access(alloc, out, f, space, width_of(f, e), a)?;
    put(out, b" = ")?;
    print_expr(alloc, out, f, Mode::Plain, e)?;
    put(out, b";\n")
}

/// Each expression behind a comma.
fn print_further(alloc: Global, out: &mut Vec<u8>, f: &CFunction, es: &[Expr]) -> Result<(), Memory>
    ensures { OnOk result (out.new.items ≡ out.old.items ++ further (plain_texts (scope_of f.now) es.now)) }
{
    for e in es {
        put(out, b", ")?;
        print_expr(alloc, out, f, Mode::Plain, e)?;
    }
    Ok(())
}

fn print_separated(
    alloc: Global,
    out: &mut Vec<u8>,
    f: &CFunction,
    es: &[Expr],
) -> Result<(), Memory>
    ensures { OnOk result (out.new.items ≡ out.old.items ++ separated (plain_texts (scope_of f.now) es.now)) }
{
    match es.split_first() {
        None => Ok(()),
        Some((e, more)) => {
            print_expr(alloc, out, f, Mode::Plain, e)?;
            print_further(alloc, out, f, more)
        }
    }
}

pub fn print_call(
    alloc: Global,
    out: &mut Vec<u8>,
    f: &CFunction,
    target: Option<u32>,
    callee: u64,
    args: &[Expr],
) -> Result<(), Memory>
    ensures { OnOk result (out.new.items ≡ out.old.items ++ call_text (scope_of f.now) target callee args.now) }
{
    put_target(alloc, out, f, target)?;
    put_name_at(out, f, callee)?;
    put(out, b"(")?;
    print_separated(alloc, out, f, args)?;
    put(out, b");\n")
}

/// A target, a word and the target's width.
fn put_call_word(
    alloc: Global,
    out: &mut Vec<u8>,
    f: &CFunction,
    target: Option<u32>,
    word: &[u8],
) -> Result<(), Memory>
    ensures { OnOk result (out.new.items ≡ out.old.items ++ (target_text (scope_of f.now) target ++ (word.now ++ decimal (target_width (scope_of f.now) target)))) }
{
    put_target(alloc, out, f, target)?;
    put(out, word)?;
    put_decimal(alloc, out, u64::from(width_of_target(f, target)))
}

pub fn print_call_ind(
    alloc: Global,
    out: &mut Vec<u8>,
    f: &CFunction,
    target: Option<u32>,
    callee: &Expr,
    args: &[Expr],
) -> Result<(), Memory>
    ensures { OnOk result (out.new.items ≡ out.old.items ++ call_ind_text (scope_of f.now) target callee.now args.now) }
{
    put_call_word(alloc, out, f, target, b"CALLIND")?;
    put(out, b"(")?;
    print_expr(alloc, out, f, Mode::Plain, callee)?;
    print_further(alloc, out, f, args)?;
    put(out, b");\n")
}

pub fn print_other(
    alloc: Global,
    out: &mut Vec<u8>,
    f: &CFunction,
    target: Option<u32>,
    index: u64,
    args: &[Expr],
) -> Result<(), Memory>
    ensures { OnOk result (out.new.items ≡ out.old.items ++ other_text (scope_of f.now) target index args.now) }
{
    put_call_word(alloc, out, f, target, b"OTHER")?;
    put(out, b"(0x")?;
    put_hex(out, u128::from(index))?;
    print_further(alloc, out, f, args)?;
    put(out, b");\n")
}

pub fn print_extra(
    alloc: Global,
    out: &mut Vec<u8>,
    f: &CFunction,
    v: u32,
    offset: u64,
) -> Result<(), Memory>
    ensures { OnOk result (out.new.items ≡ out.old.items ++ extra_text (scope_of f.now) v offset) }
{
    put_call_word(alloc, out, f, Some(v), b"EXTRAOUT")?;
    put(out, b"(0x")?;
    put_hex(out, u128::from(offset))?;
    put(out, b");\n")
}

fn division_word_of(op: StatementDivision) -> &'static [u8]
    ensures { result.now ≡ division_word op }
{
    match op {
        StatementDivision::Div => b"DIV",
        StatementDivision::SDiv => b"SDIV",
        StatementDivision::Rem => b"REM",
        StatementDivision::SRem => b"SREM",
    }
}

pub fn print_divide(
    alloc: Global,
    out: &mut Vec<u8>,
    f: &CFunction,
    v: u32,
    op: StatementDivision,
    a: &Expr,
    b: &Expr,
) -> Result<(), Memory>
    ensures { OnOk result (out.new.items ≡ out.old.items ++ divide_text (scope_of f.now) v op a.now b.now) }
{
    put_target(alloc, out, f, Some(v))?;
    print_pair(alloc, out, f, division_word_of(op), a, b)?;
    put(out, b";\n")
}

pub fn print_return(
    alloc: Global,
    out: &mut Vec<u8>,
    f: &CFunction,
    value: &Option<Expr>,
) -> Result<(), Memory>
    ensures { OnOk result (out.new.items ≡ out.old.items ++ return_text (scope_of f.now) value.now) }
{
    match value {
        None => put(out, b"return;\n"),
        Some(e) => {
            put(out, b"return ")?;
            print_expr(alloc, out, f, Mode::Plain, e)?;
            put(out, b";\n")
        }
    }
}

pub fn print_goto(alloc: Global, out: &mut Vec<u8>, label: u32) -> Result<(), Memory>
    ensures { OnOk result (out.new.items ≡ out.old.items ++ (codes "goto L" ++ (decimal label ++ codes ";\n"))) }
{
    put(out, b"goto L")?;
    put_decimal(alloc, out, u64::from(label))?;
    put(out, b";\n")
}

pub fn print_label(alloc: Global, out: &mut Vec<u8>, label: u32) -> Result<(), Memory>
    ensures { OnOk result (out.new.items ≡ out.old.items ++ (codes "L" ++ (decimal label ++ codes ":\n"))) }
{
    put(out, b"L")?;
    put_decimal(alloc, out, u64::from(label))?;
    put(out, b":\n")
}
