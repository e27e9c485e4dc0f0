//! The text of statements and of their bodies.

ghost use Rattle.std.specs.Prelude.{◌≡◌, ◌++◌, ℕ, List, true, false, codes, OnOk, IfOk};
ghost use Rattle.cmeaning.specs.Kinds.{kind_of, computes, calls, nests};
ghost use Rattle.ctext.specs.Names.{scope_of};
ghost use Rattle.ctext.specs.Expressions.{form, shown};
ghost use Rattle.ctext.specs.Statements.{lines, body_text, body_breaks, arm_text, arms_text, deeper, case_lines, break_line, loop_head};

use crate::digits::{put, put_hex};
use crate::expressions::{Mode, print_expr};
use crate::names::call_goes_on;
use crate::simple::{
    print_assign, print_call, print_call_ind, print_divide, print_extra, print_goto, print_label,
    print_load, print_other, print_return, print_store,
};
use bits_core::Memory;
use cmeaning::{Arm, CFunction, Expr, Stmt};
use std::alloc::Global;

fn longer(alloc: Global, indent: &[u8]) -> Result<Vec<u8>, Memory>
    ensures { IfOk result (λ v. v.items ≡ deeper indent.now) }
{
    let mut v = Vec::new(alloc);
    v.extend_from_slice(b"  ")?;
    v.extend_from_slice(indent)?;
    Ok(v)
}

/// Whether nothing behind a statement in its body is reached.
#[tactic(auto, unfolding(crate::specs::Statements::lines))]
fn leaves(f: &CFunction, s: &Stmt) -> bool
    ensures { result ≡ (lines (scope_of f.now) s.now).leaves }
{
    match s {
        Stmt::Call { callee, .. } => !call_goes_on(f, *callee),
        Stmt::Goto(_) => true,
        Stmt::Return(_) => true,
        _ => false,
    }
}

/// Whether an arm of these statements ends in a break: whether the last of them goes on.
#[tactic(auto, unfolding(crate::specs::Statements::body_breaks))]
fn breaks(f: &CFunction, body: &[Stmt]) -> bool
    ensures { result ≡ body_breaks (scope_of f.now) body.now }
{
    let mut last = false;
    for s in body {
        last = leaves(f, s);
    }
    !last
}

fn print_cases(out: &mut Vec<u8>, cases: &[u128], indent: &[u8]) -> Result<(), Memory>
    ensures { OnOk result (out.new.items ≡ out.old.items ++ case_lines cases.now indent.now) }
{
    for n in cases {
        put(out, indent)?;
        put(out, b"case 0x")?;
        put_hex(out, *n)?;
        put(out, b":\n")?;
    }
    Ok(())
}

fn print_break(out: &mut Vec<u8>, breaks: bool, indent: &[u8]) -> Result<(), Memory>
    ensures { OnOk result (out.new.items ≡ out.old.items ++ break_line breaks indent.now) }
{
    if !breaks {
        return Ok(());
    }
    put(out, indent)?;
    put(out, b"break;\n")
}

fn print_head(
    alloc: Global,
    out: &mut Vec<u8>,
    f: &CFunction,
    word: &[u8],
    mode: Mode,
    e: &Expr,
) -> Result<(), Memory>
    ensures { OnOk result (out.new.items ≡ out.old.items ++ (word.now ++ (shown mode (form (scope_of f.now) e.now) ++ codes ") {\n"))) }
{
    put(out, word)?;
    print_expr(alloc, out, f, mode, e)?;
    put(out, b") {\n")
}

/// Statements in a row, each behind the indentation.
#[cycle(bodies)]
#[tactic(auto, unfolding(crate::specs::Statements::body_text))]
pub fn print_body(
    alloc: Global,
    out: &mut Vec<u8>,
    f: &CFunction,
    body: &[Stmt],
    indent: &[u8],
) -> Result<(), Memory>
    ensures { OnOk result (out.new.items ≡ out.old.items ++ body_text (scope_of f.now) body.now indent.now) }
{
    for s in body {
        put(out, indent)?;
        print_stmt(alloc, out, f, s, indent)?;
    }
    Ok(())
}

/// A body one level deeper, and the indentation of the line that closes it.
#[cycle(bodies)]
fn print_inner(
    alloc: Global,
    out: &mut Vec<u8>,
    f: &CFunction,
    body: &[Stmt],
    indent: &[u8],
) -> Result<(), Memory>
    ensures { OnOk result (out.new.items ≡ out.old.items ++ (body_text (scope_of f.now) body.now (deeper indent.now) ++ indent.now)) }
{
    let more = longer(alloc, indent)?;
    print_body(alloc, out, f, body, more.as_slice())?;
    put(out, indent)
}

#[cycle(bodies)]
fn print_block(
    alloc: Global,
    out: &mut Vec<u8>,
    f: &CFunction,
    word: &[u8],
    condition: &Expr,
    body: &[Stmt],
    indent: &[u8],
) -> Result<(), Memory>
    ensures { OnOk result (out.new.items ≡ out.old.items ++ (word.now ++ ((form (scope_of f.now) condition.now).test ++ (codes ") {\n" ++ (body_text (scope_of f.now) body.now (deeper indent.now) ++ (indent.now ++ codes "}\n")))))) }
{
    print_head(alloc, out, f, word, Mode::Test, condition)?;
    print_inner(alloc, out, f, body, indent)?;
    put(out, b"}\n")
}

#[cycle(bodies)]
fn print_if_else(
    alloc: Global,
    out: &mut Vec<u8>,
    f: &CFunction,
    condition: &Expr,
    body: &[Stmt],
    other: &[Stmt],
    indent: &[u8],
) -> Result<(), Memory>
    ensures { OnOk result (out.new.items ≡ out.old.items ++ (codes "if (" ++ ((form (scope_of f.now) condition.now).test ++ (codes ") {\n" ++ (body_text (scope_of f.now) body.now (deeper indent.now) ++ (indent.now ++ (codes "} else {\n" ++ (body_text (scope_of f.now) other.now (deeper indent.now) ++ (indent.now ++ codes "}\n"))))))))) }
{
    print_head(alloc, out, f, b"if (", Mode::Test, condition)?;
    print_inner(alloc, out, f, body, indent)?;
    put(out, b"} else {\n")?;
    print_inner(alloc, out, f, other, indent)?;
    put(out, b"}\n")
}

#[cycle(bodies)]
fn print_do_while(
    alloc: Global,
    out: &mut Vec<u8>,
    f: &CFunction,
    body: &[Stmt],
    condition: &Expr,
    indent: &[u8],
) -> Result<(), Memory>
    ensures { OnOk result (out.new.items ≡ out.old.items ++ (codes "do {\n" ++ (body_text (scope_of f.now) body.now (deeper indent.now) ++ (indent.now ++ (codes "} while (" ++ ((form (scope_of f.now) condition.now).test ++ codes ");\n")))))) }
{
    put(out, b"do {\n")?;
    print_inner(alloc, out, f, body, indent)?;
    put(out, b"} while (")?;
    print_expr(alloc, out, f, Mode::Test, condition)?;
    put(out, b");\n")
}

#[tactic(auto, unfolding(crate::specs::Statements::loop_head))]
fn loop_head_of() -> &'static [u8]
    ensures { result.now ≡ loop_head }
{
    b"while (1) {\n"
}

#[cycle(bodies)]
fn print_loop(
    alloc: Global,
    out: &mut Vec<u8>,
    f: &CFunction,
    body: &[Stmt],
    indent: &[u8],
) -> Result<(), Memory>
    ensures { OnOk result (out.new.items ≡ out.old.items ++ (loop_head ++ (body_text (scope_of f.now) body.now (deeper indent.now) ++ (indent.now ++ codes "}\n")))) }
{
    put(out, loop_head_of())?;
    print_inner(alloc, out, f, body, indent)?;
    put(out, b"}\n")
}

/// The case lines of an arm, its statements and its break.
#[cycle(bodies)]
fn print_arm_lines(
    alloc: Global,
    out: &mut Vec<u8>,
    f: &CFunction,
    cases: &[u128],
    body: &[Stmt],
    indent: &[u8],
) -> Result<(), Memory>
    ensures { OnOk result (out.new.items ≡ out.old.items ++ (case_lines cases.now indent.now ++ (body_text (scope_of f.now) body.now (deeper indent.now) ++ break_line (body_breaks (scope_of f.now) body.now) (deeper indent.now)))) }
{
    let more = longer(alloc, indent)?;
    print_cases(out, cases, indent)?;
    print_body(alloc, out, f, body, more.as_slice())?;
    print_break(out, breaks(f, body), more.as_slice())
}

#[cycle(bodies)]
#[tactic(auto, using(crate::proofs::Nested::arm_lines))]
fn print_arm(
    alloc: Global,
    out: &mut Vec<u8>,
    f: &CFunction,
    arm: &Arm,
    indent: &[u8],
) -> Result<(), Memory>
    ensures { OnOk result (out.new.items ≡ out.old.items ++ arm_text (scope_of f.now) arm.now indent.now) }
{
    print_arm_lines(
        alloc,
        out,
        f,
        arm.cases.as_slice(),
        arm.body.as_slice(),
        indent,
    )
}

#[cycle(bodies)]
#[tactic(auto, unfolding(crate::specs::Statements::arms_text))]
fn print_arms(
    alloc: Global,
    out: &mut Vec<u8>,
    f: &CFunction,
    arms: &[Arm],
    indent: &[u8],
) -> Result<(), Memory>
    ensures { OnOk result (out.new.items ≡ out.old.items ++ arms_text (scope_of f.now) arms.now indent.now) }
{
    for arm in arms {
        print_arm(alloc, out, f, arm, indent)?;
    }
    Ok(())
}

#[cycle(bodies)]
fn print_switch(
    alloc: Global,
    out: &mut Vec<u8>,
    f: &CFunction,
    value: &Expr,
    arms: &[Arm],
    indent: &[u8],
) -> Result<(), Memory>
    ensures { OnOk result (out.new.items ≡ out.old.items ++ (codes "switch (" ++ ((form (scope_of f.now) value.now).plain ++ (codes ") {\n" ++ (arms_text (scope_of f.now) arms.now indent.now ++ (indent.now ++ codes "}\n")))))) }
{
    print_head(alloc, out, f, b"switch (", Mode::Plain, value)?;
    print_arms(alloc, out, f, arms, indent)?;
    put(out, indent)?;
    put(out, b"}\n")
}

/// A statement that computes or moves a value.
#[tactic(auto, unfolding(crate::specs::Statements::lines, cmeaning::specs::Kinds::kind_of))]
fn print_computation(
    alloc: Global,
    out: &mut Vec<u8>,
    f: &CFunction,
    s: &Stmt,
) -> Result<(), Memory>
    requires { computes (kind_of s.now) ≡ true }
    ensures { (indent : List ℕ) → OnOk result (out.new.items ≡ out.old.items ++ (lines (scope_of f.now) s.now).text indent) }
{
    match s {
        Stmt::Assign { target, value } => print_assign(alloc, out, f, *target, value),
        Stmt::Load {
            target,
            space,
            address,
        } => print_load(alloc, out, f, *target, space, address),
        Stmt::Store {
            space,
            address,
            value,
        } => print_store(alloc, out, f, space, address, value),
        Stmt::Divide {
            target,
            op,
            left,
            right,
        } => print_divide(alloc, out, f, *target, *op, left, right),
        _ => unreachable!(),
    }
}

/// A call, or a statement that takes what one has left.
#[tactic(auto, unfolding(crate::specs::Statements::lines, cmeaning::specs::Kinds::kind_of))]
fn print_calling(alloc: Global, out: &mut Vec<u8>, f: &CFunction, s: &Stmt) -> Result<(), Memory>
    requires { calls (kind_of s.now) ≡ true }
    ensures { (indent : List ℕ) → OnOk result (out.new.items ≡ out.old.items ++ (lines (scope_of f.now) s.now).text indent) }
{
    match s {
        Stmt::Call {
            target,
            callee,
            args,
        } => print_call(alloc, out, f, *target, *callee, args.as_slice()),
        Stmt::CallInd {
            target,
            callee,
            args,
        } => print_call_ind(alloc, out, f, *target, callee, args.as_slice()),
        Stmt::Other {
            target,
            index,
            args,
        } => print_other(alloc, out, f, *target, *index, args.as_slice()),
        Stmt::Extra { target, offset } => print_extra(alloc, out, f, *target, *offset),
        _ => unreachable!(),
    }
}

/// A statement without statements in it, which is one line.
#[tactic(auto, unfolding(crate::specs::Statements::lines, cmeaning::specs::Kinds::kind_of))]
fn print_simple(alloc: Global, out: &mut Vec<u8>, f: &CFunction, s: &Stmt) -> Result<(), Memory>
    requires { nests (kind_of s.now) ≡ false }
    ensures { (indent : List ℕ) → OnOk result (out.new.items ≡ out.old.items ++ (lines (scope_of f.now) s.now).text indent) }
{
    match s {
        Stmt::Call { .. } | Stmt::CallInd { .. } | Stmt::Other { .. } | Stmt::Extra { .. } => {
            print_calling(alloc, out, f, s)
        }
        Stmt::Break => put(out, b"break;\n"),
        Stmt::Goto(label) => print_goto(alloc, out, *label),
        Stmt::Label(label) => print_label(alloc, out, *label),
        Stmt::Return(value) => print_return(alloc, out, f, value),
        _ => print_computation(alloc, out, f, s),
    }
}

#[cycle(bodies)]
#[tactic(auto, using(crate::proofs::Nested::lines_if_else, crate::proofs::Nested::lines_switch), unfolding(crate::specs::Statements::lines, crate::specs::Statements::body_text, cmeaning::specs::Kinds::kind_of))]
fn print_stmt(
    alloc: Global,
    out: &mut Vec<u8>,
    f: &CFunction,
    s: &Stmt,
    indent: &[u8],
) -> Result<(), Memory>
    ensures { OnOk result (out.new.items ≡ out.old.items ++ (lines (scope_of f.now) s.now).text indent.now) }
{
    match s {
        Stmt::If { condition, body } => {
            print_block(alloc, out, f, b"if (", condition, body.as_slice(), indent)
        }
        Stmt::IfElse { condition, yes, no } => {
            print_if_else(
                alloc,
                out,
                f,
                condition,
                yes.as_slice(),
                no.as_slice(),
                indent,
            )
        }
        Stmt::While { condition, body } => {
            print_block(
                alloc,
                out,
                f,
                b"while (",
                condition,
                body.as_slice(),
                indent,
            )
        }
        Stmt::DoWhile { body, condition } => {
            print_do_while(alloc, out, f, body.as_slice(), condition, indent)
        }
        Stmt::Loop { body } => print_loop(alloc, out, f, body.as_slice(), indent),
        Stmt::Switch { value, arms } => {
            print_switch(alloc, out, f, value, arms.as_slice(), indent)
        }
        _ => print_simple(alloc, out, f, s),
    }
}
