//! The text of an expression.

ghost use Rattle.std.specs.Prelude.{◌≡◌, ◌<◌, ◌+◌, ◌*◌, [], ◌++◌, true, min, codes, OnOk};
ghost use Rattle.ctext.specs.Names.{scope_of, variable};
ghost use Rattle.ctext.specs.Expressions.{form, shown, before, behind, front, open_test, shut_test, constant, compound, simple, comparison, variable_form, suffix, unary_sign, arithmetic_sign, division_sign, signed_division_sign, compare_sign, signed_compare_sign, shift_word, shift_form, overflow_word, count_word, between, enclosed, call_of_two, extend_text, part_text, cast, unsigned_cast, is_below};

use crate::digits::{put, put_decimal, put_hex};
use crate::names::{put_type, put_variable, variable_signed, variable_width};
use bits_core::{Memory, Width, Word};
use cmeaning::{
    ArithmeticOp, CFunction, CompareOp, CountOp, DivisionOp, Expr, ExtendOp, OverflowOp, ShiftOp,
    SignedCompareOp, SignedDivisionOp, UnaryOp,
};
use std::alloc::Global;

/// How an expression stands.
#[derive(Clone, Copy)]
pub enum Mode {
    /// Alone, unsigned.
    Plain,
    /// As an unsigned operand.
    Operand,
    /// As a signed operand.
    Signed,
    /// As a condition.
    Test,
}

fn put_cast(alloc: Global, out: &mut Vec<u8>, signed: bool, bytes: u8) -> Result<(), Memory>
    ensures { OnOk result (out.new.items ≡ out.old.items ++ cast signed bytes []) }
{
    put(out, b"(")?;
    put_type(alloc, out, signed, bytes)?;
    put(out, b")")
}

fn put_before(alloc: Global, out: &mut Vec<u8>, mode: Mode, bytes: u8) -> Result<(), Memory>
    ensures { OnOk result (out.new.items ≡ out.old.items ++ before mode bytes) }
{
    match mode {
        Mode::Plain => Ok(()),
        Mode::Operand => put(out, b"("),
        Mode::Signed => {
            put_cast(alloc, out, true, bytes)?;
            put(out, b"(")
        }
        Mode::Test => Ok(()),
    }
}

fn put_behind(out: &mut Vec<u8>, mode: Mode) -> Result<(), Memory>
    ensures { OnOk result (out.new.items ≡ out.old.items ++ behind mode) }
{
    match mode {
        Mode::Plain => Ok(()),
        Mode::Operand => put(out, b")"),
        Mode::Signed => put(out, b")"),
        Mode::Test => Ok(()),
    }
}

fn put_front(alloc: Global, out: &mut Vec<u8>, mode: Mode, bytes: u8) -> Result<(), Memory>
    ensures { OnOk result (out.new.items ≡ out.old.items ++ front mode bytes) }
{
    match mode {
        Mode::Plain => Ok(()),
        Mode::Operand => Ok(()),
        Mode::Signed => put_cast(alloc, out, true, bytes),
        Mode::Test => Ok(()),
    }
}

fn put_open_test(alloc: Global, out: &mut Vec<u8>, mode: Mode) -> Result<(), Memory>
    ensures { OnOk result (out.new.items ≡ out.old.items ++ open_test mode) }
{
    match mode {
        Mode::Plain => put_open(alloc, out),
        Mode::Operand => put_open(alloc, out),
        Mode::Signed => {
            put_cast(alloc, out, true, 1)?;
            put_open(alloc, out)
        }
        Mode::Test => Ok(()),
    }
}

fn put_open(alloc: Global, out: &mut Vec<u8>) -> Result<(), Memory>
    ensures { OnOk result (out.new.items ≡ out.old.items ++ unsigned_cast 1 (codes "(")) }
{
    put_cast(alloc, out, false, 1)?;
    put(out, b"(")
}

fn put_shut_test(out: &mut Vec<u8>, mode: Mode) -> Result<(), Memory>
    ensures { OnOk result (out.new.items ≡ out.old.items ++ shut_test mode) }
{
    match mode {
        Mode::Plain => put(out, b")"),
        Mode::Operand => put(out, b")"),
        Mode::Signed => put(out, b")"),
        Mode::Test => Ok(()),
    }
}

/// The width of an expression in bytes.
#[tactic(auto, unfolding(crate::specs::Expressions::form))]
pub fn width_of(f: &CFunction, e: &Expr) -> u8
    ensures { result ≡ (form (scope_of f.now) e.now).width }
{
    match e {
        Expr::Const(word) => word.width.bytes,
        Expr::Var(n) => variable_width(f, *n),
        Expr::Unary(_, a) => width_of(f, a.get()),
        Expr::Arithmetic(_, a, _) => width_of(f, a.get()),
        Expr::Division(_, a, _) => width_of(f, a.get()),
        Expr::SignedDivision(_, a, _) => width_of(f, a.get()),
        Expr::Shift(_, a, _) => width_of(f, a.get()),
        Expr::Compare(_, _, _) => 1,
        Expr::SignedCompare(_, _, _) => 1,
        Expr::Extend(_, w, _) => w.bytes,
        Expr::Part(_, w, _) => w.bytes,
        Expr::Concat(a, b) => width_of(f, a.get()).saturating_add(width_of(f, b.get())),
        Expr::Overflow(_, _, _) => 1,
        Expr::Count(_, _) => 1,
    }
}

/// Whether an expression is a constant below a bound.
#[tactic(auto, unfolding(crate::specs::Expressions::form))]
fn is_constant_below(f: &CFunction, e: &Expr, bound: u32) -> bool
    ensures { result ≡ is_below (form (scope_of f.now) e.now).constant bound }
{
    match e {
        Expr::Const(word) => word.value < u128::from(bound),
        _ => false,
    }
}

fn unary_sign_of(op: UnaryOp) -> &'static [u8]
    ensures { result.now ≡ unary_sign op }
{
    match op {
        UnaryOp::Neg => b"-",
        UnaryOp::Not => b"~",
    }
}

fn arithmetic_sign_of(op: ArithmeticOp) -> &'static [u8]
    ensures { result.now ≡ arithmetic_sign op }
{
    match op {
        ArithmeticOp::Add => b" + ",
        ArithmeticOp::Sub => b" - ",
        ArithmeticOp::Mul => b" * ",
        ArithmeticOp::And => b" & ",
        ArithmeticOp::Or => b" | ",
        ArithmeticOp::Xor => b" ^ ",
    }
}

fn division_sign_of(op: DivisionOp) -> &'static [u8]
    ensures { result.now ≡ division_sign op }
{
    match op {
        DivisionOp::Div => b" / ",
        DivisionOp::Rem => b" % ",
    }
}

fn signed_division_sign_of(op: SignedDivisionOp) -> &'static [u8]
    ensures { result.now ≡ signed_division_sign op }
{
    match op {
        SignedDivisionOp::SDiv => b" / ",
        SignedDivisionOp::SRem => b" % ",
    }
}

fn compare_sign_of(op: CompareOp) -> &'static [u8]
    ensures { result.now ≡ compare_sign op }
{
    match op {
        CompareOp::Eq => b" == ",
        CompareOp::Ne => b" != ",
        CompareOp::Lt => b" < ",
        CompareOp::Le => b" <= ",
    }
}

fn signed_compare_sign_of(op: SignedCompareOp) -> &'static [u8]
    ensures { result.now ≡ signed_compare_sign op }
{
    match op {
        SignedCompareOp::SLt => b" < ",
        SignedCompareOp::SLe => b" <= ",
    }
}

fn shift_word_of(op: ShiftOp) -> &'static [u8]
    ensures { result.now ≡ shift_word op }
{
    match op {
        ShiftOp::Shl => b"SHL",
        ShiftOp::Shr => b"SHR",
        ShiftOp::Sar => b"SAR",
    }
}

fn overflow_word_of(op: OverflowOp) -> &'static [u8]
    ensures { result.now ≡ overflow_word op }
{
    match op {
        OverflowOp::Carry => b"CARRY",
        OverflowOp::SCarry => b"SCARRY",
        OverflowOp::SBorrow => b"SBORROW",
    }
}

fn count_word_of(op: CountOp) -> &'static [u8]
    ensures { result.now ≡ count_word op }
{
    match op {
        CountOp::Popcount => b"POPCOUNT",
        CountOp::Lzcount => b"LZCOUNT",
    }
}

fn put_suffix(out: &mut Vec<u8>, n: u128) -> Result<(), Memory>
    ensures { OnOk result (out.new.items ≡ out.old.items ++ suffix n) }
{
    if n < 0x1_0000_0000_0000_0000 {
        Ok(())
    } else {
        put(out, b"uwb")
    }
}

fn put_constant(alloc: Global, out: &mut Vec<u8>, word: Word) -> Result<(), Memory>
    ensures { OnOk result (out.new.items ≡ out.old.items ++ (constant word.width.bytes word.value).plain) }
{
    put_cast(alloc, out, false, word.width.bytes)?;
    put(out, b"0x")?;
    put_hex(out, word.value)?;
    put_suffix(out, word.value)
}

#[tactic(auto, using(crate::proofs::Shown::shown_constant))]
fn print_constant(alloc: Global, out: &mut Vec<u8>, mode: Mode, word: Word) -> Result<(), Memory>
    ensures { OnOk result (out.new.items ≡ out.old.items ++ shown mode (constant word.width.bytes word.value)) }
{
    put_front(alloc, out, mode, word.width.bytes)?;
    put_constant(alloc, out, word)
}

fn print_variable(
    alloc: Global,
    out: &mut Vec<u8>,
    f: &CFunction,
    mode: Mode,
    n: u32,
) -> Result<(), Memory>
    ensures { OnOk result (out.new.items ≡ out.old.items ++ shown mode (variable_form (variable (scope_of f.now) n))) }
{
    let bytes = variable_width(f, n);
    if variable_signed(f, n) {
        if !matches!(mode, Mode::Signed) {
            put_cast(alloc, out, false, bytes)?;
        }
    } else {
        put_front(alloc, out, mode, bytes)?;
    }
    put_variable(alloc, out, f, n)
}

/// The text of an expression in one of its forms.
#[cycle(printer)]
#[tactic(auto, unfolding(crate::specs::Expressions::form))]
pub fn print_expr(
    alloc: Global,
    out: &mut Vec<u8>,
    f: &CFunction,
    mode: Mode,
    e: &Expr,
) -> Result<(), Memory>
    ensures { OnOk result (out.new.items ≡ out.old.items ++ shown mode (form (scope_of f.now) e.now)) }
{
    match e {
        Expr::Const(word) => print_constant(alloc, out, mode, *word),
        Expr::Var(n) => print_variable(alloc, out, f, mode, *n),
        Expr::Unary(op, a) => print_unary(alloc, out, f, mode, unary_sign_of(*op), a.get()),
        Expr::Arithmetic(op, a, b) => {
            print_binary(
                alloc,
                out,
                f,
                mode,
                arithmetic_sign_of(*op),
                a.get(),
                b.get(),
            )
        }
        Expr::Division(op, a, b) => {
            print_binary(alloc, out, f, mode, division_sign_of(*op), a.get(), b.get())
        }
        Expr::SignedDivision(op, a, b) => {
            print_signed_division(alloc, out, f, mode, *op, a.get(), b.get())
        }
        Expr::Shift(op, a, b) => print_shift(alloc, out, f, mode, *op, a.get(), b.get()),
        Expr::Compare(op, a, b) => print_compare(alloc, out, f, mode, *op, a.get(), b.get()),
        Expr::SignedCompare(op, a, b) => {
            print_signed_compare(alloc, out, f, mode, *op, a.get(), b.get())
        }
        Expr::Extend(op, w, a) => print_extend(alloc, out, f, mode, *op, *w, a.get()),
        Expr::Part(k, w, a) => print_part(alloc, out, f, mode, *k, *w, a.get()),
        Expr::Concat(a, b) => print_concat(alloc, out, f, mode, a.get(), b.get()),
        Expr::Overflow(op, a, b) => {
            print_call(
                alloc,
                out,
                f,
                mode,
                1,
                overflow_word_of(*op),
                a.get(),
                b.get(),
            )
        }
        Expr::Count(op, a) => print_count(alloc, out, f, mode, *op, a.get()),
    }
}

#[cycle(printer)]
#[tactic(auto, using(crate::proofs::Shown::shown_compound))]
fn print_unary(
    alloc: Global,
    out: &mut Vec<u8>,
    f: &CFunction,
    mode: Mode,
    sign: &[u8],
    a: &Expr,
) -> Result<(), Memory>
    ensures { OnOk result (out.new.items ≡ out.old.items ++ shown mode (compound (form (scope_of f.now) a.now).width (sign.now ++ (form (scope_of f.now) a.now).operand))) }
{
    put_before(alloc, out, mode, width_of(f, a))?;
    put(out, sign)?;
    print_expr(alloc, out, f, Mode::Operand, a)?;
    put_behind(out, mode)
}

#[cycle(printer)]
fn print_between(
    alloc: Global,
    out: &mut Vec<u8>,
    f: &CFunction,
    inner: Mode,
    sign: &[u8],
    a: &Expr,
    b: &Expr,
) -> Result<(), Memory>
    ensures { OnOk result (out.new.items ≡ out.old.items ++ between (shown inner (form (scope_of f.now) a.now)) sign.now (shown inner (form (scope_of f.now) b.now))) }
{
    print_expr(alloc, out, f, inner, a)?;
    put(out, sign)?;
    print_expr(alloc, out, f, inner, b)
}

#[cycle(printer)]
#[tactic(auto, using(crate::proofs::Shown::shown_compound))]
fn print_binary(
    alloc: Global,
    out: &mut Vec<u8>,
    f: &CFunction,
    mode: Mode,
    sign: &[u8],
    a: &Expr,
    b: &Expr,
) -> Result<(), Memory>
    ensures { OnOk result (out.new.items ≡ out.old.items ++ shown mode (compound (form (scope_of f.now) a.now).width (between (form (scope_of f.now) a.now).operand sign.now (form (scope_of f.now) b.now).operand))) }
{
    put_before(alloc, out, mode, width_of(f, a))?;
    print_between(alloc, out, f, Mode::Operand, sign, a, b)?;
    put_behind(out, mode)
}

#[cycle(printer)]
#[tactic(auto, using(crate::proofs::Shown::shown_simple))]
fn print_signed_division(
    alloc: Global,
    out: &mut Vec<u8>,
    f: &CFunction,
    mode: Mode,
    op: SignedDivisionOp,
    a: &Expr,
    b: &Expr,
) -> Result<(), Memory>
    ensures { OnOk result (out.new.items ≡ out.old.items ++ shown mode (simple (form (scope_of f.now) a.now).width (unsigned_cast (form (scope_of f.now) a.now).width (enclosed (between (form (scope_of f.now) a.now).signed (signed_division_sign op) (form (scope_of f.now) b.now).signed))))) }
{
    let bytes = width_of(f, a);
    put_front(alloc, out, mode, bytes)?;
    put_cast(alloc, out, false, bytes)?;
    put(out, b"(")?;
    print_between(
        alloc,
        out,
        f,
        Mode::Signed,
        signed_division_sign_of(op),
        a,
        b,
    )?;
    put(out, b")")
}

#[cycle(printer)]
#[tactic(auto, using(crate::proofs::Shown::shown_comparison))]
fn print_compare(
    alloc: Global,
    out: &mut Vec<u8>,
    f: &CFunction,
    mode: Mode,
    op: CompareOp,
    a: &Expr,
    b: &Expr,
) -> Result<(), Memory>
    ensures { OnOk result (out.new.items ≡ out.old.items ++ shown mode (comparison (between (form (scope_of f.now) a.now).operand (compare_sign op) (form (scope_of f.now) b.now).operand))) }
{
    put_open_test(alloc, out, mode)?;
    print_between(alloc, out, f, Mode::Operand, compare_sign_of(op), a, b)?;
    put_shut_test(out, mode)
}

#[cycle(printer)]
#[tactic(auto, using(crate::proofs::Shown::shown_comparison))]
fn print_signed_compare(
    alloc: Global,
    out: &mut Vec<u8>,
    f: &CFunction,
    mode: Mode,
    op: SignedCompareOp,
    a: &Expr,
    b: &Expr,
) -> Result<(), Memory>
    ensures { OnOk result (out.new.items ≡ out.old.items ++ shown mode (comparison (between (form (scope_of f.now) a.now).signed (signed_compare_sign op) (form (scope_of f.now) b.now).signed))) }
{
    put_open_test(alloc, out, mode)?;
    print_between(
        alloc,
        out,
        f,
        Mode::Signed,
        signed_compare_sign_of(op),
        a,
        b,
    )?;
    put_shut_test(out, mode)
}

/// A call of two operands.
#[cycle(printer)]
pub fn print_pair(
    alloc: Global,
    out: &mut Vec<u8>,
    f: &CFunction,
    word: &[u8],
    a: &Expr,
    b: &Expr,
) -> Result<(), Memory>
    ensures { OnOk result (out.new.items ≡ out.old.items ++ call_of_two word.now (form (scope_of f.now) a.now) (form (scope_of f.now) b.now)) }
{
    put(out, word)?;
    put(out, b"(")?;
    print_between(alloc, out, f, Mode::Plain, b", ", a, b)?;
    put(out, b")")
}

#[cycle(printer)]
#[tactic(auto, using(crate::proofs::Shown::shown_simple))]
fn print_call(
    alloc: Global,
    out: &mut Vec<u8>,
    f: &CFunction,
    mode: Mode,
    bytes: u8,
    word: &[u8],
    a: &Expr,
    b: &Expr,
) -> Result<(), Memory>
    ensures { OnOk result (out.new.items ≡ out.old.items ++ shown mode (simple bytes (call_of_two word.now (form (scope_of f.now) a.now) (form (scope_of f.now) b.now)))) }
{
    put_front(alloc, out, mode, bytes)?;
    print_pair(alloc, out, f, word, a, b)
}

#[cycle(printer)]
fn print_concat(
    alloc: Global,
    out: &mut Vec<u8>,
    f: &CFunction,
    mode: Mode,
    a: &Expr,
    b: &Expr,
) -> Result<(), Memory>
    ensures { OnOk result (out.new.items ≡ out.old.items ++ shown mode (simple (min ((form (scope_of f.now) a.now).width + (form (scope_of f.now) b.now).width) 255) (call_of_two (codes "CONCAT") (form (scope_of f.now) a.now) (form (scope_of f.now) b.now)))) }
{
    let bytes = width_of(f, a).saturating_add(width_of(f, b));
    print_call(alloc, out, f, mode, bytes, b"CONCAT", a, b)
}

#[cycle(printer)]
fn print_shift(
    alloc: Global,
    out: &mut Vec<u8>,
    f: &CFunction,
    mode: Mode,
    op: ShiftOp,
    a: &Expr,
    b: &Expr,
) -> Result<(), Memory>
    ensures { OnOk result (out.new.items ≡ out.old.items ++ shown mode (shift_form op (form (scope_of f.now) a.now) (form (scope_of f.now) b.now))) }
{
    let bytes = width_of(f, a);
    if !is_constant_below(f, b, 8 * u32::from(bytes)) {
        return print_call(alloc, out, f, mode, bytes, shift_word_of(op), a, b);
    }
    match op {
        ShiftOp::Shl => print_binary(alloc, out, f, mode, b" << ", a, b),
        ShiftOp::Shr => print_binary(alloc, out, f, mode, b" >> ", a, b),
        ShiftOp::Sar => print_call(alloc, out, f, mode, bytes, b"SAR", a, b),
    }
}

#[cycle(printer)]
fn print_extended(
    alloc: Global,
    out: &mut Vec<u8>,
    f: &CFunction,
    op: ExtendOp,
    a: &Expr,
) -> Result<(), Memory>
    ensures { OnOk result (out.new.items ≡ out.old.items ++ extend_text op (form (scope_of f.now) a.now)) }
{
    match op {
        ExtendOp::Zext => print_expr(alloc, out, f, Mode::Operand, a),
        ExtendOp::Sext => print_expr(alloc, out, f, Mode::Signed, a),
    }
}

#[cycle(printer)]
#[tactic(auto, using(crate::proofs::Shown::shown_simple))]
fn print_extend(
    alloc: Global,
    out: &mut Vec<u8>,
    f: &CFunction,
    mode: Mode,
    op: ExtendOp,
    w: Width,
    a: &Expr,
) -> Result<(), Memory>
    ensures { OnOk result (out.new.items ≡ out.old.items ++ shown mode (simple w.bytes (unsigned_cast w.bytes (extend_text op (form (scope_of f.now) a.now))))) }
{
    put_front(alloc, out, mode, w.bytes)?;
    put_cast(alloc, out, false, w.bytes)?;
    print_extended(alloc, out, f, op, a)
}

#[cycle(printer)]
#[tactic(auto, using(crate::proofs::Shown::part_dropped))]
fn print_dropped(
    alloc: Global,
    out: &mut Vec<u8>,
    f: &CFunction,
    k: u8,
    w: Width,
    a: &Expr,
) -> Result<(), Memory>
    requires { 0 < k }
    ensures { OnOk result (out.new.items ≡ out.old.items ++ part_text k w.bytes (form (scope_of f.now) a.now)) }
{
    put(out, b"SUB")?;
    put_decimal(alloc, out, u64::from(w.bytes))?;
    put(out, b"(")?;
    print_expr(alloc, out, f, Mode::Plain, a)?;
    put(out, b", 0x")?;
    put_hex(out, u128::from(k))?;
    put(out, b")")
}

#[cycle(printer)]
#[tactic(auto, using(crate::proofs::Shown::shown_simple))]
fn print_part(
    alloc: Global,
    out: &mut Vec<u8>,
    f: &CFunction,
    mode: Mode,
    k: u8,
    w: Width,
    a: &Expr,
) -> Result<(), Memory>
    ensures { OnOk result (out.new.items ≡ out.old.items ++ shown mode (simple w.bytes (part_text k w.bytes (form (scope_of f.now) a.now)))) }
{
    put_front(alloc, out, mode, w.bytes)?;
    if k > 0 {
        return print_dropped(alloc, out, f, k, w, a);
    }
    put_cast(alloc, out, false, w.bytes)?;
    print_expr(alloc, out, f, Mode::Operand, a)
}

#[cycle(printer)]
#[tactic(auto, using(crate::proofs::Shown::shown_simple))]
fn print_count(
    alloc: Global,
    out: &mut Vec<u8>,
    f: &CFunction,
    mode: Mode,
    op: CountOp,
    a: &Expr,
) -> Result<(), Memory>
    ensures { OnOk result (out.new.items ≡ out.old.items ++ shown mode (simple 1 (count_word op ++ enclosed (form (scope_of f.now) a.now).plain))) }
{
    put_front(alloc, out, mode, 1)?;
    put(out, count_word_of(op))?;
    put(out, b"(")?;
    print_expr(alloc, out, f, Mode::Plain, a)?;
    put(out, b")")
}
