//! Reading expressions.

ghost use Rattle.std.specs.Prelude.{◌≡◌};
ghost use Rattle.std.specs.Option.{option_map};
ghost use Rattle.ctext.specs.Names.{scope_of};
ghost use Rattle.cread.specs.Words.{Gives, hex_at};
ghost use Rattle.cread.specs.Expressions.{unary_at, sign_at, test_at, constant_by, pair_at, count_at, binary_by, inner_by, cast_by, typed_by, closed_by, paren_by, pair_by, count_by, kept_of, part_by, named_at, atom_by, operand_at, expr_at, expr_to};

use crate::item::{CFault, Item, Pair, Sign};
use crate::made::{between, counted, pair, part, resize, signed, unary};
use crate::names::{type_of, variable, width_of, word_of};
use crate::words::{decimal, ends, hex, need, past, skip};
use bits_core::Width;
use cmeaning::{
    ArithmeticOp, CFunction, CompareOp, CountOp, DivisionOp, Expr, Local, OverflowOp, ShiftOp,
    UnaryOp,
};
use ctext::names::{variable_signed, variable_width};
use std::alloc::Global;

// ---- words and signs

#[tactic(auto, unfolding(crate::specs::Expressions::unary_at))]
fn unary_sign(bytes: &[u8]) -> Option<(UnaryOp, &[u8])>
    ensures { option_map (λ x. (x.0, x.1.now)) result ≡ unary_at bytes.now }
{
    if let Some(rest) = skip(b"-", bytes) {
        return Some((UnaryOp::Neg, rest));
    }
    if let Some(rest) = skip(b"~", bytes) {
        return Some((UnaryOp::Not, rest));
    }
    None
}

/// The sign between two operands.
#[tactic(auto, unfolding(crate::specs::Expressions::sign_at))]
fn sign(bytes: &[u8]) -> Option<(Sign, &[u8])>
    ensures { option_map (λ x. (x.0, x.1.now)) result ≡ sign_at bytes.now }
{
    if let Some(rest) = skip(b" + ", bytes) {
        return Some((Sign::Arithmetic(ArithmeticOp::Add), rest));
    }
    if let Some(rest) = skip(b" - ", bytes) {
        return Some((Sign::Arithmetic(ArithmeticOp::Sub), rest));
    }
    if let Some(rest) = skip(b" * ", bytes) {
        return Some((Sign::Arithmetic(ArithmeticOp::Mul), rest));
    }
    if let Some(rest) = skip(b" & ", bytes) {
        return Some((Sign::Arithmetic(ArithmeticOp::And), rest));
    }
    if let Some(rest) = skip(b" | ", bytes) {
        return Some((Sign::Arithmetic(ArithmeticOp::Or), rest));
    }
    if let Some(rest) = skip(b" ^ ", bytes) {
        return Some((Sign::Arithmetic(ArithmeticOp::Xor), rest));
    }
    if let Some(rest) = skip(b" / ", bytes) {
        return Some((Sign::Division(DivisionOp::Div), rest));
    }
    if let Some(rest) = skip(b" % ", bytes) {
        return Some((Sign::Division(DivisionOp::Rem), rest));
    }
    tested(bytes)
}

/// The sign of a shift or a comparison.
#[tactic(auto, unfolding(crate::specs::Expressions::test_at))]
fn tested(bytes: &[u8]) -> Option<(Sign, &[u8])>
    ensures { option_map (λ x. (x.0, x.1.now)) result ≡ test_at bytes.now }
{
    if let Some(rest) = skip(b" << ", bytes) {
        return Some((Sign::Shift(ShiftOp::Shl), rest));
    }
    if let Some(rest) = skip(b" >> ", bytes) {
        return Some((Sign::Shift(ShiftOp::Shr), rest));
    }
    if let Some(rest) = skip(b" == ", bytes) {
        return Some((Sign::Compare(CompareOp::Eq), rest));
    }
    if let Some(rest) = skip(b" != ", bytes) {
        return Some((Sign::Compare(CompareOp::Ne), rest));
    }
    if let Some(rest) = skip(b" < ", bytes) {
        return Some((Sign::Compare(CompareOp::Lt), rest));
    }
    if let Some(rest) = skip(b" <= ", bytes) {
        return Some((Sign::Compare(CompareOp::Le), rest));
    }
    None
}

#[tactic(auto, unfolding(crate::specs::Expressions::pair_at))]
fn pair_word(bytes: &[u8]) -> Option<(Pair, &[u8])>
    ensures { option_map (λ x. (x.0, x.1.now)) result ≡ pair_at bytes.now }
{
    if let Some(rest) = skip(b"SHL(", bytes) {
        return Some((Pair::Shift(ShiftOp::Shl), rest));
    }
    if let Some(rest) = skip(b"SHR(", bytes) {
        return Some((Pair::Shift(ShiftOp::Shr), rest));
    }
    if let Some(rest) = skip(b"SAR(", bytes) {
        return Some((Pair::Shift(ShiftOp::Sar), rest));
    }
    if let Some(rest) = skip(b"CONCAT(", bytes) {
        return Some((Pair::Concat, rest));
    }
    if let Some(rest) = skip(b"CARRY(", bytes) {
        return Some((Pair::Overflow(OverflowOp::Carry), rest));
    }
    if let Some(rest) = skip(b"SCARRY(", bytes) {
        return Some((Pair::Overflow(OverflowOp::SCarry), rest));
    }
    if let Some(rest) = skip(b"SBORROW(", bytes) {
        return Some((Pair::Overflow(OverflowOp::SBorrow), rest));
    }
    None
}

#[tactic(auto, unfolding(crate::specs::Expressions::count_at))]
fn count_word(bytes: &[u8]) -> Option<(CountOp, &[u8])>
    ensures { option_map (λ x. (x.0, x.1.now)) result ≡ count_at bytes.now }
{
    if let Some(rest) = skip(b"POPCOUNT(", bytes) {
        return Some((CountOp::Popcount, rest));
    }
    if let Some(rest) = skip(b"LZCOUNT(", bytes) {
        return Some((CountOp::Lzcount, rest));
    }
    None
}

// ---- what has no operands

/// A constant behind `0x`.
fn constant(w: Width, bytes: &[u8]) -> (Item, &[u8])
    ensures { (result.0, result.1.now) ≡ constant_by w (hex_at bytes.now) }
{
    let (n, rest) = hex(bytes);
    let rest = past(b"uwb", rest);
    let tree = Expr::Const(word_of(w, n));
    let item = Item {
        tree,
        width: w.bytes,
        signed: false,
    };
    (item, rest)
}

/// The variable whose name stands here.
#[tactic(auto, unfolding(crate::specs::Expressions::named_at))]
fn named<'b>(f: &CFunction, bytes: &'b [u8]) -> Result<(Item, &'b [u8]), CFault>
    ensures { Gives (λ x. (x.0, x.1.now)) result (named_at (scope_of f.now) bytes.now) }
{
    match variable(f, bytes) {
        Some((n, rest)) => {
            let item = Item {
                tree: Expr::Var(n),
                width: variable_width(f, n),
                signed: variable_signed(f, n),
            };
            Ok((item, rest))
        }
        None => Err(CFault::NotC),
    }
}

/// How many bytes of an operand are dropped, behind it.
fn kept<'b>(alloc: Global, w: Width, found: (Item, &'b [u8])) -> Result<(Item, &'b [u8]), CFault>
    ensures { Gives (λ x. (x.0, x.1.now)) result (kept_of w (found.entry.0, found.entry.1.now)) }
{
    let (a, rest) = ends(b", 0x", found)?;
    let (k, rest) = hex(rest);
    let (a, rest) = ends(b")", (a, rest))?;
    let kept = part(alloc, (k % 256) as u8, w, a)?;
    Ok((kept, rest))
}

// ---- operands

/// An operand, within so many levels.
#[cycle(reader)]
#[tactic(auto, unfolding(crate::specs::Expressions::operand_at, crate::specs::Expressions::operand_by))]
fn operand<'b>(
    alloc: Global,
    f: &CFunction,
    levels: u32,
    bytes: &'b [u8],
) -> Result<(Item, &'b [u8]), CFault>
    ensures { Gives (λ x. (x.0, x.1.now)) result (operand_at (scope_of f.now) levels bytes.now) }
{
    if levels == 0 {
        return Err(CFault::NotC);
    }
    match skip(b"(", bytes) {
        Some(rest) => paren(alloc, f, levels - 1, rest),
        None => atom(alloc, f, levels - 1, bytes),
    }
}

#[cycle(reader)]
#[tactic(auto, unfolding(crate::specs::Expressions::paren_by))]
fn paren<'b>(
    alloc: Global,
    f: &CFunction,
    levels: u32,
    bytes: &'b [u8],
) -> Result<(Item, &'b [u8]), CFault>
    ensures { Gives (λ x. (x.0, x.1.now)) result (paren_by (operand_at (scope_of f.now) levels) bytes.now) }
{
    match type_of(bytes) {
        Some((t, rest)) => {
            let rest = need(b")", rest)?;
            typed(alloc, f, levels, t, rest)
        }
        None => closed(alloc, f, levels, bytes),
    }
}

#[cycle(reader)]
fn typed<'b>(
    alloc: Global,
    f: &CFunction,
    levels: u32,
    t: Local,
    bytes: &'b [u8],
) -> Result<(Item, &'b [u8]), CFault>
    ensures { Gives (λ x. (x.0, x.1.now)) result (typed_by (operand_at (scope_of f.now) levels) t bytes.now) }
{
    if t.signed {
        let (a, rest) = operand(alloc, f, levels, bytes)?;
        return Ok((signed(a), rest));
    }
    cast(alloc, f, levels, t.width, bytes)
}

#[cycle(reader)]
#[tactic(auto, unfolding(crate::specs::Expressions::cast_by))]
fn cast<'b>(
    alloc: Global,
    f: &CFunction,
    levels: u32,
    w: Width,
    bytes: &'b [u8],
) -> Result<(Item, &'b [u8]), CFault>
    ensures { Gives (λ x. (x.0, x.1.now)) result (cast_by (operand_at (scope_of f.now) levels) w bytes.now) }
{
    if let Some(rest) = skip(b"0x", bytes) {
        return Ok(constant(w, rest));
    }
    let (a, rest) = operand(alloc, f, levels, bytes)?;
    let a = resize(alloc, w, a)?;
    Ok((a, rest))
}

/// Up to a parenthesis.
#[cycle(reader)]
fn closed<'b>(
    alloc: Global,
    f: &CFunction,
    levels: u32,
    bytes: &'b [u8],
) -> Result<(Item, &'b [u8]), CFault>
    ensures { Gives (λ x. (x.0, x.1.now)) result (closed_by (operand_at (scope_of f.now) levels) bytes.now) }
{
    let found = inner(alloc, f, levels, bytes)?;
    ends(b")", found)
}

/// What stands alone, in parentheses or as a condition.
#[cycle(reader)]
#[tactic(auto, unfolding(crate::specs::Expressions::inner_by))]
fn inner<'b>(
    alloc: Global,
    f: &CFunction,
    levels: u32,
    bytes: &'b [u8],
) -> Result<(Item, &'b [u8]), CFault>
    ensures { Gives (λ x. (x.0, x.1.now)) result (inner_by (operand_at (scope_of f.now) levels) bytes.now) }
{
    match unary_sign(bytes) {
        Some((op, rest)) => {
            let (a, rest) = operand(alloc, f, levels, rest)?;
            let a = unary(alloc, op, a)?;
            Ok((a, rest))
        }
        None => binary(alloc, f, levels, bytes),
    }
}

#[cycle(reader)]
fn binary<'b>(
    alloc: Global,
    f: &CFunction,
    levels: u32,
    bytes: &'b [u8],
) -> Result<(Item, &'b [u8]), CFault>
    ensures { Gives (λ x. (x.0, x.1.now)) result (binary_by (operand_at (scope_of f.now) levels) bytes.now) }
{
    let (a, rest) = operand(alloc, f, levels, bytes)?;
    match sign(rest) {
        Some((s, rest)) => {
            let (b, rest) = operand(alloc, f, levels, rest)?;
            let both = between(alloc, s, a, b)?;
            Ok((both, rest))
        }
        None => Ok((a, rest)),
    }
}

#[cycle(reader)]
#[tactic(auto, unfolding(crate::specs::Expressions::pair_by))]
fn pair_of<'b>(
    alloc: Global,
    f: &CFunction,
    levels: u32,
    word: Pair,
    bytes: &'b [u8],
) -> Result<(Item, &'b [u8]), CFault>
    ensures { Gives (λ x. (x.0, x.1.now)) result (pair_by (operand_at (scope_of f.now) levels) (word, bytes.now)) }
{
    let found = inner(alloc, f, levels, bytes)?;
    let (a, rest) = ends(b", ", found)?;
    let (b, rest) = closed(alloc, f, levels, rest)?;
    let both = pair(alloc, word, a, b)?;
    Ok((both, rest))
}

#[cycle(reader)]
#[tactic(auto, unfolding(crate::specs::Expressions::part_by))]
fn part_of<'b>(
    alloc: Global,
    f: &CFunction,
    levels: u32,
    bytes: &'b [u8],
) -> Result<(Item, &'b [u8]), CFault>
    ensures { Gives (λ x. (x.0, x.1.now)) result (part_by (operand_at (scope_of f.now) levels) bytes.now) }
{
    let (w, rest) = decimal(bytes);
    let rest = need(b"(", rest)?;
    let found = inner(alloc, f, levels, rest)?;
    kept(alloc, width_of(w), found)
}

/// Without parentheses.
#[cycle(reader)]
#[tactic(auto, unfolding(crate::specs::Expressions::atom_by, crate::specs::Expressions::count_by))]
fn atom<'b>(
    alloc: Global,
    f: &CFunction,
    levels: u32,
    bytes: &'b [u8],
) -> Result<(Item, &'b [u8]), CFault>
    ensures { Gives (λ x. (x.0, x.1.now)) result (atom_by (scope_of f.now) (operand_at (scope_of f.now) levels) bytes.now) }
{
    if let Some((word, rest)) = pair_word(bytes) {
        return pair_of(alloc, f, levels, word, rest);
    }
    if let Some((op, rest)) = count_word(bytes) {
        let (a, rest) = closed(alloc, f, levels, rest)?;
        let a = counted(alloc, op, a)?;
        return Ok((a, rest));
    }
    if let Some(rest) = skip(b"SUB", bytes) {
        return part_of(alloc, f, levels, rest);
    }
    named(f, bytes)
}

/// An expression. A level of a tree takes at most three levels of the reader, and a signed form one more.
#[tactic(auto, unfolding(crate::specs::Expressions::expr_at))]
pub fn expr<'b>(alloc: Global, f: &CFunction, bytes: &'b [u8]) -> Result<(Expr, &'b [u8]), CFault>
    ensures { Gives (λ x. (x.0, x.1.now)) result (expr_at (scope_of f.now) bytes.now) }
{
    let (a, rest) = inner(alloc, f, 200, bytes)?;
    Ok((a.tree, rest))
}

/// An expression up to a word.
pub fn expr_up_to<'b>(
    alloc: Global,
    f: &CFunction,
    word: &[u8],
    bytes: &'b [u8],
) -> Result<(Expr, &'b [u8]), CFault>
    ensures { Gives (λ x. (x.0, x.1.now)) result (expr_to (scope_of f.now) word.now bytes.now) }
{
    let found = expr(alloc, f, bytes)?;
    ends(word, found)
}
