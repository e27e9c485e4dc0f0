//! The rules of an expression in a valid tree.

ghost use Rattle.std.specs.Prelude.{◌≡◌, ◌+◌, ◌==◌, ◌-◌, true, false, nat_lt, ◌&&◌};
ghost use Rattle.bits_core.specs.Value.{limit};
ghost use Rattle.cmeaning.specs.Do.{widths_in};
ghost use Rattle.cmeaning.specs.Shape.{leaf, above, one_shape, two_shape, variable_shape, same_width as agree, may_divide, may_divide_signed, may_join, is_part, left_width, shape_of, is_right, has_width as is_wide, is_condition};

use crate::tree::{CFunction, Expr};
use bits_core::{Width, Word};

/// What is known of an expression that obeys the rules.
#[derive(Clone, Copy, Debug, PartialEq, Eq)]
pub struct Shape {
    /// In bytes, 1 to 16.
    pub width: u8,
    /// 1 for a constant or a variable, and for another node 1 more than the greatest depth of its operands; at most 64.
    pub depth: u8,
    /// The word of a constant.
    pub constant: Option<Word>,
    /// Whether it is a comparison, which stands as a condition as it is.
    pub comparison: bool,
}

/// The greatest word.
#[tactic(auto, using(bits_core::proofs::Machine::mask_is))]
fn all_ones(width: Width) -> u128
    ensures { result ≡ limit width.bytes - 1 }
{
    u128::MAX >> (128 - 8 * u32::from(width.bytes))
}

/// The width of a variable in bytes, or 0 where there is none of this number.
pub(crate) fn variable_width(f: &CFunction, v: u32) -> u8
    ensures { result ≡ widths_in f.now v }
{
    let v = v as usize;
    match f.params.get(v) {
        Some(p) => p.width.bytes,
        None => {
            if v < f.params.len() {
                return 0;
            }
            match f.locals.get(v - f.params.len()) {
                Some(x) => x.width.bytes,
                None => 0,
            }
        }
    }
}

fn made_above(right: bool, width: u8, depth: u8, comparison: bool) -> Option<Shape>
    ensures { result ≡ above right width depth comparison }
{
    if right && depth < 64 {
        Some(Shape {
            width,
            depth: depth + 1,
            constant: None,
            comparison,
        })
    } else {
        None
    }
}

fn of_constant(c: Word) -> Option<Shape>
    ensures { result ≡ leaf c.width.bytes (Some c) }
{
    Some(Shape {
        width: c.width.bytes,
        depth: 1,
        constant: Some(c),
        comparison: false,
    })
}

fn of_variable(f: &CFunction, v: u32) -> Option<Shape>
    ensures { result ≡ variable_shape v (widths_in f.now v) }
{
    let width = variable_width(f, v);
    if width == 0 {
        return None;
    }
    Some(Shape {
        width,
        depth: 1,
        constant: None,
        comparison: false,
    })
}

/// Of one operand, as wide as it.
fn as_wide(a: Option<Shape>) -> Option<Shape>
    ensures { result ≡ one_shape (λ v. true) (λ v. v) a }
{
    let a = a?;
    made_above(true, a.width, a.depth, false)
}

fn one_byte(a: Option<Shape>) -> Option<Shape>
    ensures { result ≡ one_shape (λ v. true) (λ v. 1) a }
{
    let a = a?;
    made_above(true, 1, a.depth, false)
}

fn extended(w: Width, a: Option<Shape>) -> Option<Shape>
    ensures { result ≡ one_shape (λ v. nat_lt v w.bytes) (λ v. w.bytes) a }
{
    let a = a?;
    made_above(a.width < w.bytes, w.bytes, a.depth, false)
}

fn part(dropped: u8, w: Width, a: Option<Shape>) -> Option<Shape>
    ensures { result ≡ one_shape (is_part dropped w.bytes) (λ v. w.bytes) a }
{
    let a = a?;
    let within = u32::from(dropped) + u32::from(w.bytes) <= u32::from(a.width);
    made_above(within && w.bytes < a.width, w.bytes, a.depth, false)
}

/// Of two operands of one width, as wide as they.
fn arithmetic(a: Option<Shape>, b: Option<Shape>) -> Option<Shape>
    ensures { result ≡ two_shape agree left_width false a b }
{
    let a = a?;
    let b = b?;
    made_above(a.width == b.width, a.width, a.depth.max(b.depth), false)
}

fn divided(a: Option<Shape>, b: Option<Shape>) -> Option<Shape>
    ensures { result ≡ two_shape may_divide left_width false a b }
{
    let a = a?;
    let b = b?;
    let right = match b.constant {
        None => false,
        Some(c) => c.value != 0,
    };
    made_above(
        a.width == b.width && right,
        a.width,
        a.depth.max(b.depth),
        false,
    )
}

fn divided_signed(a: Option<Shape>, b: Option<Shape>) -> Option<Shape>
    ensures { result ≡ two_shape may_divide_signed left_width false a b }
{
    let a = a?;
    let b = b?;
    let right = match b.constant {
        None => false,
        Some(c) => c.value != 0 && c.value != all_ones(c.width),
    };
    made_above(
        a.width == b.width && right,
        a.width,
        a.depth.max(b.depth),
        false,
    )
}

fn shifted(a: Option<Shape>, b: Option<Shape>) -> Option<Shape>
    ensures { result ≡ two_shape (λ x y. true) left_width false a b }
{
    let a = a?;
    let b = b?;
    made_above(true, a.width, a.depth.max(b.depth), false)
}

/// Of two operands of one width, one byte wide.
fn tested(comparison: bool, a: Option<Shape>, b: Option<Shape>) -> Option<Shape>
    ensures { result ≡ two_shape agree (λ v w. 1) comparison a b }
{
    let a = a?;
    let b = b?;
    made_above(a.width == b.width, 1, a.depth.max(b.depth), comparison)
}

fn joined(a: Option<Shape>, b: Option<Shape>) -> Option<Shape>
    ensures { result ≡ two_shape may_join (λ v w. v + w) false a b }
{
    let a = a?;
    let b = b?;
    let width = u32::from(a.width) + u32::from(b.width);
    if width > 16 {
        return None;
    }
    made_above(true, a.width + b.width, a.depth.max(b.depth), false)
}

/// The shape of an expression that obeys the rules, else None.
#[tactic(auto, unfolding(crate::specs::Shape::shape_of))]
pub fn expr_shape(f: &CFunction, e: &Expr) -> Option<Shape>
    ensures { result ≡ shape_of (widths_in f.now) e.now }
{
    match e {
        Expr::Const(c) => of_constant(*c),
        Expr::Var(v) => of_variable(f, *v),
        Expr::Unary(_, a) => as_wide(expr_shape(f, a.get())),
        Expr::Arithmetic(_, a, b) => arithmetic(expr_shape(f, a.get()), expr_shape(f, b.get())),
        Expr::Division(_, a, b) => divided(expr_shape(f, a.get()), expr_shape(f, b.get())),
        Expr::SignedDivision(_, a, b) => {
            divided_signed(expr_shape(f, a.get()), expr_shape(f, b.get()))
        }
        Expr::Shift(_, a, b) => shifted(expr_shape(f, a.get()), expr_shape(f, b.get())),
        Expr::Compare(_, a, b) => tested(true, expr_shape(f, a.get()), expr_shape(f, b.get())),
        Expr::SignedCompare(_, a, b) => {
            tested(true, expr_shape(f, a.get()), expr_shape(f, b.get()))
        }
        Expr::Extend(_, w, a) => extended(*w, expr_shape(f, a.get())),
        Expr::Part(dropped, w, a) => part(*dropped, *w, expr_shape(f, a.get())),
        Expr::Concat(a, b) => joined(expr_shape(f, a.get()), expr_shape(f, b.get())),
        Expr::Overflow(_, a, b) => tested(false, expr_shape(f, a.get()), expr_shape(f, b.get())),
        Expr::Count(_, a) => one_byte(expr_shape(f, a.get())),
    }
}

/// Whether an expression obeys the rules.
pub(crate) fn obeys(f: &CFunction, e: &Expr) -> bool
    ensures { result ≡ is_right (shape_of (widths_in f.now) e.now) }
{
    match expr_shape(f, e) {
        None => false,
        Some(_) => true,
    }
}

/// Whether an expression obeys the rules and has a width.
pub(crate) fn has_width(f: &CFunction, width: u8, e: &Expr) -> bool
    ensures { result ≡ is_wide width (shape_of (widths_in f.now) e.now) }
{
    match expr_shape(f, e) {
        None => false,
        Some(s) => s.width == width,
    }
}

/// Whether an expression obeys the rules and may stand as a condition.
pub(crate) fn may_test(f: &CFunction, e: &Expr) -> bool
    ensures { result ≡ is_condition (shape_of (widths_in f.now) e.now) }
{
    match expr_shape(f, e) {
        None => false,
        Some(s) => s.comparison || s.depth < 64,
    }
}
