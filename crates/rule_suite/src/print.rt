// Expressions in words, each with a blank before it.
use crate::leaves;
use bits_core::Word;
use cmeaning::Expr;
use rule_views::{Arg, Made, Pair, Single, Tree};
use std::alloc::{AllocError, Global};

/// The words of an expression.
pub fn expression(alloc: Global, e: &Expr) -> Result<String, AllocError> {
    let mut out = String::new(alloc);
    put(&mut out, e)?;
    Ok(out)
}

/// The words of what a rule makes.
pub fn made(alloc: Global, made: Made<Tree>) -> Result<String, AllocError> {
    let mut out = String::new(alloc);
    match made {
        Made::Is(a) => put_arg(&mut out, a)?,
        Made::Single(node, a) => {
            put_arg(&mut out, a)?;
            put_single(&mut out, node)?;
        }
        Made::Pair(node, a, b) => {
            put_arg(&mut out, a)?;
            put_arg(&mut out, b)?;
            put_pair(&mut out, node)?;
        }
    }
    Ok(out)
}

fn put_arg(out: &mut String, a: Arg<Tree>) -> Result<(), AllocError> {
    match a {
        Arg::Place(place) => put(out, place.at),
        Arg::Const(c) => put_constant(out, c),
    }
}

fn put(out: &mut String, e: &Expr) -> Result<(), AllocError> {
    match e {
        Expr::Const(_) | Expr::Var(_) => {}
        Expr::Unary(_, a) | Expr::Extend(_, _, a) | Expr::Part(_, _, a) | Expr::Count(_, a) => {
            put(out, a.get())?;
        }
        Expr::Arithmetic(_, a, b)
        | Expr::Division(_, a, b)
        | Expr::SignedDivision(_, a, b)
        | Expr::Shift(_, a, b)
        | Expr::Compare(_, a, b)
        | Expr::SignedCompare(_, a, b)
        | Expr::Concat(a, b)
        | Expr::Overflow(_, a, b) => {
            put(out, a.get())?;
            put(out, b.get())?;
        }
    }
    put_root(out, e)
}

fn put_root(out: &mut String, e: &Expr) -> Result<(), AllocError> {
    match e {
        Expr::Const(c) => put_constant(out, *c),
        Expr::Var(v) => put_variable(out, *v),
        Expr::Unary(op, _) => put_single(out, Single::Unary(*op)),
        Expr::Extend(op, w, _) => put_single(out, Single::Extend(*op, *w)),
        Expr::Part(dropped, w, _) => put_single(out, Single::Part(*dropped, *w)),
        Expr::Count(op, _) => put_single(out, Single::Count(*op)),
        Expr::Arithmetic(op, _, _) => put_pair(out, Pair::Arithmetic(*op)),
        Expr::Division(op, _, _) => put_pair(out, Pair::Division(*op)),
        Expr::SignedDivision(op, _, _) => put_pair(out, Pair::SignedDivision(*op)),
        Expr::Shift(op, _, _) => put_pair(out, Pair::Shift(*op)),
        Expr::Compare(op, _, _) => put_pair(out, Pair::Compare(*op)),
        Expr::SignedCompare(op, _, _) => put_pair(out, Pair::SignedCompare(*op)),
        Expr::Concat(_, _) => put_pair(out, Pair::Concat),
        Expr::Overflow(op, _, _) => put_pair(out, Pair::Overflow(*op)),
    }
}

fn put_constant(out: &mut String, c: Word) -> Result<(), AllocError> {
    let value = c.value;
    let bytes = c.width.bytes;
    write!(out, " {value}:{bytes}")
}

fn put_variable(out: &mut String, v: u32) -> Result<(), AllocError> {
    let (letter, bytes) = leaves::letter(v);
    write!(out, " {letter}:{bytes}")
}

fn put_single(out: &mut String, node: Single) -> Result<(), AllocError> {
    match node {
        Single::Unary(op) => write!(out, " {op:?}"),
        Single::Extend(op, width) => {
            let bytes = width.bytes;
            write!(out, " {op:?}:{bytes}")
        }
        Single::Part(dropped, width) => {
            let bytes = width.bytes;
            write!(out, " Part:{dropped}:{bytes}")
        }
        Single::Count(op) => write!(out, " {op:?}"),
    }
}

fn put_pair(out: &mut String, node: Pair) -> Result<(), AllocError> {
    match node {
        Pair::Arithmetic(op) => write!(out, " {op:?}"),
        Pair::Division(op) => write!(out, " {op:?}"),
        Pair::SignedDivision(op) => write!(out, " {op:?}"),
        Pair::Shift(op) => write!(out, " {op:?}"),
        Pair::Compare(op) => write!(out, " {op:?}"),
        Pair::SignedCompare(op) => write!(out, " {op:?}"),
        Pair::Concat => write!(out, " Concat"),
        Pair::Overflow(op) => write!(out, " {op:?}"),
    }
}
