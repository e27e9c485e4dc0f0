//! The ops of an instruction by what is drawn for it.

ghost use Rattle.std.specs.Prelude.{◌≡◌, ◌<◌, ◌∷◌, [], IfOk, Some, None};
ghost use Rattle.generator.specs.Generated.{constant, flag, low_byte, op, ops_of, range, register, returning, target, tests};

use crate::draws::{Drawn, Shape};
use bits_core::{Binary, Unary};
use pcode_model::{Inputs, Op, Opcode, Ops, Varnode};
use std::alloc::{AllocError, Global};

const RAM: u8 = 1;

const REGISTER: u8 = 2;

const UNIQUE: u8 = 3;

/// The register of that number.
pub(crate) fn register(number: u32) -> Varnode
    ensures { result ≡ register number }
{
    Varnode {
        space: REGISTER,
        offset: 4 * u64::from(number),
        size: 4,
    }
}

fn low_byte(number: u32) -> Varnode
    ensures { result ≡ low_byte number }
{
    Varnode {
        space: REGISTER,
        offset: 4 * u64::from(number),
        size: 1,
    }
}

fn constant(value: u32) -> Varnode
    ensures { result ≡ constant value }
{
    Varnode {
        space: 0,
        offset: u64::from(value),
        size: 4,
    }
}

// The place that a drawn word names.
fn target(word: u32) -> Varnode
    ensures { result ≡ target word }
{
    Varnode {
        space: RAM,
        offset: 0x1000 + 4 * u64::from(word % 2001),
        size: 4,
    }
}

fn inputs(alloc: Global, varnodes: &[Varnode]) -> Result<Inputs, AllocError>
    ensures { IfOk result (λ inputs. inputs ≡ varnodes.now) }
{
    let mut inputs = Inputs::new(alloc);
    for varnode in varnodes {
        inputs.push(*varnode)?;
    }
    Ok(inputs)
}

fn op(
    alloc: Global,
    code: Opcode,
    out: Option<Varnode>,
    varnodes: &[Varnode],
) -> Result<Op, AllocError>
    ensures { IfOk result (λ made. made ≡ op code out varnodes.now) }
{
    let inputs = inputs(alloc, varnodes)?;
    Ok(Op { code, out, inputs })
}

fn one_op(
    alloc: Global,
    code: Opcode,
    out: Option<Varnode>,
    varnodes: &[Varnode],
) -> Result<Ops, AllocError>
    ensures { IfOk result (λ ops. ops ≡ op code out varnodes.now ∷ []) }
{
    let mut ops = Ops::new(alloc);
    ops.push(op(alloc, code, out, varnodes)?)?;
    Ok(ops)
}

// Branches where the first register is less than the second one.
fn tests(alloc: Global, first: Varnode, second: Varnode, target: Varnode) -> Result<Ops, AllocError>
    ensures { IfOk result (λ ops. ops ≡ op (Opcode.Binary Binary.Less) (Some flag) (first ∷ second ∷ []) ∷ op Opcode.CBranch None (target ∷ flag ∷ []) ∷ []) }
{
    let flag = Varnode {
        space: UNIQUE,
        offset: 0,
        size: 1,
    };
    let mut ops = Ops::new(alloc);
    ops.push(op(
        alloc,
        Opcode::Binary(Binary::Less),
        Some(flag),
        &[first, second],
    )?)?;
    ops.push(op(alloc, Opcode::CBranch, None, &[target, flag])?)?;
    Ok(ops)
}

/// The ops of an instruction for which this is drawn.
pub(crate) fn drawn_ops(alloc: Global, drawn: &Drawn) -> Result<Ops, AllocError>
    ensures { IfOk result (λ ops. ops ≡ ops_of drawn.now) }
{
    let first = register(drawn.first);
    let second = register(drawn.second);
    match drawn.shape {
        Shape::Constant => one_op(
            alloc,
            Opcode::Unary(Unary::Copy),
            Some(first),
            &[constant(drawn.word)],
        ),
        Shape::Sum => combined(alloc, Binary::Add, first, second),
        Shape::Xor => combined(alloc, Binary::Xor, first, second),
        Shape::Product => combined(alloc, Binary::Multiply, first, second),
        Shape::Branch => tests(alloc, first, second, target(drawn.word)),
        Shape::Store => one_op(alloc, Opcode::Store, None, &[constant(1), first, second]),
        Shape::Load => one_op(alloc, Opcode::Load, Some(first), &[constant(1), second]),
        Shape::Byte => one_op(
            alloc,
            Opcode::Binary(Binary::Subpiece),
            Some(low_byte(drawn.first)),
            &[second, constant(1)],
        ),
    }
}

// An operation of both registers, to the first one.
fn combined(alloc: Global, code: Binary, first: Varnode, second: Varnode) -> Result<Ops, AllocError>
    ensures { IfOk result (λ ops. ops ≡ op (Opcode.Binary code) (Some first) (first ∷ second ∷ []) ∷ []) }
{
    one_op(alloc, Opcode::Binary(code), Some(first), &[first, second])
}

/// The ops of the last instruction.
pub(crate) fn returning(alloc: Global) -> Result<Ops, AllocError>
    ensures { IfOk result (λ ops. ops ≡ returning) }
{
    one_op(alloc, Opcode::Return, None, &[register(8)])
}
