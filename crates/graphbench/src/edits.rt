//! The edits of the graph.
ghost use Rattle.std.specs.Prelude.{◌≡◌};

use bits_core::{Memory, Width};
use opgraph::{BlockId, Code, OpGraph, OpId, ValueId};
use std::alloc::Global;
use std::vec::Vec;

const WIDTH: Width = Width { bytes: 4 };

fn value(op: OpId) -> ValueId
    ensures { result.0 ≡ op.0 }
{
    ValueId(op.0)
}

/// An addition of the value before and itself, last in the block.
fn add(graph: &mut OpGraph, block: BlockId, before: OpId) -> Result<OpId, Memory> {
    if !graph.contains_block(block) || !graph.contains_value(value(before)) {
        return Ok(before);
    }
    graph.add_op(
        block,
        Code::Add,
        &[value(before), value(before)],
        Some(WIDTH),
    )
}

/// The op reads the constant alone.
fn retarget(graph: &mut OpGraph, op: OpId, constant: OpId) {
    if graph.contains_op(op)
        && graph.input_count(op) == 2
        && graph.contains_value(value(constant))
    {
        graph.retarget(op, Code::Negate, &[value(constant)]);
    }
}

/// The op goes, where nothing reads it.
fn remove(graph: &mut OpGraph, op: OpId, constant: OpId) {
    if op.0 != constant.0
        && graph.contains_value(value(op))
        && graph.contains_value(value(constant))
    {
        graph.replace_uses(value(op), value(constant));
        if graph.contains_op(op) {
            graph.remove(op);
        }
    }
}

/// Adds so many ops, retargets each and removes each. Answers how many edits those are.
pub fn of_graph(alloc: Global, count: u32) -> Result<u64, Memory> {
    let mut graph = OpGraph::new(alloc);
    let mut ops = Vec::new(alloc);
    let block = graph.add_block()?;
    let constant = if graph.contains_block(block) {
        graph.add_op(block, Code::Const(1), &[], Some(WIDTH))?
    } else {
        return Ok(0);
    };
    let mut last = constant;
    for _ in 0..count {
        last = add(&mut graph, block, last)?;
        ops.push(last)?;
    }
    for op in ops.iter() {
        retarget(&mut graph, *op, constant);
    }
    for op in ops.iter() {
        remove(&mut graph, *op, constant);
    }
    Ok(3 * u64::from(count))
}

/// How many inputs the MULTIEQUAL has.
const INPUTS: u32 = 2_000;

fn multi_of(graph: &mut OpGraph, block: BlockId, constant: OpId) -> Result<OpId, Memory> {
    if !graph.contains_block(block) {
        return Ok(constant);
    }
    let multi = graph.add_multi(block, 0, WIDTH)?;
    for _ in 0..INPUTS {
        if graph.contains_op(multi) && graph.contains_value(value(constant)) {
            graph.push_input(multi, value(constant))?;
        }
    }
    Ok(multi)
}

/// How many inputs of the op read the constant.
fn readers(graph: &OpGraph, op: OpId, constant: OpId) -> u64 {
    let mut count = 0_u64;
    if graph.contains_op(op) {
        for v in graph.inputs(op) {
            if v.0 == constant.0 {
                count = count.saturating_add(1);
            }
        }
    }
    count
}

/// Makes a MULTIEQUAL of many inputs and reads them all so many times. Answers how many inputs were read.
pub fn of_multi(alloc: Global, count: u32) -> Result<u64, Memory> {
    let mut graph = OpGraph::new(alloc);
    let block = graph.add_block()?;
    let constant = if graph.contains_block(block) {
        graph.add_op(block, Code::Const(1), &[], Some(WIDTH))?
    } else {
        return Ok(0);
    };
    let multi = multi_of(&mut graph, block, constant)?;
    let mut read = 0_u64;
    for _ in 0..count {
        read = read.saturating_add(readers(&graph, multi, constant));
    }
    Ok(read)
}
