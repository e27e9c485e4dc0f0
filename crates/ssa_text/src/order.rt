//! The order of the lines of a block.
ghost use Rattle.std.specs.Prelude.{◌≡◌, ◌++◌, IfOk, OnOk, [], if◌then◌else◌, not, ◌==◌};
ghost use Rattle.opgraph.specs.Graph.{IsBlock, IsOp, block_at, inputs_in, op_at};
ghost use Rattle.ssa_model.specs.Outline.{ids, only, role_at, width_at};
ghost use Rattle.ssa_model.specs.Roles.{role_of};
ghost use Rattle.ssa_model.specs.Starting.{all_ops, starting};
ghost use Rattle.ssa_text.specs.Text.{all_lines, has_line, lines_from, printed_from};

use crate::heads::{code_at, multis_of, starts_of};
use bits_core::Memory;
use opgraph::{BlockId, Code, OpGraph, OpId};
use ssa_model::{Parts, SsaBlock};
use std::alloc::Global;

/// The numbers of the ops of a block, in order.
fn ops_of(alloc: Global, graph: &OpGraph, block: BlockId) -> Result<Vec<u32>, Memory>
    requires { IsBlock graph.now block.0 }
    ensures { IfOk result (λ ops. ops.items ≡ block_at graph.now block.0) }
{
    let mut ops = Vec::new(alloc);
    for op in graph.block_ops(block) {
        ops.push(op.0)?;
    }
    Ok(ops)
}

/// The numbers of the values that an op reads, in order.
pub(crate) fn inputs_of(alloc: Global, graph: &OpGraph, op: OpId) -> Result<Vec<u32>, Memory>
    requires { IsOp graph.now op.0 }
    ensures { IfOk result (λ inputs. inputs.items ≡ inputs_in (op_at graph.now op.0)) }
{
    let mut inputs = Vec::new(alloc);
    for value in graph.inputs(op) {
        inputs.push(value.0)?;
    }
    Ok(inputs)
}

/// The ops of a block, none where the graph doesn't have it.
fn ops_in(alloc: Global, graph: &OpGraph, block: BlockId) -> Result<Vec<u32>, Memory>
    ensures { IfOk result (λ ops. ops.items ≡ block_at graph.now block.0) }
{
    if graph.contains_block(block) {
        ops_of(alloc, graph, block)
    } else {
        Ok(Vec::new(alloc))
    }
}

/// Whether an op that does this has a line of its own behind the MULTIEQUALs.
fn has_line(code: Code) -> bool
    ensures { result ≡ has_line (Some (role_of code)) }
{
    !matches!(
        code,
        Code::Const(_)
            | Code::Entry(_)
            | Code::Multi(_)
            | Code::CBranch
            | Code::BranchInd
            | Code::Return
    )
}

fn has_line_at(graph: &OpGraph, op: u32) -> bool
    ensures { result ≡ has_line (role_at (op_at graph.now) op) }
{
    match code_at(graph, op) {
        Some(code) => has_line(code),
        None => false,
    }
}

/// How many bytes the value of an op has, 0 where it has none.
pub(crate) fn width_at(graph: &OpGraph, op: u32) -> u8
    ensures { result ≡ width_at (op_at graph.now) op }
{
    let op = OpId(op);
    if !graph.contains_op(op) {
        return 0;
    }
    match graph.width(op) {
        Some(width) => width.bytes,
        None => 0,
    }
}

fn put_others(lines: &mut Vec<u32>, graph: &OpGraph, ops: &[u32]) -> Result<(), Memory>
    ensures { OnOk result (lines.new.items ≡ lines.old.items ++ only (λ x. has_line (role_at (op_at graph.now) x)) ops.now) }
{
    for op in ops {
        if has_line_at(graph, *op) {
            lines.push(*op)?;
        }
    }
    Ok(())
}

fn put_starts(lines: &mut Vec<u32>, starts: &[u32], first: bool) -> Result<(), Memory>
    ensures { OnOk result (lines.new.items ≡ lines.old.items ++ (if first then starts.now else [])) }
{
    if first {
        lines.extend_from_slice(starts)?;
    }
    Ok(())
}

/// The ops of a block that have lines, in the order of these; where the run begins these entry values stand first.
pub(crate) fn lines_of(
    alloc: Global,
    parts: &Parts,
    starts: &[u32],
    block: BlockId,
) -> Result<Vec<u32>, Memory>
    ensures { IfOk result (λ lines. lines.items ≡ lines_from parts.now starts.now block.0) }
{
    let ops = ops_in(alloc, &parts.graph, block)?;
    let multis = multis_of(alloc, &parts.graph, &ops)?;
    let mut lines = Vec::new(alloc);
    put_starts(&mut lines, starts, block.0 == parts.entry.0)?;
    lines.extend_from_slice(&multis)?;
    put_others(&mut lines, &parts.graph, &ops)?;
    Ok(lines)
}

fn put_ops(
    alloc: Global,
    all: &mut Vec<u32>,
    graph: &OpGraph,
    block: &SsaBlock,
) -> Result<(), Memory>
    ensures { OnOk result (all.new.items ≡ all.old.items ++ block_at graph.now block.now.id.0) }
{
    let ops = ops_in(alloc, graph, block.id)?;
    all.extend_from_slice(&ops)?;
    Ok(())
}

/// The ops of all blocks, in the order of the blocks.
fn all_ops(alloc: Global, graph: &OpGraph, blocks: &[SsaBlock]) -> Result<Vec<u32>, Memory>
    ensures { IfOk result (λ ops. ops.items ≡ all_ops graph.now (ids blocks.now)) }
{
    let mut all = Vec::new(alloc);
    for block in blocks {
        put_ops(alloc, &mut all, graph, block)?;
    }
    Ok(all)
}

/// The entry values of the function, by their storages.
pub(crate) fn starting(alloc: Global, parts: &Parts) -> Result<Vec<u32>, Memory>
    ensures { IfOk result (λ starts. starts.items ≡ starting parts.now) }
{
    let ops = all_ops(alloc, &parts.graph, parts.blocks.as_slice())?;
    starts_of(alloc, &parts.graph, &ops)
}

fn put_values(values: &mut Vec<u32>, graph: &OpGraph, lines: &[u32]) -> Result<(), Memory>
    ensures { OnOk result (values.new.items
        ≡ values.old.items ++ only (λ x. not (width_at (op_at graph.now) x == 0)) lines.now) }
{
    for line in lines {
        if width_at(graph, *line) != 0 {
            values.push(*line)?;
        }
    }
    Ok(())
}

/// The values that have a line, in the order of the lines.
pub(crate) fn printed(alloc: Global, parts: &Parts, starts: &[u32]) -> Result<Vec<u32>, Memory>
    ensures { IfOk result (λ values. values.items ≡ printed_from parts.now starts.now) }
{
    let mut values = Vec::new(alloc);
    for block in parts.blocks.as_slice() {
        let lines = lines_of(alloc, parts, starts, block.id)?;
        put_values(&mut values, &parts.graph, &lines)?;
    }
    Ok(values)
}
