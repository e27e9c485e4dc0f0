//! The entry values of a function and the MULTIEQUALs of a block, in the order of their lines.
ghost use Rattle.std.specs.Prelude.{◌≡◌, IfOk, OnOk};
ghost use Rattle.opgraph.specs.Graph.{op_at};
ghost use Rattle.ssa_model.specs.Outline.{multis_of, role_at};
ghost use Rattle.ssa_model.specs.Starting.{storage_rank};
ghost use Rattle.ssa_text.specs.Ranked.{added, atom_if, rank_if, role_from, starts_of};
ghost use Rattle.sorting.specs.Ranks.{numbers_of};

use bits_core::Memory;
use opgraph::{Code, OpGraph, OpId};
use pcode_model::ParamStorage;
use sorting::{Ranked, sort_by_rank};
use std::alloc::Global;

/// What the op of a number does, if there is one.
pub(crate) fn code_at(graph: &OpGraph, op: u32) -> Option<Code>
    ensures { role_from result ≡ role_at (op_at graph.now) op }
{
    let op = OpId(op);
    if graph.contains_op(op) {
        Some(graph.code(op))
    } else {
        None
    }
}

/// The atom of a MULTIEQUAL.
fn atom_at(graph: &OpGraph, op: u32) -> Option<u128>
    ensures { result ≡ atom_if (role_at (op_at graph.now) op) }
{
    match code_at(graph, op) {
        Some(Code::Multi(atom)) => Some(u128::from(atom)),
        _ => None,
    }
}

/// Registers, then unique space, then the stack, each by rising offsets.
fn storage_rank(storage: ParamStorage) -> u128
    ensures { result ≡ storage_rank storage }
{
    match storage {
        ParamStorage::Register(offset) => u128::from(offset),
        ParamStorage::Unique(offset) => (1 << 64) + u128::from(offset),
        ParamStorage::Stack(offset) => {
            if offset >= 0 {
                (1 << 65) + (1 << 63) + offset as u128
            } else {
                (1 << 65) + (1 << 63) - u128::from(offset.unsigned_abs())
            }
        }
    }
}

/// The rank of an entry value's storage.
fn rank_at(graph: &OpGraph, op: u32) -> Option<u128>
    ensures { result ≡ rank_if (role_at (op_at graph.now) op) }
{
    match code_at(graph, op) {
        Some(Code::Entry(storage)) => Some(storage_rank(storage)),
        _ => None,
    }
}

fn numbers(alloc: Global, ranked: &[Ranked]) -> Result<Vec<u32>, Memory>
    ensures { IfOk result (λ xs. xs.items ≡ numbers_of ranked.now) }
{
    let mut numbers = Vec::new(alloc);
    for item in ranked {
        numbers.push(item.number)?;
    }
    Ok(numbers)
}

/// Keeps a number that has a rank.
fn meet(ranked: &mut Vec<Ranked>, rank: Option<u128>, number: u32) -> Result<(), Memory>
    ensures { OnOk result (ranked.new.items ≡ added ranked.old.items rank number) }
{
    if let Some(rank) = rank {
        ranked.push(Ranked { rank, number })?;
    }
    Ok(())
}

/// The MULTIEQUALs among some ops, by their atoms.
pub(crate) fn multis_of(alloc: Global, graph: &OpGraph, ops: &[u32]) -> Result<Vec<u32>, Memory>
    ensures { IfOk result (λ xs. xs.items ≡ multis_of (op_at graph.now) ops.now) }
{
    let mut ranked = Vec::new(alloc);
    for op in ops {
        meet(&mut ranked, atom_at(graph, *op), *op)?;
    }
    sort_by_rank(&mut ranked)?;
    numbers(alloc, &ranked)
}

/// The entry values among some ops, by their storages.
pub(crate) fn starts_of(alloc: Global, graph: &OpGraph, ops: &[u32]) -> Result<Vec<u32>, Memory>
    ensures { IfOk result (λ xs. xs.items ≡ starts_of (op_at graph.now) ops.now) }
{
    let mut ranked = Vec::new(alloc);
    for op in ops {
        meet(&mut ranked, rank_at(graph, *op), *op)?;
    }
    sort_by_rank(&mut ranked)?;
    numbers(alloc, &ranked)
}
