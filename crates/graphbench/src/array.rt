//! The same edits of a plain array of ops, which keeps no uses and no order of a block.
use bits_core::Memory;
use opgraph::Code;
use std::alloc::Global;
use std::vec::Vec;

/// An op, with the indices of the ops that it reads.
#[derive(Clone, Copy)]
struct Row {
    code: Code,
    inputs: [u32; 2],
    there: bool,
}

fn retarget(ops: &mut Vec<Row>, index: u32) {
    if let Some(row) = ops.get_mut(index as usize) {
        row.code = Code::Negate;
        row.inputs = [0, 0];
    }
}

fn remove(ops: &mut Vec<Row>, index: u32) {
    if let Some(row) = ops.get_mut(index as usize) {
        row.there = false;
    }
}

/// Adds so many ops, retargets each and removes each. Answers how many edits those are.
pub fn of_array(alloc: Global, count: u32) -> Result<u64, Memory> {
    let mut ops = Vec::new(alloc);
    ops.push(Row {
        code: Code::Const(1),
        inputs: [0, 0],
        there: true,
    })?;
    for before in 0..count {
        ops.push(Row {
            code: Code::Add,
            inputs: [before, before],
            there: true,
        })?;
    }
    for index in 0..count {
        retarget(&mut ops, index + 1);
    }
    for index in 0..count {
        remove(&mut ops, index + 1);
    }
    let gone = ops.iter().filter(|row| !row.there).count();
    Ok(2 * u64::from(count) + gone as u64)
}
