//! The plain lowering in code: from a listing and its blocks to code over variables.
//!
//! The code is made as its definition says (`lowered`, in op_code's `specs/Lowered.antt`). Each atom is a variable, in
//! the atoms' order, and each block of the flow a block of code. A block is made by one walk over its places: each op
//! adds its statements to the body (op_code's `add_op`), and the last place the way out. What is tested there is read
//! behind the last op's statements, and may have to be loaded first. The list of variables begins as the atoms', and
//! each local is put behind it as the statement is made that sets it, so that its number is the count of variables
//! there are. So locals are numbered over all blocks in their order, and each is set by one statement.
//!
//! The operands of all ops look their variables up in one table of the ranges, which is made once, calls what they
//! leave in variables of registers in another, which has it for each prototype, and accesses of frame variables their
//! offsets in a third, which has them by place and number. Numbers have 32 bits: where they run out, as where memory
//! does, the answer is `Memory`.
//!
//! That the code shows the same as the listing is a law about `lowered`, and stands in plain_laws. A further operation
//! is a case in op_code, which has the statements that ops are made to; here nothing changes for it, unless it leaves a
//! block, which is a case of `way_out`.
#![tactic(auto)]

mod blocks;
mod exits;
mod lowering;
mod variables;

pub use lowering::{plain, result_width};
