// Whether a listing is built so far.
ghost use Rattle.std.specs.Prelude.{◌≡◌, ◌↔◌, IsTrue};
ghost use Rattle.supported.specs.Supported.{HasBuiltOps, are_supported_ops, is_supported_code, is_supported_code_of};

use pcode_model::{Instruction, Listing, Op, Opcode};

fn is_supported_code(code: &Opcode) -> bool
    ensures { result ≡ is_supported_code code.now }
{
    match code {
        Opcode::Unary(_) | Opcode::Binary(_) | Opcode::Divide(_) => true,
        Opcode::Load | Opcode::Store => true,
        Opcode::Call | Opcode::CallInd | Opcode::CallOther => true,
        Opcode::Branch | Opcode::CBranch | Opcode::Return => true,
        _ => false,
    }
}

fn are_supported_ops(ops: &[Op]) -> bool
    ensures { result ≡ are_supported_ops ops.now }
{
    for op in ops {
        if !is_supported_code(&op.code) {
            return false;
        }
    }
    true
}

fn is_supported_code_of(code: &[Instruction]) -> bool
    ensures { result ≡ is_supported_code_of code.now }
{
    for instruction in code {
        if !are_supported_ops(instruction.ops.as_slice()) {
            return false;
        }
    }
    true
}

/// Whether the listing is one of those that are built so far: all of its ops are.
pub fn is_supported(listing: &Listing) -> bool
    ensures { IsTrue result ↔ HasBuiltOps listing.now }
{
    is_supported_code_of(listing.code.as_slice())
}
