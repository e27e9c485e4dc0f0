//! Variables that are no parameters.

ghost use Rattle.std.specs.Prelude.{◌≡◌, ◌≤◌, ◌^◌, ◌∷◌, ◌++◌, [], length, IfOk, OnOk};
ghost use Rattle.op_code.specs.Made.{local_of};

use bits_core::Memory;
use blockcode::{Variable, Variables};
use op_values::width_by;

/// The number of a new local of so many bytes. `Memory` where memory or the numbers of 32 bits run out.
pub(crate) fn new_local(variables: &mut Variables, bytes: u32) -> Result<u32, Memory>
    ensures number { IfOk result (λ n. n ≡ length variables.old) }
    ensures locals { OnOk result (variables.new ≡ variables.old ++ local_of bytes ∷ []) }
    ensures few { OnOk result (length variables.new ≤ 2 ^ 32) }
{
    let Ok(number) = u32::try_from(variables.len()) else {
        return Err(Memory);
    };
    variables.push(Variable {
        width: width_by(bytes),
        storage: None,
    })?;
    Ok(number)
}
