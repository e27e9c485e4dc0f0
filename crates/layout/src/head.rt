//! The function, and its head.

ghost use Rattle.std.specs.Prelude.{◌≡◌, ◌-◌, ◌<◌, ◌^◌, length, IfOk};
ghost use Rattle.layout.specs.Function.{params_of, locals_of, head_of, laid_out as laid_out_of};

use crate::function::laid_body;
use bits_core::{Memory, Width};
use blockcode::{Code, Variable};
use cmeaning::{CFunction, CalleeDecls, Local, Locals, Param, ParamDecls};
use naming::{Head, named_function};
use pcode_model::Name;
use std::alloc::Global;

fn params(alloc: Global, variables: &[Variable]) -> Result<ParamDecls, Memory>
    ensures { IfOk result (λ ps. ps ≡ params_of variables.now) }
{
    let mut params = ParamDecls::new(alloc);
    for variable in variables {
        if let Some(storage) = variable.storage {
            params = params.with(Param {
                storage,
                model: false,
                width: variable.width,
                signed: false,
            })?;
        }
    }
    Ok(params)
}

fn locals(alloc: Global, variables: &[Variable]) -> Result<Locals, Memory>
    ensures { IfOk result (λ ls. ls ≡ locals_of variables.now) }
{
    let mut locals = Locals::new(alloc);
    for variable in variables {
        if variable.storage.is_none() {
            locals.push(Local {
                width: variable.width,
                signed: false,
            })?;
        }
    }
    Ok(locals)
}

/// The head of a function of this name, with a result of the width `gives` or none, that may call these. The variables
/// with a storage are its parameters, none of them an argument of the prototype, and the others are locals; all are
/// unsigned.
pub fn plain_head(
    alloc: Global,
    name: Name,
    gives: Option<Width>,
    callees: CalleeDecls,
    variables: &[Variable],
) -> Result<Head, Memory>
    ensures { IfOk result (λ h. h ≡ head_of name gives callees variables.now) }
{
    let params = params(alloc, variables)?;
    let locals = locals(alloc, variables)?;
    Ok(Head {
        name,
        gives,
        params,
        locals,
        callees,
    })
}

/// The C function of this head whose body is the code, with its numbers by first appearance. `Memory` where memory runs
/// out.
pub fn laid_out(alloc: Global, head: Head, code: Code) -> Result<CFunction, Memory>
    requires { length code.blocks < 2 ^ 32 - 1 }
    ensures { IfOk result (λ f. f ≡ laid_out_of head code) }
{
    let body = laid_body(alloc, code)?;
    named_function(alloc, head, body)
}
