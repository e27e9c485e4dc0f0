//! Functions made of bodies.

ghost use Rattle.std.specs.Prelude.{◌≡◌, ◌++◌, [], ◌∷◌, List, length, IfOk};
ghost use Rattle.naming.specs.Named.{all_found, local_of, declared_all, named_function as function_of};

use crate::rename::{NamedBody, named};
use bits_core::{Memory, Width};
use cmeaning::{Body, CFunction, CName, CalleeDecl, CalleeDecls, Locals, ParamDecls};
use pcode_model::Name;
use sqlite_items::Items;
use std::alloc::Global;

/// What a function has beside its body, and all that the body may mention.
#[derive(Drop)]
pub struct Head {
    pub name: Name,
    pub gives: Option<Width>,
    pub params: ParamDecls,
    /// The local of each variable behind the parameters, by the variable's number.
    pub locals: Locals,
    /// The callees that may be called.
    pub callees: CalleeDecls,
}

/// The locals of variables, given by number.
fn locals_of(
    alloc: Global,
    params: u32,
    locals: &Locals,
    variables: &[u32],
) -> Result<Locals, Memory>
    ensures { IfOk result (λ found. found ≡ all_found (local_of params locals.now) variables.now) }
{
    let mut found = Locals::new(alloc);
    for variable in variables {
        if let Some(local) = locals.get(variable.saturating_sub(params) as usize) {
            found.push(*local)?;
        }
    }
    Ok(found)
}

fn name_again(alloc: Global, name: &CName) -> Result<CName, Memory>
    ensures { IfOk result (λ again. again ≡ name.now) }
{
    match name {
        CName::Declared(name) => Ok(CName::Declared(Items::from_slice(alloc, name.as_slice())?)),
        CName::Bare => Ok(CName::Bare),
    }
}

fn callee_again(alloc: Global, callee: &CalleeDecl) -> Result<CalleeDecl, Memory>
    ensures { IfOk result (λ again. again ≡ callee.now) }
{
    let name = name_again(alloc, &callee.name)?;
    let args = Items::from_slice(alloc, callee.args.as_slice())?;
    Ok(CalleeDecl {
        name,
        address: callee.address,
        gives: callee.gives,
        args,
        returns: callee.returns,
    })
}

/// The declarations of the callees at these addresses.
fn callees_of(
    alloc: Global,
    callees: &CalleeDecls,
    addresses: &[u64],
) -> Result<CalleeDecls, Memory>
    ensures { IfOk result (λ found. found ≡ declared_all callees.now addresses.now) }
{
    let mut found = CalleeDecls::new(alloc);
    for address in addresses {
        if let Some(callee) = callees.declared(*address) {
            found = found.with(alloc, callee_again(alloc, callee)?)?;
        }
    }
    Ok(found)
}

/// The function of this head whose body is the body with its numbers by first appearance. Its locals and its callees are
/// those that the body mentions.
pub fn named_function(alloc: Global, head: Head, body: Body) -> Result<CFunction, Memory>
    ensures { IfOk result (λ f. f ≡ function_of head body) }
{
    let params = match u32::try_from(head.params.len()) {
        Ok(params) => params,
        Err(_) => return Err(Memory),
    };
    let NamedBody { order, body } = named(alloc, params, body)?;
    let locals = locals_of(alloc, params, &head.locals, order.variables.as_slice())?;
    let callees = callees_of(alloc, &head.callees, order.callees.as_slice())?;
    Ok(CFunction {
        callees,
        name: head.name,
        gives: head.gives,
        params: head.params,
        locals,
        body,
    })
}
