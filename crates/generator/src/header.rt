//! What every generated listing has but for its code.

ghost use Rattle.std.specs.Prelude.{◌≡◌, IfOk};
ghost use Rattle.generator.specs.Generated.{function, proto, space, spaces};
ghost use Rattle.pcode_model.specs.WellFormed.{constant_space};

use crate::shapes::register;
use pcode_model::{Function, Name, Proto, Space, SpaceKind, Spaces, Storage, Storages, Varnodes};
use std::alloc::{AllocError, Global};

fn constant_space(alloc: Global) -> Result<Space, AllocError>
    ensures { IfOk result (λ space. space ≡ constant_space) }
{
    Ok(Space {
        name: Name::from_slice(alloc, b"const")?,
        kind: SpaceKind::Constant,
        size: 8,
        big: false,
        word: 1,
    })
}

fn space(alloc: Global, name: &[u8], kind: SpaceKind) -> Result<Space, AllocError>
    ensures { IfOk result (λ made. made ≡ space name.now kind) }
{
    Ok(Space {
        name: Name::from_slice(alloc, name)?,
        kind,
        size: 4,
        big: false,
        word: 1,
    })
}

/// The constant space, and the three that are declared.
pub(crate) fn spaces(alloc: Global) -> Result<Spaces, AllocError>
    ensures { IfOk result (λ made. made ≡ spaces) }
{
    let mut spaces = Spaces::new(alloc);
    spaces.push(constant_space(alloc)?)?;
    spaces.push(space(alloc, b"ram", SpaceKind::Ram)?)?;
    spaces.push(space(alloc, b"register", SpaceKind::Register)?)?;
    spaces.push(space(alloc, b"unique", SpaceKind::Unique)?)?;
    Ok(spaces)
}

/// The prototype of the function.
pub(crate) fn proto(alloc: Global) -> Result<Proto, AllocError>
    ensures { IfOk result (λ made. made ≡ proto) }
{
    let mut args = Storages::new(alloc);
    args.push(Storage::At(register(0)))?;
    args.push(Storage::At(register(1)))?;
    Ok(Proto {
        name: Name::from_slice(alloc, b"c")?,
        args,
        gives: Some(register(0)),
        pop: 0,
        keep: Varnodes::new(alloc),
    })
}

/// The function.
pub(crate) fn function(alloc: Global) -> Result<Function, AllocError>
    ensures { IfOk result (λ made. made ≡ function) }
{
    Ok(Function {
        name: Name::from_slice(alloc, b"gen")?,
        address: 0x1000,
        proto: 0,
        returns: true,
    })
}
