//! Whether a function fits a listing.

ghost use Rattle.std.specs.Prelude.{◌≡◌, ◌↔◌, IsTrue, Some, map};
ghost use Rattle.pcode_model.specs.Spaces.{number_of as kind_number};
ghost use Rattle.cmeaning.specs.Do.{widths_in};
ghost use Rattle.cmeaning.specs.Fits.{Fits, all_true, arm_fits as fits_arm, body_fits as fits_body, lies_in as in_space, names_ram as is_ram_name, param_fits as fits_param, params_fit as fit_params, stmt_fits as fits_stmt};

use crate::named::number_named;
use cmeaning::{Arm, CFunction, Param, Stmt};
use pcode_model::ranges::{is_kind, leaves, number_of};
use pcode_model::{Listing, Name, ParamStorage, SpaceKind};

/// Whether a name is that of a ram space other than the first.
fn is_other_ram(listing: &Listing, name: &[u8]) -> bool
    ensures { result ≡ is_ram_name listing.now (Some name.now) }
{
    let spaces = listing.spaces.as_slice();
    let number = number_named(name, spaces);
    is_kind(SpaceKind::Ram, spaces, number as u64) && number != number_of(SpaceKind::Ram, spaces)
}

/// Whether the space of a load or store is a ram space.
fn names_ram(listing: &Listing, space: &Option<Name>) -> bool
    ensures { result ≡ is_ram_name listing.now space.now }
{
    match space {
        None => true,
        Some(name) => is_other_ram(listing, name.as_slice()),
    }
}

/// Whether so many bytes from an offset on lie in the first space of a kind.
fn lies_in(listing: &Listing, kind: SpaceKind, offset: u64, count: u8) -> bool
    ensures { result ≡ in_space listing.now (kind_number kind listing.now.spaces) offset count }
{
    let spaces = listing.spaces.as_slice();
    !leaves(
        spaces,
        number_of(kind, spaces) as u64,
        offset,
        u32::from(count),
    )
}

/// The width of a variable in bytes, or 0 where there is none of this number.
fn width_in(f: &CFunction, v: u32) -> u8
    ensures { result ≡ widths_in f.now v }
{
    let v = v as usize;
    match f.params.get(v) {
        Some(p) => p.width.bytes,
        None => {
            if v < f.params.len() {
                return 0;
            }
            match f.locals.get(v - f.params.len()) {
                Some(x) => x.width.bytes,
                None => 0,
            }
        }
    }
}

#[cycle(fits)]
#[tactic(auto, unfolding(cmeaning::specs::Fits::stmt_fits))]
fn stmt_fits(listing: &Listing, f: &CFunction, s: &Stmt) -> bool
    ensures { result ≡ fits_stmt listing.now (widths_in f.now) s.now }
{
    match s {
        Stmt::Load { space, .. } => names_ram(listing, space),
        Stmt::Store { space, .. } => names_ram(listing, space),
        Stmt::Extra { target, offset } => {
            lies_in(listing, SpaceKind::Register, *offset, width_in(f, *target))
        }
        Stmt::If { body, .. } => body_fits(listing, f, body.as_slice()),
        Stmt::IfElse { yes, no, .. } => {
            body_fits(listing, f, yes.as_slice()) && body_fits(listing, f, no.as_slice())
        }
        Stmt::While { body, .. } => body_fits(listing, f, body.as_slice()),
        Stmt::DoWhile { body, .. } => body_fits(listing, f, body.as_slice()),
        Stmt::Loop { body } => body_fits(listing, f, body.as_slice()),
        Stmt::Switch { arms, .. } => arms_fit(listing, f, arms.as_slice()),
        _ => true,
    }
}

#[cycle(fits)]
fn body_fits(listing: &Listing, f: &CFunction, body: &[Stmt]) -> bool
    ensures { result ≡ fits_body listing.now (widths_in f.now) body.now }
{
    for s in body {
        if !stmt_fits(listing, f, s) {
            return false;
        }
    }
    true
}

#[cycle(fits)]
#[tactic(auto, unfolding(cmeaning::specs::Fits::stmt_fits, cmeaning::specs::Fits::arm_fits))]
fn arm_fits(listing: &Listing, f: &CFunction, arm: &Arm) -> bool
    ensures { result ≡ fits_arm listing.now (widths_in f.now) arm.now }
{
    body_fits(listing, f, arm.body.as_slice())
}

#[cycle(fits)]
fn arms_fit(listing: &Listing, f: &CFunction, arms: &[Arm]) -> bool
    ensures { result ≡ all_true (map (fits_arm listing.now (widths_in f.now)) arms.now) }
{
    for arm in arms {
        if !arm_fits(listing, f, arm) {
            return false;
        }
    }
    true
}

fn param_fits(listing: &Listing, p: &Param) -> bool
    ensures { result ≡ fits_param listing.now p.now }
{
    match p.storage {
        ParamStorage::Register(offset) => {
            lies_in(listing, SpaceKind::Register, offset, p.width.bytes)
        }
        ParamStorage::Unique(offset) => {
            lies_in(listing, SpaceKind::Unique, offset, p.width.bytes)
        }
        ParamStorage::Stack(_) => listing.stack.is_some(),
    }
}

fn params_fit(listing: &Listing, params: &[Param]) -> bool
    ensures { result ≡ fit_params listing.now params.now }
{
    for p in params {
        if !param_fits(listing, p) {
            return false;
        }
    }
    true
}

/// Whether a function fits a listing: each space that it names is a ram space other than the first, each parameter
/// in the register or unique space and each `EXTRAOUT` lies in its space, and a parameter on the stack stands beside
/// a stack pointer.
pub fn fits(listing: &Listing, f: &CFunction) -> bool
    ensures { IsTrue result ↔ Fits listing.now f.now }
{
    params_fit(listing, f.params.as_slice()) && body_fits(listing, f, f.body.as_slice())
}
