//! What is known at a block's end is brought to the blocks behind it.

ghost use Rattle.std.specs.Prelude.{◌≡◌, ◌<◌, length, IfOk, OnOk, vec_len};
ghost use Rattle.frame_known.specs.Entering.{AreInside, AreLong, Brought, Entered, EnteredAll, IsLong, nexts};

use crate::meeting::keep_common;
use crate::rows::Row;
use bits_core::Memory;
use pcode_model::Exit;
use sqlite_items::Items;
use std::alloc::Global;

/// What is known where each block begins, as far as edges brought anything yet.
pub type Rows = Vec<Option<Row>>;

/// The same row again.
pub(crate) fn copied(alloc: Global, row: &Row) -> Result<Row, Memory>
    ensures { IfOk result (λ copy. copy ≡ row.now) }
{
    let copy = Items::from_slice(alloc, row.as_slice())?;
    Ok(copy)
}

// The row as another one is brought, where there is one already. Tells whether it is new, or knows less than before.
fn bring(alloc: Global, row: &mut Option<Row>, out: &Row) -> Result<bool, Memory>
    requires { IsLong (length out.now) row.old }
    ensures { IfOk result (λ fewer. Brought row.old out.now fewer row.new) }
{
    match row {
        Some(row) => Ok(keep_common(row, out.as_slice())),
        None => {
            *row = Some(copied(alloc, out)?);
            Ok(true)
        }
    }
}

fn enter(
    alloc: Global,
    rows: &mut Rows,
    waits: &mut Vec<bool>,
    to: u32,
    out: &Row,
) -> Result<(), Memory>
    requires rows { to < vec_len rows.old }
    requires waits { to < vec_len waits.old }
    requires long { AreLong (length out.now) rows.old.items }
    ensures { OnOk result (Entered (length out.now) rows.old.items waits.old.items to out.now rows.new.items waits.new.items) }
{
    if bring(alloc, &mut rows[to as usize], out)? {
        waits[to as usize] = true;
    }
    Ok(())
}

fn enter_all(
    alloc: Global,
    rows: &mut Rows,
    waits: &mut Vec<bool>,
    targets: &[u32],
    out: &Row,
) -> Result<(), Memory>
    requires inside { AreInside (vec_len rows.old) targets.now }
    requires waits { vec_len waits.old ≡ vec_len rows.old }
    requires long { AreLong (length out.now) rows.old.items }
    ensures { OnOk result (EnteredAll (length out.now) out.now rows.old.items waits.old.items targets.now rows.new.items waits.new.items) }
{
    for target in targets {
        enter(alloc, rows, waits, *target, out)?;
    }
    Ok(())
}

/// Brings a row to each block behind one that has this exit.
pub(crate) fn leave(
    alloc: Global,
    rows: &mut Rows,
    waits: &mut Vec<bool>,
    exit: &Exit,
    out: &Row,
) -> Result<(), Memory>
    requires inside { AreInside (vec_len rows.old) (nexts exit.now) }
    requires waits { vec_len waits.old ≡ vec_len rows.old }
    requires long { AreLong (length out.now) rows.old.items }
    ensures { OnOk result (EnteredAll (length out.now) out.now rows.old.items waits.old.items (nexts exit.now) rows.new.items waits.new.items) }
{
    match exit {
        Exit::Return | Exit::Stop => enter_all(alloc, rows, waits, &[], out),
        Exit::Jump(to) => enter_all(alloc, rows, waits, &[*to], out),
        Exit::Test { taken, other } => enter_all(alloc, rows, waits, &[*taken, *other], out),
        Exit::Switch { blocks, .. } => enter_all(alloc, rows, waits, blocks.as_slice(), out),
    }
}
