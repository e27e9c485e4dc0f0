// A piece written to its end.
ghost use Rattle.std.specs.Prelude.{◌≤◌, OnErr, OnOk};
ghost use Rattle.outside.specs.Writing.{Wrote, WroteShort};

use crate::{Failed, Sink};

/// Writes `piece` to its end. `Failed` comes only where a fault was counted in this call, and then a
/// proper prefix of the piece was taken.
pub fn write_all<K: Sink>(out: &mut K, piece: &[u8]) -> Result<(), Failed>
    ensures whole { OnOk result (Wrote (K.told out.old) (K.told out.new) piece.now) }
    ensures cut { OnErr result (WroteShort (K.told out.old) (K.told out.new) piece.now) }
    ensures later { (K.told out.old).faults ≤ (K.told out.new).faults }
{
    let mut done = 0;
    while done < piece.len() {
        done += out.write(&piece[done..])?;
    }
    Ok(())
}
