//! Bytes and numbers put behind a text.

ghost use Rattle.std.specs.Prelude.{◌≡◌, ◌<◌, ◌++◌, false, OnOk};
ghost use Rattle.std.specs.Fmt.{decimal, digit_glyph};
ghost use Rattle.ctext.specs.Names.{hex};

use bits_core::Memory;
use std::alloc::Global;

pub fn put(out: &mut Vec<u8>, bytes: &[u8]) -> Result<(), Memory>
    ensures { OnOk result (out.new.items ≡ out.old.items ++ bytes.now) }
{
    out.extend_from_slice(bytes)?;
    Ok(())
}

pub fn put_decimal(alloc: Global, out: &mut Vec<u8>, n: u64) -> Result<(), Memory>
    ensures { OnOk result (out.new.items ≡ out.old.items ++ decimal n) }
{
    let text = n.to_string(alloc)?;
    put(out, text.as_bytes())
}

fn glyph(d: u8) -> u8
    requires { d < 16 }
    ensures { result ≡ digit_glyph false d }
{
    if d < 10 { 48 + d } else { 87 + d }
}

#[tactic(auto, using(crate::proofs::Hexadecimal::hex_step, crate::proofs::Hexadecimal::hex_one))]
pub fn put_hex(out: &mut Vec<u8>, n: u128) -> Result<(), Memory>
    ensures { OnOk result (out.new.items ≡ out.old.items ++ hex n) }
{
    if n >= 16 {
        put_hex(out, n / 16)?;
        out.push(glyph((n % 16) as u8))?;
        return Ok(());
    }
    out.push(glyph((n % 16) as u8))?;
    Ok(())
}
