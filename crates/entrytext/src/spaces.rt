//! Ram spaces by their names.

ghost use Rattle.std.specs.Prelude.{◌≡◌, ◌≤◌, length};
ghost use Rattle.entrytext.specs.Forms.{ram_named};

use pcode_model::{Space, SpaceKind};

/// The number of the first ram space of that name.
pub fn ram_named(spaces: &[Space], name: &[u8]) -> Option<u8>
    requires { length spaces.now ≤ 256 }
    ensures { result ≡ ram_named name.now spaces.now }
{
    for i in 0..spaces.len() {
        if SpaceKind::Ram.same(spaces[i].kind) && spaces[i].name.as_slice() == name {
            return Some(i as u8);
        }
    }
    None
}
