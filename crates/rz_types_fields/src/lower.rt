//! Names in lower case, by which they are looked up.

ghost use Rattle.std.specs.Prelude.{◌≡◌, ◌≤◌, length, IfOk};
ghost use Rattle.std.specs.Str.{str_to_ascii_lowercase};

use rz_core::{NoMemory, Word};
use std::alloc::Global;

/// The most bytes of a name that is looked up without memory: words of the language have no more.
pub const SHORT: usize = 255;

/// The bytes of a name in lower case.
pub fn lower_name(alloc: Global, name: &Word) -> Result<Vec<u8>, NoMemory>
    ensures { IfOk result (λ lower. lower.items ≡ str_to_ascii_lowercase name.now.bytes) }
{
    Ok(name.bytes.as_slice().to_ascii_lowercase(alloc)?)
}

/// A short name in lower case, written at the front of a buffer.
pub fn lower_short<'a>(front: &'a mut [u8; SHORT], name: &[u8]) -> &'a [u8]
    requires { length name.now ≤ 255 }
    ensures { result.now ≡ str_to_ascii_lowercase name.now }
{
    let lower = &mut front[..name.len()];
    lower.copy_from_slice(name);
    lower.make_ascii_lowercase();
    lower
}
