//! Numbers at an offset of bytes that may end before it.

ghost use Rattle.std.specs.Prelude.{◌≡◌, ◌+◌, nat_le, if◌then◌else◌, length, Some, None};
ghost use Rattle.rz_core.specs.Numbers.{number};

use rz_core::{u16_at, u32_at};

/// The number in 2 bytes at an offset, the highest first; `None` exactly where it ends after the bytes. (Inside
/// Macintosh: More Macintosh Toolbox, Resource Manager, resource file format.)
pub fn word_at(bytes: &[u8], offset: u32) -> Option<u16>
    ensures { result ≡ (if nat_le (offset + 2) (length bytes.now) then Some (number 2 bytes.now offset) else None) }
{
    let offset = offset as usize;
    if bytes.len() < offset + 2 {
        return None;
    }
    Some(u16_at(bytes, offset))
}

/// The number in 4 bytes at an offset, the highest first; `None` exactly where it ends after the bytes. (Inside
/// Macintosh: More Macintosh Toolbox, Resource Manager, resource file format.)
pub fn long_at(bytes: &[u8], offset: u32) -> Option<u32>
    ensures { result ≡ (if nat_le (offset + 4) (length bytes.now) then Some (number 4 bytes.now offset) else None) }
{
    let offset = offset as usize;
    if bytes.len() < offset + 4 {
        return None;
    }
    Some(u32_at(bytes, offset))
}
