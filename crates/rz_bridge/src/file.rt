//! A file of the classic Macintosh, and what the Finder keeps of it; ranges are in `specs/Ranges`.

ghost use Rattle.rz_bridge.specs.Ranges.{IsStored};

use rz_core::{Bytes, OsType};

/// What the Finder keeps of a file. (Inside Macintosh: Finder Interface; RFC 1740.)
#[derive(Debug, Drop)]
pub struct Finder {
    /// The type of the file.
    pub kind: OsType,
    /// The creator of the file.
    pub creator: OsType,
    /// The Finder's flags.
    pub flags: u16,
    /// The place of the icon from the top of the window, in pixels.
    pub vertical: i16,
    /// The place of the icon from the left of the window, in pixels.
    pub horizontal: i16,
    /// The number of the window or folder.
    pub folder: i16,
    /// The 16 bytes after these fields. AppleDouble and AppleSingle carry them; MacBinary carries the bytes 8 and 9,
    /// the script and further flags.
    pub extra: [u8; 16],
}

/// A file of the classic Macintosh, whatever form it came in.
#[derive(Drop)]
pub struct MacFile {
    /// The name in Mac Roman; empty: the form had none.
    pub name: Bytes,
    /// What the Finder keeps.
    pub finder: Finder,
    /// Whether the file is protected against changes.
    pub locked: bool,
    /// When it was made, in seconds since the first of 1904.
    pub created: u32,
    /// When it was last changed, in seconds since the first of 1904.
    pub modified: u32,
    /// The bytes of the data fork.
    pub data_fork: Bytes,
    /// The bytes of the resource fork.
    pub res_fork: Bytes,
}

/// A law, which reads the numbers of the Finder's fields and does nothing with them: they have 32 and 16 bits, and 16
/// bytes stand after them.
pub fn finder_is_stored(finder: &Finder)
    ensures { IsStored finder.now }
{
    let _kind = finder.kind.code;
    let _creator = finder.creator.code;
    let _flags = finder.flags;
    let _vertical = finder.vertical;
    let _horizontal = finder.horizontal;
    let _folder = finder.folder;
    let _extra = finder.extra;
}
