//! The attributes of a fork's map: flags in 16 bits, of which each is kept.

ghost use Rattle.std.specs.Prelude.{⊤, ℕ};

use bitflags::{Flag, Flags};
use std::marker::Model;

/// The attributes of a fork's map: flags in 16 bits. All are kept, those that have no name here too. Contracts see the
/// 16 bits as a number. (Inside Macintosh: More Macintosh Toolbox, Resource Manager.)
#[derive(Clone, Copy, Debug, PartialEq, Eq)]
pub struct MapAttributes(u16);

impl Model for MapAttributes {
    ghost Value = { ℕ };

    ghost view = { λ attributes. attributes.0 };

    ghost inverse = { λ bits. record { 0 = bits } };
}

// The list of flags is empty, as that of `Attr`.
impl Flags for MapAttributes {
    type Bits = u16;

    ghost exact = { ⊤ };

    ghost set_of = { λ attributes. attributes };

    fn flags<'a>() -> &'a [Flag<MapAttributes>] {
        &[]
    }

    fn bits(&self) -> u16 {
        self.0
    }

    fn from_bits_retain(bits: u16) -> MapAttributes {
        MapAttributes(bits)
    }
}

impl MapAttributes {
    /// The fork may be read only.
    pub const READ_ONLY: MapAttributes = MapAttributes(0x80);

    /// The fork is to be made compact when it is written.
    pub const COMPACT: MapAttributes = MapAttributes(0x40);

    /// The map was changed in memory, and isn't written yet.
    pub const CHANGED: MapAttributes = MapAttributes(0x20);
}
