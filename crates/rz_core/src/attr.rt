//! The attributes of a resource: flags in a byte, of which each of the 256 values is kept.

ghost use Rattle.std.specs.Prelude.{⊤, ◌≡◌, ℕ};

use bitflags::{Flag, Flags};
use std::marker::Model;

/// The attributes of a resource: flags in a byte. Every one of the 256 values is kept, those with the bits 80 and 01
/// too, which have no name. Contracts see the byte. (Inside Macintosh: More Macintosh Toolbox, Resource Manager.)
#[derive(Clone, Copy, Debug, PartialEq, Eq)]
pub struct Attr(u8);

impl Model for Attr {
    ghost Value = { ℕ };

    ghost view = { λ attr. attr.0 };

    ghost inverse = { λ byte. record { 0 = byte } };
}

// The list of flags is empty, since no constant may lend values that contracts see by a model. To methods that read the
// list every bit is unknown, so none of them may be used: `all`, `is_all`, `from_bits`, `from_bits_truncate`,
// `truncate`, `complement`, `contains_unknown_bits`, `from_name`, `iter`, `iter_names`.
impl Flags for Attr {
    type Bits = u8;

    ghost exact = { ⊤ };

    ghost set_of = { λ attr. attr };

    fn flags<'a>() -> &'a [Flag<Attr>] {
        &[]
    }

    fn bits(&self) -> u8 {
        self.0
    }

    fn from_bits_retain(bits: u8) -> Attr {
        Attr(bits)
    }
}

impl Attr {
    /// It is read into the system heap.
    pub const SYSTEM_HEAP: Attr = Attr(0x40);

    /// It may be purged from memory.
    pub const PURGEABLE: Attr = Attr(0x20);

    /// It stays at its place in memory.
    pub const LOCKED: Attr = Attr(0x10);

    /// It may not be changed.
    pub const PROTECTED: Attr = Attr(0x08);

    /// It is read as soon as its file is opened.
    pub const PRELOAD: Attr = Attr(0x04);

    /// It was changed in memory, and isn't written yet.
    pub const CHANGED: Attr = Attr(0x02);

    /// The six above.
    pub const NAMED: Attr = Attr(0x7E);

    /// The attributes with exactly these bits.
    pub fn of(byte: u8) -> Attr
        ensures { result ≡ byte }
    {
        Attr(byte)
    }

    /// The byte that a resource map stores.
    pub fn byte(&self) -> u8
        ensures { result ≡ self.now }
    {
        self.0
    }
}
