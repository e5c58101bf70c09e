//! A resource and its type, lists of resources, and names of the language.

ghost use Rattle.std.specs.Prelude.{◌≡◌};
ghost use Rattle.rz_core.specs.Resources.{is_protected, kind_of};

use crate::{Attr, Bytes, Listing};
use bitflags::Flags;

/// The type of a resource: four bytes in Mac Roman, as one number with the first byte highest.
#[derive(Clone, Copy, Debug, PartialEq, Eq)]
pub struct OsType {
    /// The four bytes as a number, the first byte highest.
    pub code: u32,
}

impl OsType {
    /// The type of four bytes, the first byte highest. `None` comes exactly for bytes that aren't four.
    pub fn of_bytes(bytes: &[u8]) -> Option<OsType>
        ensures { result ≡ kind_of bytes.now }
    {
        match bytes {
            [a, b, c, d] => Some(OsType {
                code: u32::from_be_bytes([*a, *b, *c, *d]),
            }),
            _ => None,
        }
    }
}

/// A resource. (Inside Macintosh: More Macintosh Toolbox, Resource Manager.)
#[derive(Drop)]
pub struct Resource {
    /// The type.
    pub kind: OsType,
    /// The id. A list has at most one resource of a type and an id.
    pub id: i16,
    /// The name in Mac Roman; empty: no name.
    pub name: Bytes,
    /// The attributes.
    pub attr: Attr,
    /// The contents.
    pub bytes: Bytes,
}

impl Resource {
    /// Whether it is protected: whether the bit 08 of its attributes is set. (Inside Macintosh: More Macintosh Toolbox,
    /// Resource Manager.)
    pub fn is_protected(&self) -> bool
        ensures { result ≡ is_protected self.now }
    {
        self.attr.contains(Attr::PROTECTED)
    }
}

/// A list of resources.
pub type Resources = Listing<Resource>;

/// A name of the language in the spelling in which it was written, in Mac Roman.
#[derive(Debug, Drop)]
pub struct Word {
    /// The spelling.
    pub bytes: Bytes,
}

/// A list of names of the language.
pub type Words = Listing<Word>;
