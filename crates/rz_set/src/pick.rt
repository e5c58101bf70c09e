//! What a statement asks of a set: picks, heads and choices; and why a set refuses a call.

use rz_core::{Attr, Bytes, OsType};

/// Which resources of a type a statement is for.
#[derive(Debug, Drop)]
pub enum Pick {
    /// All.
    All,
    /// The one with this id.
    Id(i16),
    /// Those whose ids are from the first to the second.
    Range(i16, i16),
    /// The first one with this name, its bytes compared exactly.
    Name(Bytes),
}

/// What a resource is to have in place of its own type, id, name and attributes.
#[derive(Debug, Drop)]
pub struct Head {
    /// The type.
    pub kind: OsType,
    /// The id, if it isn't to keep its own.
    pub id: Option<i16>,
    /// The name, if it isn't to keep its own.
    pub name: Option<Bytes>,
    /// The attributes, if it isn't to keep its own.
    pub attr: Option<Attr>,
}

/// Which resources of a list are included.
#[derive(Debug, Drop)]
pub enum Choice {
    /// All.
    All,
    /// Those of all other types.
    Except(OsType),
    /// Those of a type that a pick chooses.
    Chosen(OsType, Pick),
}

/// Why a call of a set was refused.
#[derive(Clone, Copy, Drop, PartialEq, Eq)]
pub enum SetFault {
    /// A pick by id or name chooses no resource of this type.
    NoSuchResource(OsType),
    /// A protected resource, of this type and id, would be replaced, changed or removed.
    Protected(OsType, i16),
}
