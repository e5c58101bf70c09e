//! What is known of a resource beside its bytes while it is compiled or shown.

use crate::{Attr, Bytes, Moment, OsType};

/// What is known of a resource beside its bytes while it is compiled or shown.
#[derive(Drop)]
pub struct Facts {
    /// The type.
    pub kind: OsType,
    /// The id.
    pub id: i16,
    /// The name in Mac Roman; empty: no name.
    pub name: Bytes,
    /// The attributes.
    pub attr: Attr,
    /// The moment of the run.
    pub moment: Moment,
}
