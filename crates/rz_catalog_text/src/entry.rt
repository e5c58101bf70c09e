//! Entries of catalogues.

use rz_core::{Bytes, Listing, Mark, OsType};

/// A text of a resource, and which it is.
#[derive(Debug, Drop)]
pub struct Entry {
    /// The type of the resource.
    pub kind: OsType,
    /// The id of the resource.
    pub id: i16,
    /// The place of the text among the texts of the resource, from 0.
    pub leaf: u32,
    /// The text, in Mac Roman.
    pub text: Bytes,
    /// Where the entry begins; file 0 and line 0 for one that was not read.
    pub mark: Mark,
}

/// A list of entries.
pub type Entries = Listing<Entry>;
