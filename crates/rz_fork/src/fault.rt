//! The faults of forks: a limit that a writer passes, and the rules of admission in a table.

use thiserror::Error;

/// A part of a fork that is longer than its limit. (The offsets of the format have 24 and 16 bits:
/// Inside Macintosh: More Macintosh Toolbox, Resource Manager, resource file format.)
#[derive(Clone, Copy, Debug, PartialEq, Eq, Error)]
#[error("limit {number} of a resource fork passed with {length} bytes")]
pub struct LimitFault {
    /// 302: the data area has more than 16,777,216 bytes. 303: the map without its name list has more
    /// than 65,535. 304: the name list has more than 65,535.
    pub number: u16,
    /// The part's length in bytes. A length above 2^63 - 1 is kept as 2^63 - 1.
    pub length: u64,
}

/// A broken rule of admission. (The fields are those of Inside Macintosh: More Macintosh Toolbox,
/// Resource Manager, resource file format.)
///
/// | Number | Rule | Broken where | Offset | Value |
/// |---|---|---|---|---|
/// | 401 | ShortHeader | there are fewer than 16 bytes | 0 | how many |
/// | 402 | DataAreaOutside | the data area begins at 16,777,216 or later, or ends after the fork | 0 | its length |
/// | 403 | MapOutside | the map ends after the fork | 4 | its length |
/// | 404 | ShortMap | the map has fewer than 28 bytes | 12 | its length |
/// | 405 | TypeListOutside | the count of types ends after the map | of the type list's offset | that offset |
/// | 406 | TypesOutside | the types end after the map, or are more than 8,192 | of the type list | the count of types |
/// | 407 | ReferencesOutside | a reference list ends after the map, or the references so far are more than 16,384 | of the list | its count of references |
/// | 408 | DataOutside | a resource's length ends after the data area | of that length | 0 |
/// | 408 | DataOutside | a resource's bytes end after the data area | of their length | that length |
/// | 409 | NameOutside | a name's length byte or its bytes end after the map | of the length byte | the name's offset in the name list |
/// | 410 | Repeated | an earlier entry has the type | of the later entry | the type |
/// | 410 | Repeated | an earlier reference of the type has the id | of the later reference | the id's 16 bits |
#[derive(Clone, Copy, Debug, PartialEq, Eq, Error)]
#[error("rule {number} of a resource fork broken at offset {offset} with value {value}")]
pub struct ForkFault {
    /// 401 to 410.
    pub number: u16,
    /// In bytes from the start of the fork.
    pub offset: u64,
    /// What the rule found.
    pub value: u32,
}
