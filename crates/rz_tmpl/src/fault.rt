//! A broken rule of a template.

/// A broken rule of a template.
#[derive(Clone, Copy, Debug, Drop, PartialEq, Eq)]
pub struct TmplFault {
    /// The number of the rule in the table of faults.
    pub number: u16,
    /// The offset of the entry, in bytes from the start, or the length of the bytes for a fault at their end.
    pub offset: u64,
}
