//! A broken rule of a type declaration, its field, and what is kept of the cause.

use rz_core::Kept;

/// A broken rule of a type declaration.
#[derive(Drop)]
pub struct TypeFault {
    /// The number of the rule in the table of faults.
    pub number: u16,
    /// The position of the field in a walk depth first, from 0, at most 2^63 - 1.
    pub field: u64,
    /// What is kept of the cause.
    pub kept: Kept,
}
