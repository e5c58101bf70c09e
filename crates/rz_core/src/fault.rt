//! A broken rule: its number, the file and line where it has a place, and what is kept of its cause.

use crate::{Bytes, OsType};

/// The place of a fault: a line of a file.
#[derive(Clone, Copy, Debug, PartialEq, Eq)]
pub struct Mark {
    /// The position of the file in the list of opened files, from 0.
    pub file: u64,
    /// The line of the file, from 1.
    pub line: u32,
}

/// What a fault keeps of its cause.
#[derive(Debug, Drop)]
pub enum Kept {
    /// The number of the fault says it all.
    Nothing,
    /// A number, as a length or a value.
    Number(i64),
    /// Two numbers, as an offset and a value.
    Pair(i64, i64),
    /// Which check failed, the stored number and the computed one.
    Check(u8, u16, u16),
    /// A name: of a file that the words name in UTF-8, any other in Mac Roman.
    Name(Bytes),
    /// The type and the id of a resource.
    Key(OsType, i32),
}

/// A broken rule: its number, its place where it has one, and what it keeps.
#[derive(Debug, Drop)]
pub struct Fault {
    /// The number of the rule in the table of faults.
    pub number: u16,
    /// The place, where the fault has one.
    pub mark: Option<Mark>,
    /// What is kept of the cause.
    pub kept: Kept,
}
