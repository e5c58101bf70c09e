//! What a command makes, and what stops it. What calls give of both is in `specs/Made`.

use rz_core::{Bytes, Fault, FileNames};

/// What a command makes.
#[derive(Drop)]
pub struct Made {
    /// A fork, or a text.
    pub bytes: Bytes,
    /// The lines that are said beside it: those of warnings.
    pub said: Bytes,
}

/// What stops a command: a rule that is broken.
#[derive(Drop)]
pub struct Failing {
    /// The first fault.
    pub fault: Fault,
    /// The names of the files that marks count.
    pub files: FileNames,
    /// What is said before the line of the fault: the lines of warnings.
    pub said: Bytes,
}
