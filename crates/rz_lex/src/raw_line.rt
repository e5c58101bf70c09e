//! A logical line of a source before it is cut into tokens: its bytes, and where it begins.

use rz_core::{Bytes, Mark};

/// A logical line of a source: its bytes in Mac Roman, each comment as one blank, and the mark of the
/// physical line on which it begins.
#[derive(Debug, Drop)]
pub struct RawLine {
    /// The bytes, without the line end.
    pub bytes: Bytes,
    /// Where the line begins.
    pub mark: Mark,
}
