//! Where a statement stands among the tokens of a program; changes with `specs/Statements`.

use rz_core::Listing;

/// Where a statement stands among the tokens of a program.
#[derive(Clone, Copy, Drop, PartialEq, Eq)]
pub struct Span {
    /// The position of its first token, from 0.
    pub start: u64,
    /// The position after its last token.
    pub end: u64,
}

/// A list of spans.
pub type Spans = Listing<Span>;
