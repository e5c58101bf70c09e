//! Open conditionals: where each begins, and whether its part is read. Lines change them by `specs/Line`.

use rz_core::Mark;

/// What is done with the part of a conditional that is being read.
#[derive(Clone, Copy, Debug, PartialEq, Eq)]
pub enum Part {
    /// It is passed over, and no part was chosen yet.
    Waiting,
    /// It is the part that is read.
    Chosen,
    /// It is passed over, and so is every later part.
    Past,
}

/// A conditional that is open.
#[derive(Clone, Copy, Debug)]
pub struct Open {
    /// Where its `#if`, `#ifdef` or `#ifndef` stands.
    pub mark: Mark,
    /// Its part.
    pub part: Part,
    /// Whether that is the part after `#else`.
    pub is_last: bool,
}
