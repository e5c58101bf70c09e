//! The places in which a run and its case can differ.

use crate::case::Target;
use std::fmt;

/// A place in which a run and its case can differ.
#[derive(Drop)]
pub enum Place {
    Status,
    Out,
    Err,
    File(String),
    /// Whether the call that is to fail there comes.
    Call(Target),
}

/// What differs: a place, whose name is lent.
#[derive(Clone, Copy, PartialEq, Eq)]
pub enum What<'a> {
    Status,
    Out,
    Err,
    File(&'a str),
    Call(Target),
}

impl<'a> What<'a> {
    /// What differs in a place.
    pub fn of(place: &'a Place) -> What<'a> {
        match place {
            Place::Status => What::Status,
            Place::Out => What::Out,
            Place::Err => What::Err,
            Place::File(name) => What::File(name.as_str()),
            Place::Call(target) => What::Call(*target),
        }
    }
}

impl fmt::Display for What<'_> {
    fn fmt<W: fmt::Write>(&self, f: &mut fmt::Formatter<W>) -> fmt::Result {
        match self {
            What::Status => write!(f, "the status"),
            What::Out => write!(f, "out"),
            What::Err => write!(f, "err"),
            What::File(name) => write!(f, "the file {name:?}"),
            What::Call(Target::Folder) => write!(f, "the call of the folder that fails"),
            What::Call(Target::Out) => write!(f, "the piece of out that fails"),
            What::Call(Target::Err) => write!(f, "the piece of err that fails"),
        }
    }
}
