//! What `$$Format` of MPW Rez gives: its text, in which each conversion, a percent sign with a letter, is filled by
//! one argument. The call gives exactly its definition, or is out of memory. The laws say that a text without a
//! percent sign is copied, and that a text takes one argument for each conversion.
//! It rests on `rz_core` and the standard library. The arguments come as numbers and texts: whoever calls has their
//! values, and makes a fault where nothing is given.
//! What is given is defined in `specs/Format.antt`, and what the code holds on its way in `specs/Filling.antt`. A new
//! conversion is a case of `converted` there and in `convert.rt`.
#![tactic(auto)]

mod convert;
mod format;
mod laws;

pub use format::{Argument, Arguments, formatted};
pub use laws::{digits_are_the_number, one_argument_a_conversion, plain_text_is_copied};
