//! How a run ends, what it writes and what it says: outcomes and their lines, warnings, answers before they are carried
//! out, and `carry_out`, which carries one out exactly as `specs/Carried.antt` says.
//! It rests on `rz_core`, `rz_folder` and `rz_tools_args`, whose faults of usage are said here. The commands make the
//! answers, in `rz_tools`.
//! A new outcome changes `Outcome`, its line in `specs/Message.antt`, and `Ends` and `SaysOf` of `specs/Carried.antt`;
//! a new option, and what a new command does, the explanation in the help text, whose usage is that of the table of
//! commands; a new warning its number in `specs/Warning.antt`.
//!
//! Choices, and why:
//! - An answer is a list of writes, and one text for each stream, so that a command that writes two files has a
//!   place. What each outcome leaves is one table (`Ends`), which a new command doesn't change.
#![tactic(auto)]

mod carry;
mod help;
mod laws;
mod made;
mod message;
mod outcome;
mod plan;
mod warning;

pub use carry::{carry_out, put_line, say_end};
pub use help::{help_text, version_text};
pub use laws::{answers_are_carried_out, no_warning_refuses, texts_stand_after_what_was_out};
pub use made::{Failing, Made};
pub use message::{NO_MEMORY, READ_FAULT, WRITE_FAULT, usage_line};
pub use outcome::Outcome;
pub use plan::{Plan, Write, Writes};
pub use warning::{Faults, say_beside, say_stop};
