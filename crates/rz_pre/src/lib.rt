//! Sources as one program: included files, conditionals and macros. Over a folder that tells its files,
//! `preprocess` gives exactly the program that the named files mean, or the first fault, and there is one of them
//! at most, and no name is read but those of `specs/Reached.antt`. Over every folder no file changes, and each mark is
//! of an opened file.
//! It rests on `rz_core`, `rz_folder`, `rz_lex`, `rz_words`, `rz_expr`, `rz_pre_source` and `indexmap`.
//! What a program means is `specs/Program.antt`; a new directive changes `line`, and `directive` of `rz_pre_source`.
//! The laws above it, in the words of the language, stand in `rz_pre_laws`.
//!
//! Choices, and why:
//! - An included file is read where its line stands, so the recursion of the call over the at most sixteen open files
//!   is the stack of the sources: each call owns one, and its text goes when the call returns. A stack in a list of
//!   its own would hold the same, and show nothing more.
//! - Macros stand in an `IndexMap`, so that the work stays in proportion to them. A macro keeps its row when it is
//!   defined again or undefined, so a position stays right while an identifier is replaced.
#![tactic(auto)]

mod act;
mod condition;
mod conditional;
mod copy;
mod expanded;
mod expansion;
mod laws;
mod line;
mod macros;
mod open;
mod program;
mod reading;
mod unfolding;

pub use condition::Tool;
pub use laws::{one_expansion, one_program};
pub use open::text_of;
pub use program::{Def, Defs, Failure, Program};
pub use unfolding::preprocess;
