//! The words of a command line as a command. `read_words` gives exactly the command that they are, or the
//! position of the first word that can't stand where it stands; they are one command at most.
//! It rests on `rz_core`, `rz_lex`, `rz_words`, `rz_expr`, `rz_pre_source`, `rz_pre` and `rz_bridge_files`.
//! What a command takes is a line of one table, `syntax_of`, with its definition; a new option is a variant of `Flag`
//! or `Switch`, and the commands that take it name it in their lines.
//!
//! Choices, and why:
//! - The answer to arguments is a relation, as what tokens a line has; that there is one, and only one, are laws. So
//!   `run` speaks of it also if a run ends with a read fault or out of memory.
#![tactic(auto)]

mod command;
mod definition;
mod flag;
mod form;
mod item;
mod kind;
mod laws;
mod line;
mod name;
mod number;
mod read;
mod roman;
mod syntax;

pub use command::{Command, Items, Kinds};
pub use flag::{Flag, Sort, Switch};
pub use item::{Item, Value};
pub use laws::{
    definitions_are_free, definitions_are_lexed, every_list_of_words_is_read, one_command,
    words_of_forms_are_read,
};
pub use name::CommandName;
pub use number::number_told;
pub use read::{UsageFault, read_words};
pub use syntax::{COMMANDS, Places, Syntax, syntax_of};
