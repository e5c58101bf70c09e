//! The statements over lists of resources: `include`, `read`, `change` and `delete`. `read_list` gives exactly the
//! statement that the tokens are, or none, and there is one at most. Which resources are meant, and the values of heads
//! and picks, are for who carries them out.
//! It rests on `rz_core`, `rz_lex`, `rz_words`, `rz_expr`, `rz_types_fields`, `rz_stmt_brackets` and `rz_stmt_data`.
//! What may stand in heads and picks is said in `specs/Head.antt` of `rz_stmt_data` and `specs/Place.antt` of
//! `rz_types_fields`, and changes there.
#![tactic(auto)]

mod brackets;
mod change;
mod clause;
mod delete;
mod include;
mod laws;
mod lists;
mod pick;
mod read;
mod renaming;

pub use change::ChangeStmt;
pub use delete::DeleteStmt;
pub use include::{IncludePart, IncludeStmt};
pub use laws::{list_statements_are_decided, one_list};
pub use lists::{ListStmt, read_list};
pub use pick::PickExpr;
pub use read::ReadStmt;
