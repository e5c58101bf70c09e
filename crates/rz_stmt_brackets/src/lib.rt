//! The tokens of a program as statements, and the tokens of a statement as pieces, each cut in exactly one way
//! where a sign or the word `case` stands outside brackets; and how deep and how long a statement may be.
//! It rests on `rz_core`, `rz_lex`, `rz_words` and `rz_expr`.
//! `rz_stmt` cuts a store of tokens by the same definition, `specs/Statements.antt`, and changes with it.
//! What one kind of statement means stands in the crates above.
#![tactic(auto)]

mod bracket;
mod cutting;
mod kind;
mod laws;
mod limit;
mod pieces;
mod span;

pub use bracket::{Bracket, begins, bracketed};
pub use cutting::{is_empty_statement, is_end, is_semicolon, one_cutting, open_behind, statements};
pub use kind::kind_in;
pub use laws::{all_tokens_are_statements, limits_are_kept, partings_are_decided, pieces_are_cut};
pub use limit::is_within_limits;
pub use pieces::{Divider, Split, pieces_by, split_at};
pub use span::{Span, Spans};
