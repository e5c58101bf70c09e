//! The one front of the statements: `parse` gives exactly what the tokens of a span are, or their first fault, and they
//! are one thing at most. `next_statement` takes the statements of a long list of tokens, one after the other, so that
//! only one of them is held at a time; they are exactly those that `rz_stmt_brackets` defines.
//! It rests on `rz_core`, `rz_lex`, `rz_words`, `rz_expr`, `rz_pre_source`, `rz_types`, `rz_stmt_brackets`,
//! `rz_stmt_data`, `rz_stmt_items`, `rz_stmt_lists`, `rz_stmt_fields` and `rz_stmt_type`, and hands on what the crates
//! above need of them. A new statement is a crate beside `rz_stmt_data`, `rz_stmt_items`, `rz_stmt_lists` and
//! `rz_stmt_type`, a case of `Stmt` here and one of `step` in `rz_tools`.
//!
//! Choices, and why:
//! - The form of a statement comes first, and values after, so that each of the two is one relation, and a fault of
//!   form comes before any fault of a value. Pieces between punctuation (headers, fields, cases, items) are cut
//!   first, outside further brackets, and each piece is then read whole: so an expression is told without what may
//!   follow it.
#![tactic(auto)]

mod grammar;
mod laws;
mod next;

pub use grammar::{Stmt, parse};
pub use laws::{every_statement_is_parsed, one_statement};
pub use next::next_statement;
pub use rz_stmt_brackets::{
    Span, Spans, all_tokens_are_statements, limits_are_kept, one_cutting, pieces_are_cut,
    statements,
};
pub use rz_stmt_data::{AttrPart, AttrParts, DataStmt, HeadExpr, one_text};
pub use rz_stmt_items::{Item, Items, ResourceStmt};
pub use rz_stmt_lists::{
    ChangeStmt, DeleteStmt, IncludePart, IncludeStmt, ListStmt, PickExpr, ReadStmt,
};
pub use rz_stmt_type::{Bounds, Made, TypeStmt, symbols_have_values, words_before_fields};
pub use rz_types::{number_of, text_of};
