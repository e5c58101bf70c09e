//! `type` statements. `read_declare` gives exactly the statement that the tokens are, with expressions where
//! constants stand, or none; `value_declare` gives these their values from left to right, or the first fault.
//! A body leads back to itself, by arrays and switches: `body` reads it with the fields that have fields of their
//! own, whose first words stand in `start` and what stands before their braces or their fields in `head`; the labels in
//! front of fields stand in `label`. `flat` reads texts, and asks `rz_stmt_fields` for the other fields; the keys of cases
//! and the form of the statement stand there too.
//! It rests on `rz_core`, `rz_lex`, `rz_words`, `rz_expr`, `rz_types_fields`, `rz_stmt_brackets`, `rz_stmt_data` and
//! `rz_stmt_fields`.
//! A new kind of field changes `form` of `rz_stmt_fields`, `field` there (or `start` and `body` here, where it has fields of
//! its own) and `constants` here, each with its definitions, and `Field` of `rz_types_fields`.
#![tactic(auto)]

mod body;
mod constants;
mod declare;
mod flat;
mod head;
mod label;
mod laws;
mod start;
mod values;

pub use constants::{Bounds, Made, TypeStmt, value_declare};
pub use declare::read_declare;
pub use laws::{
    declarations_are_shaped, one_declare, symbols_have_values, type_statements_are_decided,
};
pub use rz_stmt_fields::{
    ArrayExpr, CaseExpr, CaseExprs, DeclareExpr, FieldExpr, FieldExprs, MadeExpr, Named, Names,
    NumberExpr, ScopeExpr, Width, words_before_fields,
};
