//! Type declarations: templates, which keep the rules, and which of them can be read. A body is a template exactly where
//! it breaks no rule, as `check` of `rz_types_check` finds out; a template can be read exactly where its bytes say where
//! each field ends, and then a label with an index is one of an array that has ended. `values` takes the values of a row
//! one after another, `case_named` finds a case by its name. What it rests on of fields is handed on. In which
//! declaration a type is found stands in `rz_types_table`.
//! It rests on `rz_core`, `rz_types_format`, `rz_expr` and `rz_types_fields`.
//! A new rule changes the definitions of the rules and the walk, `specs/Kept`, and the code in `rz_types_check`; a new kind of
//! field, `least`, `readable` and each rule that speaks of it, beside what `rz_types_fields` says; a new kind of name,
//! `PassedNotes` and what they mean, and `specs/Names`.
//!
//! Choices, and why:
//! - A body has its shape from the grammar (`Shape.is_well_shaped`): that widths fit types, that symbols are in their
//!   range, that arrays and switches stand at most 60 deep. `check` of `rz_types_check` tests only what the grammar
//!   leaves open, and nothing else makes a template; so whoever is lent one knows that it keeps the rules.
#![tactic(auto)]

mod ahead;
mod cases;
mod laws;
mod least;
mod passed;
mod readable;
mod rules;
mod template;
pub mod values;

pub use cases::case_named;
pub use laws::{first_broken_rule, keys_stand_apart, named_values_are_there, rules_hold_within};
pub use readable::{is_body_readable, is_readable};
pub use rules::TypeFault;
pub use rz_types_fields::{
    ArrayField, Body, Case, CaseHints, Field, NumField, NumForm, PointField, Radix, Symbol,
    Symbols, TextField, TextForm, TextPart, Texts, fact_of, fits_number, is_too_long, may_be_size,
    number_of, stored_number, symbol_number_of, takes_value, text_of, text_seen,
};
pub use template::Template;
