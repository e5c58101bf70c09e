//! The text of DeRez is read again: its lines are cut into the tokens that are meant, as `rz_show_lines` says, and
//! these are the statements of the resources that are shown, the items of a row as items that fit it. Laws alone, with
//! nothing to run; what shows text doesn't stand on them.
//! It rests on `rz_core`, `rz_lex`, `rz_words`, `rz_expr`, `rz_types_fields`, `rz_types`, `rz_stmt_brackets`,
//! `rz_stmt_data`, `rz_stmt_items`, `rz_show_lines` and `rz_show`.
//! A new form of a number or a kind of field begins in `rz_show`, and is here a case of what printed items mean
//! (`proofs/Items`); a new part of a head is one of `proofs/Heads`.
#![tactic(auto)]

mod laws;

pub use laws::{printed_rows, shown_text, spelled_texts};
