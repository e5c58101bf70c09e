//! `resource` statements: their headers and their items, as they are written, and the items under the fields of a type.
//! `read_compile` gives exactly the statement that the tokens are, or none, and there is one at most. `match_items` gives
//! exactly the row that the items are, or exactly their first fault; there is always one of them, and never two.
//! It rests on `rz_core`, `rz_lex`, `rz_words`, `rz_expr`, `rz_types_format`, `rz_types_fields`, `rz_types`,
//! `rz_stmt_brackets` and `rz_stmt_data`.
//! A new form of an item changes `Item` and its mirror `PlainItem`, the grammar in `specs/Items.antt`, and each module
//! that takes an item. A new kind of field changes `matching` and its module here, `Fits`, `Unfit` and `Matched` of the
//! definitions, and `Row` of `rz_types_fields`.
#![tactic(auto)]

mod compile;
mod fault;
mod group;
mod item;
mod items;
mod laws;
mod matching;
mod number;
mod simple;
mod text;

pub use compile::{ResourceStmt, read_compile};
pub use item::{Item, Items};
pub use laws::{
    items_are_within, matched_rows_are_rows, one_compile, one_match,
    resource_statements_are_decided,
};
pub use matching::match_items;
