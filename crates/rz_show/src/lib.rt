//! Resources as DeRez shows them: as `data` statements, which give the bytes of a resource in hexadecimal, or as `resource`
//! statements with the items of a row. A statement is given line by line, without memory, or as one text. Its lines are
//! exactly their definition; that they are read as these statements again is said by the laws of `rz_show_laws`.
//! It rests on `rz_core`, `rz_lex`, `rz_words`, `rz_expr`, `rz_types_fields`, `rz_types` and `rz_show_lines`, which writes
//! lines and their tokens, and on `arrayvec` for lists that stand in each other.
//! A new part of a header changes `specs/Head` and `form` here, `head` of `rz_show_lines`, and `head` of `rz_stmt_data`. A new
//! kind of field that takes a value is a case of `field_print` in `specs/Shown` and of `entry_of` here; a new form of a
//! number is one of `by_value` here and of `Single` in `rz_show_lines`; and each is a case of the laws of `rz_show_laws`.
#![tactic(auto)]

mod entry;
mod form;
mod hidden;
mod items;
mod lines;
mod number;
mod open_list;
mod show;
mod uses;

pub use hidden::Hidden;
pub use lines::ShowLines;
pub use show::{show_bytes, show_row};
pub use uses::uses_hidden;
