//! The fields of type declarations, and what a resource gives them: numbers and strings with their ranges, the parts of
//! strings and where they may stand, the values of expressions with the facts of a resource, the expressions of a field in
//! one list, the names in them with the notes of the numbers of rows and of the places of labels, fixed widths and the
//! keys of cases, how values are stored, and rows of values with the bytes that they spell. Each call gives exactly its
//! definition. Definitions alone are the shape of fields, their pieces, the names that fields give values, what an
//! expression sees at a place and which numbers are late, how a name is solved, when values are a row of fields, and which
//! bytes they are laid as, piece after piece and then the late numbers, or where they are refused first. The rules that the
//! fields of a type keep stand in `rz_types`, where a type is found in `rz_types_table`; `rz_stmt_items` makes a row of
//! items, `rz_layout` bytes of a row, and `rz_unlay` a row of bytes.
//! It rests on `rz_core`, `rz_bits`, `rz_types_format`, `rz_lex`, `rz_words` and `rz_expr`.
//! A new kind of field changes `Field` and its mirror `PlainField`, the shape, the pieces and the width here, its value in
//! `specs/Row` and `Tree`, its stored form in `specs/Spells` and how it is laid in `specs/Laid`, the rules and whether it is
//! read in `rz_types`, the walk in `rz_types_check`, its form in `rz_stmt_fields` and, for
//! strings and what has fields within it, in `rz_stmt_type`, which has the values of constants too, the item that fits it
//! in `rz_stmt_items`, and what `rz_layout` lays. A new kind of name is a case of `Key` in `rz_expr` and of `Note`; one that
//! a field gives, of `gives_key`. A new kind of value is a variant of `Tree`, with a call of `rz_types::values`.
//!
//! Choices, and why:
//! - What only few parts of a string have is boxed: the file, type and key of a `$$Resource`, and a format with its
//!   arguments. So each of millions of plain parts takes 32 bytes, and the memory of all text tokens at the front of
//!   a string is taken at once.
#![tactic(auto)]

mod expressions;
mod field;
mod hints;
mod keys;
mod lower;
mod name_key;
mod names;
mod notes;
mod place;
mod range;
mod solve;
mod stored;
mod symbol_list;
mod text;
mod tree;
mod value;
mod width;

pub use expressions::{expressions_of, format_expressions, text_expressions};
pub use field::{
    ArrayField, Body, Case, Cases, Exprs, Field, NumField, NumForm, PointField, Radix, Symbol,
    TextField, TextForm, takes_value,
};
pub use hints::{CaseHints, switch_of};
pub use keys::{CaseKey, case_keys, key_bits};
pub use name_key::{declares, gives_key, is_label, is_predefined, is_same_key, states};
pub use names::{InRow, Note, note_front, note_rows};
pub use notes::{NamesEnv, Notes, is_met, is_noted, value_noted};
pub use place::{TextPlace, may_say, may_stand};
pub use range::{fits_number, may_be_size, own_width};
pub use solve::{Standing, standing_of};
pub use stored::{is_too_long, stored_number};
pub use symbol_list::Symbols;
pub use text::{
    FileResource, Format, FormatArg, FormatArgs, ResKey, TextPart, Texts, text_of, text_seen,
};
pub use tree::{Numbers, Row, RowList, Tree};
pub use value::{
    constant_value, fact_of, is_field_expression, is_fixed_expression, is_item_expression,
    is_size_expression, number_of, symbol_number_of,
};
pub use width::{fixed_width, fixed_widths, sized_bytes, text_width};
