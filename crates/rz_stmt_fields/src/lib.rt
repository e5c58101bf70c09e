//! The fields of `type` statements as they are written, with expressions where constants stand. `front_in` gives the
//! words that a field begins with, `read_front` exactly the field that such a front begins, of those that are no
//! texts and have no fields of their own, and `read_key` the key of a case; or none. `form` has the whole statement
//! too, whose texts, arrays and switches `rz_stmt_type` reads.
//! A field begins with the words of `field_word`; after them stand values (`value`), or of a number its width, its
//! symbols and its fixed value (`number_field`, `symbols`).
//! It rests on `rz_core`, `rz_lex`, `rz_words`, `rz_expr`, `rz_types_fields` and `rz_stmt_brackets`.
//! A new kind of field changes `form` and `field_word` here, and `field`, where it has no fields of its own, each with
//! its definitions; the values of its constants in `rz_stmt_type`, and `Field` of `rz_types_fields`.
#![tactic(auto)]

mod field;
mod field_word;
mod form;
mod key;
mod laws;
mod number_field;
mod symbols;
mod value;

pub use field::read_front;
pub use field_word::{FieldWord, Front, Modifier, front_in, hex_of, text_form};
pub use form::{
    ArrayExpr, CaseExpr, CaseExprs, DeclareExpr, FieldExpr, FieldExprs, MadeExpr, Named, Names,
    NumberExpr, ScopeExpr, Width,
};
pub use key::read_key;
pub use laws::{flat_fields_are_decided, words_before_fields};
pub use symbols::name_in;
pub use value::{is_equals, read_expression};
