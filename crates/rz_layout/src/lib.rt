//! Rows as bytes: `lay_row` gives exactly the bytes that the values of a row spell under the fields of a type, or
//! exactly the first refusal, and there is always one of the two.
//! A row of an array and the case of a switch that is chosen are laid as bodies of their own: inside, the names of their
//! arrays have the numbers of their rows, their labels the places where they stand, and the name of the array the number of
//! the row, and after them no more; but after an array the labels in its rows are known by the numbers of the rows.
//! Numbers that name what stands later, or read late bits, are laid as zero bits first, and written in the end.
//! It rests on `rz_core`, `rz_words`, `rz_expr`, `rz_bits`, `rz_types_fields`, which has the definitions of spelling
//! and the notes of names, and `rz_types`.
//! A new kind of piece is a case of `IsStored` and of `piece_form` in `rz_types_fields`, and one of `lay_field` here. A new
//! kind of field with fields within it is a case of `FieldSpells` and of `field_laid` there, and one of `lay_field` here; a
//! new kind of name, one of `entered`, `placed` or `behind_rows` there and of `enter`, `put_place` or `lay_array` here.
//!
//! Choices, and why:
//! - What names have belongs to what is laid so far: a label has its place from there on, an array the number of its
//!   rows from the front of its body, and both end with the body. Each row and case has an environment of its own,
//!   and the known names are one list that grows and shrinks with rows, so rows in rows take no copies. A row or a
//!   case without late numbers leaves nothing but the places of a row's labels, which an index may ask for.
//! - A late number stands as zero bits until the end, with its expression. If its row or case has labels or arrays,
//!   or the array of the row has a name, their values and the number of the row are kept with it until then, since
//!   the next row has other ones. Labels of the bodies around get their places later. Late bits are marked up to the
//!   last of them, so a resource without late numbers has no marks.
#![tactic(auto)]

mod fault;
mod fields;
mod fill;
mod laid;
mod late;
mod laws;
mod names;
mod number;
mod places;
mod points;
mod push;
mod seen;
mod text;
mod valued;

pub use fault::LayFault;
pub use fields::lay_row;
pub use laws::one_spelling;
