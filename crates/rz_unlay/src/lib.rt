//! Bytes as rows: `read` gives exactly the row that bytes spell plainly under the fields of a type, or that there is
//! none.
//! It rests on `rz_core`, `rz_words`, `rz_expr`, `rz_bits`, `rz_types_fields`, which has the definitions of spelling
//! and the notes of names, `rz_types`, and on `rz_unlay_pieces` and `rz_unlay_texts`, which read what stands at a
//! place.
//! Fields are read from left to right; a case is found by its key, with the hints of its switch; what is learnt of
//! names is cut at the end of each row, and the places of its labels are noted after its array; the marks of late bits
//! are kept, and values are counted down, so that no more are read than a row has.
//! A new kind of field with fields within it is a case of `field_found` in `specs/Cursor` and one of `read_field` here; a
//! new kind of piece is a case of `piece_step` in `specs/Pieces`, one of `read_pieces`, and one lemma of each of the two laws
//! here.
#![tactic(auto)]

mod came;
mod cases;
mod fields;
mod found;
mod leaf;
mod points;
mod resource;
mod row;
mod rows;
mod spelled;
mod steps;
mod text;
mod tree;

pub use found::{one_plain_row, plain_rows_are_read, told_rows_are_decided};
pub use resource::{Reading, read};
pub use spelled::{
    plain_rows_are_spelled, read_rows_are_plain, spelled_bytes_are_few, spelled_rows_are_rows,
};
pub use tree::{one_tree, tree_under, trees_are_decided};
