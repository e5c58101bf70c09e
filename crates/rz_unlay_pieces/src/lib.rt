//! What stands at a place of a resource as a number, as zero bits or as a label, and what these tell of the numbers of rows of
//! arrays, of the places of labels and of late bits. Each call gives exactly its definition: the value of the piece, the place
//! after it and what is known there, or that it isn't there or isn't stored so.
//! It rests on `rz_core`, `rz_words`, `rz_expr`, `rz_bits` and `rz_types_fields`.
//! Bits are read in place; what is learnt of names is one list of notes, which only grows here, and late bits are marked up to
//! the last of them. Labels that stand ahead at a known distance are looked for in the fields, and aren't noted.
//! A new kind of name is a case of `Note` of `rz_types_fields`, of `SpotEnv` and of `solve`. Texts are read in
//! `rz_unlay_texts`; the pieces of a field of whatever kind, and arrays, switches and bodies, in `rz_unlay`.
//!
//! Choices, and why:
//! - After an array the labels in its rows are kept as one list of places, row by row, until the body of the array
//!   ends: 4 bytes for each label in each row. So a label with an index takes one look into the list, however many
//!   rows there are. An array that has rows, and no labels in them, keeps nothing.
#![tactic(auto)]

mod ahead;
mod came;
mod late;
mod learnt;
mod names;
mod number;
mod seen;
mod solve;
mod spot;
mod zeros;

pub use ahead::{LabelAhead, open_size, told_label};
pub use came::{Came, Met};
pub use late::is_late_text;
pub use learnt::Learnt;
pub use names::{claim_count, claim_place, enter, learn_rows};
pub use number::{read_fixed, read_number};
pub use seen::SpotEnv;
pub use spot::Spot;
pub use zeros::{read_filler, read_zeros};
