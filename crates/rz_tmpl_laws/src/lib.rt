//! What the bytes of a resource say under a 'TMPL' resource: `tmpl_read` gives the row that they say, or that there is
//! none, or the first fault of the 'TMPL'.
//! What is said stands in `specs/Says`, over entries and places in the bytes alone, and `said_rows_are_plain` tells
//! that it is what the fields of the template spell.
//! It rests on `rz_core`, `rz_bits`, `rz_types_fields`, `rz_types`, `rz_tmpl`, `rz_tmpl` and `rz_unlay`.
//! A new code changes `IsPiece` in `specs/Says`, and `proofs/Pieces`.
#![tactic(auto)]

mod laws;
mod read;

pub use laws::{cut_bytes_say_their_rows, said_rows_are_plain};
pub use read::tmpl_read;
