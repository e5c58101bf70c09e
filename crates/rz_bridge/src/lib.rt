//! Macintosh files in forms of one file: MacBinary, AppleSingle and the header files of AppleDouble, read and written,
//! and the CRC that MacBinary and BinHex share. Each reader gives exactly what the fields of the form say, or the first
//! rule that is broken; each writer gives exactly the one file of the form, or why it is refused; and what was
//! written is read as the fields that the form carries.
//! Beside these stand the calls by which other forms read pieces, and what their writers refuse.
//! It rests on `rz_core`.
//! What the forms are stands in `specs`, which changes with it; a new field of a form is one in `MacBinary` or
//! `Apple`, and in the functions that read and write the header.
//!
//! Choices, and why:
//! - The table of the CRC is the definition's, entry by entry: the checker computes it.
#![tactic(auto)]

mod apple;
mod apple_in;
mod apple_out;
mod apple_rules;
mod check;
mod entry;
mod fault;
mod file;
mod macbin_in;
mod macbin_out;
mod macbin_rules;
mod place;
mod refuse;

pub use apple_in::{double_read, single_read};
pub use apple_out::{double_write, single_write};
pub use check::crc;
pub use fault::{BridgeFault, fault_at};
pub use file::{Finder, MacFile, finder_is_stored};
pub use macbin_in::macbin_read;
pub use macbin_out::macbin_write;
pub use place::{Span, piece_at, pieces_in};
pub use refuse::file_refused;
