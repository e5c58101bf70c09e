//! BinHex 4.0: a Macintosh file as a text of letters, read and written, and the run codes beneath the letters. The
//! reader gives exactly what the text says, or the first rule that is broken; the writer gives exactly the one text of
//! a file, or why it is refused; and what was written is read as the fields that the form carries.
//! It rests on `rz_core` and `rz_bridge`.
//! What the form is stands in `specs`, which changes with it.
#![tactic(auto)]

mod body;
mod coded;
mod decoded;
mod fields;
mod hqx_in;
mod hqx_out;
mod letters;
mod text;

pub use coded::runs_write;
pub use decoded::runs_read;
pub use hqx_in::hqx_read;
pub use hqx_out::hqx_write;
