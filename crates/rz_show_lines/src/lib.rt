//! Lines as DeRez writes them: a line of at most 512 bytes, to which bytes and tokens are appended; numbers, literals,
//! texts and words, each exactly as its definition says; texts in pieces, of which each stands on a line of its own;
//! and the parts of a header. It takes no memory. The laws say that written lines are read again: each line of written
//! tokens is cut into the tokens that are meant, wherever it stands, and so are the lines of printed items; no live
//! macro expands one of them.
//! It rests on `rz_core`, `rz_lex` and `rz_words`, which has the words of attributes, on `bitflags` for attributes, on
//! `arrayvec` for lines, and on `itoa` for numbers in decimal.
//! A new token is a case of `specs/Written`, of `token` and of `proofs/CutLine`; a new form of a number is one of
//! `Single` and of `proofs/CutLines`.
//!
//! Choices, and why:
//! - A line is written on the stack. The 512 bytes are 32 blanks, and a piece of a text of 64 bytes, each of which is
//!   shown by four at most, with what stands around it.
#![tactic(auto)]

mod head;
mod laws;
mod line;
mod single;
mod text;
mod token;

pub use head::{attributes, head_front};
pub use laws::{printed_line, printed_lines, printed_page};
pub use line::Line;
pub use single::{Single, signed_number};
pub use text::{Front, PIECE, Text};
