//! Sources before they are read, and their tokens after that. The text of a source in Mac Roman, or the offset of the
//! first bytes that can't be turned into it, and which lines are directives: each call gives exactly its definition.
//! And long lists of tokens in little memory: 16 bytes for each token, and one store for all bytes of words, literals
//! and texts; contracts see a `TokenStore`, and the reader of one, as a list of tokens, which are read from the first
//! on.
//! It rests on `rz_core` and `rz_lex`: a new kind of token there is a new `Kind` here. A new directive changes
//! `directive` here, and `line` of `rz_pre`, which does what it says.
//!
//! Choices, and why:
//! - The tokens of a program are read once, from the front. A statement is copied out when its turn comes, so one is
//!   held at a time. A token of 2^32 bytes or more, or in a file after the first 2^32, has no room in the store, and
//!   is answered as out of memory.
//! - The memory of tokens that were read is given back, since a statement's tokens and all that is made of them are
//!   held beside those that wait: once more than 4,096 places and an eighth of all are empty. Their bytes stay until
//!   the end.
#![tactic(auto)]

mod directive;
mod laws;
mod piece;
mod reader;
mod source;
mod store;

pub use directive::{Directive, directive_in, directive_text, has_parameters};
pub use laws::{directives_are_lines, every_source_is_read, one_text};
pub use reader::TokenReader;
pub use source::{BadText, to_mac_roman};
pub use store::TokenStore;
