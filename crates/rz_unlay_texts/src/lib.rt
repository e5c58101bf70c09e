//! Texts at a place of a resource: the size that a text has, how many bytes its stored form has, and its value, where those
//! bytes are stored so. Each call gives exactly its definition.
//! It rests on `rz_core`, `rz_expr`, `rz_bits` and `rz_types_fields`, which defines how texts are stored.
//! What an expression sees is the caller's `Env`, and where an open text ends the caller knows: nothing is learnt here.
//! A new form of text is a case of `plain_text` in `specs/Plain`, of `stored_size` in `specs/Texts` and of the functions of
//! these names.
#![tactic(auto)]

mod plain;
mod stored;
mod text;

pub use text::{TextCame, read_bytes, size_in, text_size};
