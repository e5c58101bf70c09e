//! Text as the tools read it: the logical lines of a source, one at a time, and the tokens of a line. `Lexer`, `cut`
//! and `lex` give exactly the lines and the tokens of the definitions, or the first fault. The laws say that there is
//! exactly one answer, and that tokens that are written are cut again as they were.
//! It rests on `rz_core` and `memchr`.
//! A new kind of token changes `token` and its definitions, `rz_pre_source`, which stores tokens, and
//! docs/LANGUAGE.md.
//!
//! Choices, and why:
//! - A source owns its text and gives it line by line (`Lexer`): a file is read whole when it is opened, and of its
//!   lines only the one that is asked for is held.
#![tactic(auto)]

mod classes;
mod cover;
mod cutting;
mod digits;
mod escape;
mod extent;
mod hex;
mod joined;
mod laws;
mod lexed;
mod lexer;
mod lines;
mod raw_line;
mod runs;
mod shape;
mod sign;
mod token;

pub use classes::{is_blank, is_digit, is_hex_digit, is_letter, is_quote, is_word_byte};
pub use cover::{one_cover, parts_of_language};
pub use cutting::cut;
pub use joined::Placed;
pub use laws::{
    cut_back, every_line_is_cut, every_text_is_lexed, lines_of_page, one_cut, tokens_are_lexed,
};
pub use lexed::{lex, one_lex};
pub use lexer::Lexer;
pub use lines::{every_text_has_lines, one_list_of_lines};
pub use raw_line::RawLine;
pub use sign::Sign;
pub use token::{Shape, Token, Tokens, one_sign};
