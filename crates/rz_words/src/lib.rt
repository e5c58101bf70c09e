//! Words: what a word of the language may be. `role_of`, `keyword_of` and `attribute_word` give exactly their
//! definitions, and a law says that each word of the tables is read as what it is, in whatever case.
//! It rests on `rz_core`.
//! Reserved words are one table (`keyword`), the words of attributes another (`attribute`), which `rz_stmt_data` reads
//! and `rz_show_lines` writes, and the names of `$$` functions a third (`words`). A new word changes its table, the
//! definition beside it, and docs/LANGUAGE.md.
//!
//! Choices, and why:
//! - Words are tables: reserved words (`Keyword`) and words of attributes, which identifiers, the grammar and the
//!   shown text cite. What a constant is stands in `rz_expr`.
#![tactic(auto)]

mod attribute;
mod keyword;
mod laws;
mod words;

pub use attribute::{
    ATTRIBUTES, Attribute, AttributeWord, attribute_word, bit_of, clearing_word, setting_word,
};
pub use keyword::{Keyword, keyword_named, keyword_of, spelling};
pub use laws::{attribute_words_are_spelled, keywords_are_spelled};
pub use words::{FactWord, Function, Role, TextWord, role_of};
