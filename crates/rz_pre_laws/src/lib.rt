//! What a program means, in the words of the language: each token has an expansion, each line does something, the named
//! files have an answer; the lines of included files stand where they are included; of each conditional the chosen part
//! is read; a name stands for what its last definition gives it, and no reserved word is ever live; the tokens are such
//! as lines can be cut into; sources that don't ask for the tool mean the same to both. Laws alone, with nothing to
//! run; the preprocessor doesn't stand on them.
//! It rests on `rz_core`, `rz_folder`, `rz_lex`, `rz_words`, `rz_expr`, `rz_pre_source` and `rz_pre`.
//! A new directive is a case of what lines do (`specs/Line` of `rz_pre`), and of the laws that speak of each.
//!
//! Choices, and why:
//! - There are two meanings of a program, proved to be one. `Program` follows files and lines as they nest, and the
//!   code is proved against it; `Unfolding` is one list of what is read. `one_list_of_entries` says both ways that
//!   they are one.
#![tactic(auto)]

mod laws;

pub use laws::{
    chosen_parts, every_line_acts, every_program_has_an_answer, every_token_expands,
    last_definition, live_names_are_free, one_list_of_entries, programs_are_lexed, programs_go_on,
    tools_agree, unclosed_conditional,
};
