//! Texts, heads and `data` statements. `text_at` gives exactly the text that the tokens are, where it may stand in its
//! place, or none, and there is one at most: text tokens, words, and functions with what they are of in brackets.
//! `read_typed` reads a word and a type in front, `read_frame` the frame of `data` and `resource` statements: the word,
//! the type, the head, and what stands in the braces. `read_raw` gives the `data` statement that the tokens are: its
//! frame, and the text that is its bytes. `read_head_for` reads heads that speak of a resource that is chosen, too.
//! `whole_file` and `file_in` read the name of a file. The values of expressions are computed by who asks for them.
//! It rests on `rz_core`, `rz_lex`, `rz_words`, `rz_expr`, `rz_types_fields` and `rz_stmt_brackets`.
//! A new part of a text changes `texts` here, and what `specs/Text.antt` and `specs/Place.antt` of `rz_types_fields`
//! say of it. A new part of a frame changes `frame` here, and `rz_show` and `rz_show_laws`, which write it and read it
//! again. A new part of a head changes `head` here, `head` of `rz_tools_values`, which computes its value, and
//! `rz_show` and `rz_show_lines`, which write it.
#![tactic(auto)]

mod files;
mod frame;
mod head;
mod laws;
mod raw;
mod texts;
mod typed;

pub use files::{behind_texts, file_in, whole_file};
pub use frame::{Framed, read_frame};
pub use head::{AttrPart, AttrParts, HeadExpr, Subject, read_head, read_head_for, read_said};
pub use laws::{data_statements_are_decided, one_data, one_text, texts_are_decided};
pub use raw::{DataStmt, read_raw};
pub use texts::{TextCall, begins_text, text_at};
pub use typed::{Typed, read_typed};
