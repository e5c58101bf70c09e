//! What is told of a file. `FileText` is what `list` tells: a line for each fact that the file's form carries, and a
//! line for each resource of its fork. It puts exactly the text that `specs/Text` defines, with dates as `specs/Date`
//! has them, and takes no memory: names, which are never broken over lines, go out in pieces. `Det` is what `det`
//! tells: every broken rule of a fork, one after the other and without memory, exactly the list that `rz_fork` defines
//! in its `specs/Breaks`, of which admission gives the first. `breaks_text` makes a text of it (`specs/BreaksText`),
//! which takes memory; what is still to be given stands in `specs/Left`.
//! It rests on `rz_core`, `rz_folder`, whose sinks take the text, `rz_fork`, which lends the resources and has the
//! readers and the rules of forks, `rz_bridge`, `rz_bridge_files`, and `rz_show_lines`, whose lines it writes; on
//! `itoa` for numbers in decimal, and for definitions on `rz_lex` and `jiff_core`.
//! A new fact of a form is a line of `specs/Text`, of `specs/Parts` and of `facts`; a new rule of forks begins in
//! `rz_fork`, and is here one of `heads` or `lists`.
#![tactic(auto)]

mod breaks;
mod date;
mod det;
mod facts;
mod heads;
mod lists;
mod number;
mod put;
mod resource;
mod text;

pub use breaks::{breaks_text, rule_name};
pub use det::Det;
pub use text::FileText;
