//! Resources of a fork as `derez` shows them: which of them are shown, and the text of each, by a row of the type that
//! is declared for it or by its bytes. They are shown where they lie in the fork, and their lines are put on a sink one
//! after the other. Each list has exactly one text. It rests on `rz_core`, `rz_folder`, whose sinks take the lines,
//! `rz_fork`, which lends the resources, `rz_types`, `rz_types_table`, which finds the fields, `rz_unlay`, which reads
//! the row that bytes tell, and `rz_show`, which gives the lines; of `rz_pre` it has what it is to be among words.
//! Another form of a resource's text, or another choice of the form, changes `specs/Shown` and `shown`; what `-only`
//! and `-skip` leave, `specs/Chosen` and `chosen`.
#![tactic(auto)]

mod chosen;
mod laws;
mod shown;
mod text;

pub use chosen::is_chosen;
pub use laws::{every_list_is_shown, one_shown_text};
pub use shown::{Known, facts_of};
pub use text::ForkText;
