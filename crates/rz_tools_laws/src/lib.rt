//! What the commands promise beside what a run needs: what type files declare is a template, so `derez` shows a
//! resource in a `resource` statement exactly if its bytes tell a row of the fields that are declared for it; what it
//! shows is compiled after the same type files to the same resources; what `strings` lists is put back by `restring`
//! and changes nothing, or is 219; what `rez` writes raw is found to be raw; and the items of a command of `bridge` say
//! all that it asks for. Laws alone, with nothing to run; nothing stands on them. It rests on `rz_tools` and on the
//! crates whose words it speaks. A new statement that declares types is a case of what `rz_tools` proves of the table
//! (`proofs/EveryMeaning` there) and of `shaped_statement` here (`proofs/Templates`), and one of `only_declares`
//! (`specs/Behind`).
//! `statement_laws`: statements one after the other, in the words of the language: what is a statement ends with its
//! `;`, so what stands after it begins another. A new statement is a case of what ends (`proofs/Ends`). `texts`: what
//! `strings` answers of the file that `restring` wrote. `sample`: what `sample` answers for each count that it takes:
//! four numbers, those of an explicit list of resources. If the source of a sample changes (`specs/SampleSource` of
//! `rz_tools`), so do `specs/Fields` and `proofs/Lines`.
//!
//! Choices, and why:
//! - The round trip is a law of definitions: what is admitted, shown and read means the same. What `run` says of
//!   `derez` follows, and no code carries it along.
#![tactic(auto)]

mod laws;
mod sample;
mod statement_laws;
mod texts;

pub use laws::{
    bridges_are_asked_for_all, declared_rows_are_shown, declared_types_are_templates,
    own_strings_change_nothing, raw_outputs_are_found, shown_forks_are_compiled_behind_types,
    shown_forks_are_read_back, shown_forks_are_written_back, type_files_agree,
};
pub use sample::{samples_are_answered, samples_are_made};
pub use statement_laws::statements_go_on;
pub use texts::changed_texts_are_listed;
