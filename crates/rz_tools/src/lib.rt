//! The commands of rezkit: what the words ask for, and the run that does it. `begin` is the program: it runs the
//! words that its host gives (`specs/Begin.antt`). `run` carries out the answer to these words
//! (`specs/Program.antt`), and words have exactly one answer. What `derez` shows of a fork means again to `rez` the
//! resources that it shows, if each has at most 16,777,212 bytes. What `strings` lists of a fork gives its resources
//! again, or 219, and of the values of resources `restring` changes texts alone. It rests on all crates below it: of
//! `rz_tools_answer` it has how an answer is carried out, of `rz_tools_resource` and `rz_tools_work` what single
//! statements give and do, of `rz_tools_output` what is written, of `rz_tools_text` how resources are shown, and of
//! `rz_catalog` what their texts are. The folder, the streams and the moment are arguments of `run`, and the folder,
//! the streams and the host of `begin`. A new command is a module beside `rez` and `derez`, or in `rz_tools_output`
//! as `bridge` and `det` are, and a case of `answer` and of the answers in `specs`, and of `Reply` if its text is to
//! be put line by line; a new statement is a case of `step`. docs/PROOFS.md lists the promises.
#![tactic(auto)]

mod answer;
mod derez;
mod laws;
mod list;
mod listed;
mod process;
mod program;
mod reply;
mod restring;
mod rez;
mod sample;
mod sources;
mod step;
mod strings;
mod types;

pub use laws::{
    catalogues_are_put_back, every_answer, one_answer, shown_forks_are_compiled_again,
    shown_forks_are_read_again,
};
pub use process::begin;
pub use program::run;
pub use rz_tools_answer::{Outcome, answers_are_carried_out};
pub use rz_tools_args::UsageFault;
