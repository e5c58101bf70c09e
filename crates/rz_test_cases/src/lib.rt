//! Cases of a command: each of those that the files of a folder have is run over a folder and two streams in memory,
//! and what a run left is compared with what its case wants. The command is whatever has `Command`, so nothing here
//! knows the commands of rezkit; `rezkit_cases` gives it `run`. What cases are, and how their files are read, stands in
//! `rz_test_cases_text`. It rests on that, on `rz_core` and on the folder in memory of `rz_folder`, and has no code
//! that ships. What a sweep demands stands in `demand`.
#![tactic(auto)]

mod compare;
mod demand;
mod difference;
mod group;
mod runner;
mod swept;
mod tally;
mod watched;
mod world;

pub use group::run_cases;
pub use runner::Command;
pub use watched::{WatchedFolder, WatchedSink};
pub use world::World;
