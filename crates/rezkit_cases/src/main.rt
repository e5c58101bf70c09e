//! Runs cases of commands: each is the words of a command, the files that are there, and what the run must leave.
//! What differs is printed with what was wanted and what came, then the number of cases and of those that differ. A sweep
//! is a case that is run once for each call that fails in turn.
//! The status is 1 if one differs or a case file can't be read. The cases are the files `*.cases` of the folder
//! that is the one argument, else of the current one; README.md has their format.
//! It rests on `rz_tools`, whose `run` it calls, and on `rz_test_cases`, which has all that doesn't call it, and is not
//! handed out. A case that is added changes the file `stdout`.
#![tactic(auto)]

use anyhow::Result;
use rz_test_cases::{Command, World, run_cases};
use rz_tools::run;
use std::alloc::Global;
use std::env;
use std::process::ExitCode;

/// The commands of rezkit.
struct Rezkit;

impl Command for Rezkit {
    fn run(&self, alloc: Global, words: &[String], world: &mut World) -> u8 {
        let World {
            folder,
            out,
            err,
            moment,
        } = world;
        run(alloc, words, folder, out, err, *moment).status()
    }
}

fn main(rt: HostRuntime) -> Result<ExitCode> {
    let folder = env::args(&rt)?.nth(1);
    let folder = folder.as_ref().map_or(".", |word| word.as_str());
    run_cases(&rt, folder, &Rezkit)
}
