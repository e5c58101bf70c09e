//! A command, and a run of it by a case.

use crate::world::World;
use rz_test_cases_text::{Case, Failures, Trouble};
use std::alloc::Global;

/// A command whose cases are run.
pub trait Command {
    /// Runs the command of these words, those after the program's name, over the folder and the streams of the world,
    /// at its moment. It gives the exit status.
    fn run(&self, alloc: Global, words: &[String], world: &mut World) -> u8;
}

/// What a run left.
#[derive(Drop)]
pub struct Ran {
    /// The calls that were to fail.
    pub failures: Failures,
    pub status: u8,
    pub world: World,
}

/// Runs the command of a case over a folder and two streams in memory, where these calls fail.
pub fn run_with<C: Command>(
    alloc: Global,
    command: &C,
    case: &Case,
    failures: Failures,
) -> Result<Ran, Trouble> {
    let mut world = World::before(alloc, case, failures)?;
    let status = command.run(alloc, &case.words, &mut world);
    if world.folder.is_short {
        drop(world);
        return Err(Trouble::NoMemory);
    }
    Ok(Ran {
        failures,
        status,
        world,
    })
}
