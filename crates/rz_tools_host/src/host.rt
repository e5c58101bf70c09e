//! The trait of what a process is given by its host. What its calls give is in `specs/Process`.

ghost use Rattle.std.specs.Prelude.{◌≡◌, IfSome, map, option_map};
ghost use Rattle.std.specs.String.{string_bytes};
ghost use Rattle.std.specs.declared.option.Option.{Option};
ghost use Rattle.rz_core.specs.Stop.{seen};
ghost use Rattle.rz_tools_host.specs.Process.{GivesTexts, GivesValue, Process};

use rz_core::Stop;
use std::alloc::Global;

/// What the host gives isn't UTF-8.
#[derive(Clone, Copy, Debug, Drop, PartialEq, Eq)]
pub struct NotText;

/// What a process is given: its arguments, its environment and its clock.
///
/// Some hosts tell what they give, as one in memory does, and some tell nothing, as the one that runs this program.
pub trait Host {
    /// What the process is given, where the host tells it.
    ghost process: { Self → Option Process };

    /// The arguments of the process, in memory of the allocator. The first is the program's name.
    ///
    /// - `Refused` comes only where one of them isn't UTF-8.
    /// - `NoMemory` may come whenever memory is refused.
    fn args(&self, alloc: Global) -> Result<Vec<String>, Stop<NotText>>
        ensures { IfSome (process self.now) (λ told. GivesTexts told.args (seen (λ texts. map string_bytes texts.items) result)) };

    /// What the environment has for that name, in memory of the allocator; `None` where it has nothing.
    ///
    /// - `Refused` comes only where that isn't UTF-8.
    /// - `NoMemory` may come whenever memory is refused.
    fn variable(&self, alloc: Global, name: &str) -> Result<Option<String>, Stop<NotText>>
        ensures { IfSome (process self.now) (λ told. GivesValue (told.variables name.now) (seen (option_map string_bytes) result)) };

    /// The whole seconds since the first second of 1970 in UTC, where the clock tells them.
    fn clock(&self) -> Option<i64>
        ensures { IfSome (process self.now) (λ told. result ≡ told.clock) };
}
