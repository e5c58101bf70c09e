//! The edge to the host before a run: the words and the moment that its process is given, or why no run begins. A
//! `Host` gives the arguments, the variables of the environment and the clock. What is made of them is proved over
//! each host that tells what it gives, as `specs/Given` says: which words and which moment a run has, and when and
//! with which line and status none begins. `MemHost` is a host in memory. `RealHost` is the process that runs: it
//! hands on what std gives, and is trusted and tested, in `tests`, over runtimes that give what they are told. It
//! rests on `rz_core` and `rz_tools_args`. `begin` of `rz_tools` runs the command with what `given` gives it. A
//! status of its own, as 5, stands in the help text of `rz_tools_answer`, in docs/LANGUAGE.md and docs/MESSAGES.md
//! too.
#![tactic(auto)]

mod epoch;
mod hindrance;
mod host;
mod mem_host;
mod real_host;
mod start;
#[cfg(test)]
mod tests;

pub use hindrance::Hindrance;
pub use host::{Host, NotText};
pub use mem_host::MemHost;
pub use real_host::RealHost;
pub use start::{Start, given};
