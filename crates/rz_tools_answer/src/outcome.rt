//! How a run ends, and the exit status of each end, as `specs/Outcome` says.

ghost use Rattle.std.specs.Prelude.{◌≡◌};
ghost use Rattle.rz_tools_answer.specs.Outcome.{status_of};

use rz_core::Fault;
use rz_tools_args::UsageFault;

/// How a run ended.
#[derive(Debug, Drop)]
pub enum Outcome {
    /// All that was asked for is done.
    Done,
    /// The words are no command.
    Usage(UsageFault),
    /// A rule is broken; this is the first one.
    Refused(Fault),
    /// A file could not be read.
    ReadFault,
    /// A file or the output could not be written.
    WriteFault,
    /// Memory was refused.
    NoMemory,
}

impl Outcome {
    /// The exit status of the program: 0 for Done, 1 for Usage, 2 for Refused, 3 for ReadFault and
    /// WriteFault, 4 for NoMemory.
    pub fn status(&self) -> u8
        ensures { result ≡ status_of self.now }
    {
        match self {
            Outcome::Done => 0,
            Outcome::Usage(_) => 1,
            Outcome::Refused(_) => 2,
            Outcome::ReadFault | Outcome::WriteFault => 3,
            Outcome::NoMemory => 4,
        }
    }
}
