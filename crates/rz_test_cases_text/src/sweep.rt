//! A sweep: a case that is run once for each call that fails in turn, and once more, where none does.

ghost use Rattle.std.specs.Prelude.{◌<◌, ◌^◌};

use crate::case::{Failures, Piece, Target};

/// The most reads of a sweep, and the most writes or calls of a stream.
const MOST_CALLS: u32 = 100_000;

/// The calls of the folder or of a stream that fail in turn, one in each run.
#[derive(Clone, Copy)]
pub struct Sweep {
    pub target: Target,
    /// The number of reads of the folder, which come before its writes; 0 for a stream.
    pub reads: u32,
    /// The number of writes of the folder, or of calls of the stream.
    pub puts: u32,
    /// How many bytes a piece takes that fails.
    pub taken: u32,
}

impl Sweep {
    /// Whether it has few enough calls to be run.
    pub(crate) fn is_short(&self) -> bool {
        self.reads <= MOST_CALLS && self.puts <= MOST_CALLS
    }

    /// The number of calls that fail in turn.
    pub fn calls(&self) -> u64
        ensures { result < 2 ^ 33 }
    {
        u64::from(self.reads) + u64::from(self.puts)
    }

    /// Whether the run of this number, from 1, is the one after all calls, in which none fails.
    pub fn is_last(&self, run: u64) -> bool {
        run > self.calls()
    }

    /// The failures of the run of this number, from 1. In the last one the call that is named never comes.
    pub fn failures(&self, run: u64) -> Failures {
        let piece = Piece {
            call: run,
            taken: self.taken,
        };
        Failures {
            folder: (self.target == Target::Folder).then_some(run),
            out: (self.target == Target::Out).then_some(piece),
            err: (self.target == Target::Err).then_some(piece),
            never: self.is_last(run),
        }
    }
}
