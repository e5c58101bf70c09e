//! What a run of a case is given: a folder and two streams in memory, and the moment.

use crate::watched::{WatchedFolder, WatchedSink};
use rz_core::Moment;
use rz_folder::{HeldSink, MemFolder, MemSink};
use rz_test_cases_text::{Case, Failures, FolderRoom, Piece, Target, Trouble};
use std::alloc::Global;

/// The most bytes of a file.
const MOST_BYTES: usize = 100_000_000;

/// The room of a folder of which a case says nothing.
const AMPLE_FOLDER: FolderRoom = FolderRoom {
    writes: 100,
    bytes: 1_000_000,
};

/// The room of the output where a case says nothing of it.
const AMPLE_OUT: u32 = 1_000_000;

/// The room of the stream of messages where a case says nothing of it.
const AMPLE_ERR: u32 = 100_000;

/// What a run is given, and afterwards what it left.
#[derive(Drop)]
pub struct World {
    pub folder: WatchedFolder,
    pub out: WatchedSink,
    pub err: WatchedSink,
    /// The moment of the run, which counts as the date of what it writes.
    pub moment: Moment,
}

impl World {
    /// The world of a case before its run, in which these calls are to fail. `Malformed` comes where the moment is
    /// outside 1904 to 2039, or a file is too long.
    pub(crate) fn before(alloc: Global, case: &Case, failures: Failures) -> Result<World, Trouble> {
        let Some(moment) = Moment::of_unix(case.moment.unwrap_or(0)) else {
            return Err(flaw(case, "the moment is outside 1904 to 2039"));
        };
        let out = sink_of(alloc, case.room.out.unwrap_or(AMPLE_OUT), failures.out)?;
        let err = match sink_of(alloc, case.room.err.unwrap_or(AMPLE_ERR), failures.err) {
            Ok(err) => err,
            Err(trouble) => {
                drop(out);
                return Err(trouble);
            }
        };
        match folder_of(alloc, case, failures.folder) {
            Ok(folder) => Ok(World {
                folder: WatchedFolder::over(alloc, folder),
                out,
                err,
                moment,
            }),
            Err(trouble) => {
                drop(out);
                drop(err);
                Err(trouble)
            }
        }
    }

    /// How many calls there were so far of the folder or of a stream.
    pub(crate) fn calls(&self, target: Target) -> u64 {
        match target {
            Target::Folder => self.folder.calls,
            Target::Out => self.out.calls,
            Target::Err => self.err.calls,
        }
    }
}

/// The folder before the run.
fn folder_of(alloc: Global, case: &Case, failing: Option<u64>) -> Result<MemFolder, Trouble> {
    let mut folder = MemFolder::new(alloc);
    if let Some(call) = failing {
        folder.fail_at(call);
    }
    match fill(case, &mut folder) {
        Ok(()) => Ok(folder),
        Err(trouble) => {
            drop(folder);
            Err(trouble)
        }
    }
}

/// Gives a folder the room and the files of a case.
fn fill(case: &Case, folder: &mut MemFolder) -> Result<(), Trouble> {
    let room = case.room.folder.unwrap_or(AMPLE_FOLDER);
    folder.reserve(room.writes, room.bytes)?;
    for stored in &case.files {
        if stored.bytes.len() > MOST_BYTES {
            return Err(flaw(case, "a file is too long"));
        }
        folder.insert(stored.name.as_str(), stored.bytes.as_slice())?;
    }
    Ok(())
}

/// A stream before the run.
fn sink_of(alloc: Global, room: u32, failing: Option<Piece>) -> Result<WatchedSink, Trouble> {
    let mut sink = MemSink::new(alloc);
    sink.reserve(room)?;
    if let Some(piece) = failing {
        sink.fail_at(piece.call, piece.taken);
    }
    Ok(WatchedSink::over(HeldSink::over(sink)))
}

/// That the case can't be run as it is stated.
fn flaw(case: &Case, what: &'static str) -> Trouble {
    Trouble::Malformed {
        line: case.line,
        what,
    }
}
