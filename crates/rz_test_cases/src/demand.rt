//! What a run of a sweep must leave of which a call failed.

use rz_test_cases_text::{Case, Sweep, Target, Trouble};
use std::alloc::Global;

/// What is said of a read that failed.
const READ_FAULT: &[u8] = b"rezkit: read fault\n";

/// What is said of a write that failed, or of a call of the output.
const WRITE_FAULT: &[u8] = b"rezkit: write fault\n";

/// The status of a run of which a read, a write or a call of the output failed.
const FAULT: u8 = 3;

/// Which files a run must leave.
#[derive(Clone, Copy, PartialEq, Eq)]
pub enum Files {
    /// All as before the run.
    Before,
    /// Those that were written as the case wants them, and all others as before.
    Written,
    /// All as the case wants them.
    Wanted,
}

/// What a stream must hold.
#[derive(Drop)]
pub struct Held {
    pub bytes: Vec<u8>,
    /// Whether a front of the bytes will do.
    pub is_front: bool,
}

/// What a run must leave of which a call failed.
#[derive(Drop)]
pub struct Demand {
    pub status: Option<u8>,
    pub files: Files,
    pub out: Held,
    pub err: Held,
}

impl Demand {
    /// What the run of this number must leave, whose call of this number failed: after a read all files as before, no
    /// output, and the line of a read fault alone; after a write the files before it, all that the command says, and
    /// the line of a write fault; after a call of the output a front of it, and that line too; and after a call for
    /// what is said only a front of it.
    pub fn of(alloc: Global, sweep: &Sweep, case: &Case, run: u64) -> Result<Demand, Trouble> {
        let out = stated(alloc, &case.out)?;
        let mut err = stated(alloc, &case.err)?;
        if sweep.target == Target::Err {
            return Ok(Demand {
                status: case.status,
                files: Files::Wanted,
                out: whole(out),
                err: front(err),
            });
        }
        if run <= u64::from(sweep.reads) {
            return Ok(Demand {
                status: Some(FAULT),
                files: Files::Before,
                out: whole(Vec::new(alloc)),
                err: whole(bytes_of(alloc, READ_FAULT)?),
            });
        }
        err.extend_from_slice(WRITE_FAULT)?;
        Ok(Demand {
            status: Some(FAULT),
            files: if sweep.target == Target::Folder {
                Files::Written
            } else {
                Files::Wanted
            },
            out: front(out),
            err: whole(err),
        })
    }
}

/// What a stream must hold, whole.
fn whole(bytes: Vec<u8>) -> Held {
    Held {
        bytes,
        is_front: false,
    }
}

/// What a stream must hold, or a front of it.
fn front(bytes: Vec<u8>) -> Held {
    Held {
        bytes,
        is_front: true,
    }
}

/// What a case states of a stream: nothing, unless it says more.
fn stated(alloc: Global, stream: &Option<Vec<u8>>) -> Result<Vec<u8>, Trouble> {
    match stream {
        Some(bytes) => bytes_of(alloc, bytes.as_slice()),
        None => Ok(Vec::new(alloc)),
    }
}

/// A copy of these bytes.
fn bytes_of(alloc: Global, bytes: &[u8]) -> Result<Vec<u8>, Trouble> {
    let mut copy = Vec::new(alloc);
    copy.extend_from_slice(bytes)?;
    Ok(copy)
}
