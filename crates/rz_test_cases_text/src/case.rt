//! One case: what a run is given, and what it must leave.

use crate::place::{Place, What};
use crate::sweep::Sweep;
use std::alloc::Global;

/// One run of a command: what it is given, and what it must leave.
#[derive(Drop)]
pub struct Case {
    /// The line of its name in the case file.
    pub line: usize,
    pub name: String,
    /// The words after the program's name.
    pub words: Vec<String>,
    /// The moment of the run, in seconds since the first second of 1970, which it is unless the case states another.
    pub moment: Option<i64>,
    /// The files that are there before the run.
    pub files: Vec<Stored>,
    pub room: Room,
    pub failures: Failures,
    /// The calls that fail in turn, where the case is run once for each of them.
    pub sweep: Option<Sweep>,
    /// The exit status that is wanted. Each case states it.
    pub status: Option<u8>,
    /// The files that are wanted after the run, where they aren't those before it.
    pub left: Vec<Left>,
    /// What is wanted on standard output; nothing, unless the case states it.
    pub out: Option<Vec<u8>>,
    /// What is wanted on standard error; nothing, unless the case states it.
    pub err: Option<Vec<u8>>,
    /// The places in which the case is wrong on purpose; none, unless the case states them.
    pub wrong: Vec<Place>,
}

/// A file that is there before the run.
#[derive(Drop)]
pub struct Stored {
    pub name: String,
    pub bytes: Vec<u8>,
}

/// What a name must hold after the run, or that it must hold nothing.
#[derive(Drop)]
pub struct Left {
    pub name: String,
    pub bytes: Option<Vec<u8>>,
}

/// The calls that are to fail, one each at most.
#[derive(Clone, Copy, Default)]
pub struct Failures {
    /// The number of a call of the folder; reads and writes are counted together, from 1.
    pub folder: Option<u64>,
    pub out: Option<Piece>,
    pub err: Option<Piece>,
    /// That the run makes none of these calls; else it makes each.
    pub never: bool,
}

impl Failures {
    /// The number of the call that is to fail there.
    pub fn call(&self, target: Target) -> Option<u64> {
        match target {
            Target::Folder => self.folder,
            Target::Out => self.out.map(|piece| piece.call),
            Target::Err => self.err.map(|piece| piece.call),
        }
    }
}

/// A call of a stream that fails: a piece that it doesn't take whole, or a flush.
#[derive(Clone, Copy)]
pub struct Piece {
    /// The number of the call, from 1; pieces and flushes are counted together.
    pub call: u64,
    /// How many of its bytes are taken.
    pub taken: u32,
}

/// What has calls and room.
#[derive(Clone, Copy, PartialEq, Eq)]
pub enum Target {
    Folder,
    Out,
    Err,
}

impl Target {
    pub const ALL: [Target; 3] = [Target::Folder, Target::Out, Target::Err];
}

/// The room of the folder and of the two streams, where the case states it.
#[derive(Clone, Copy, Default)]
pub struct Room {
    pub folder: Option<FolderRoom>,
    pub out: Option<u32>,
    pub err: Option<u32>,
}

/// The room of a folder.
#[derive(Clone, Copy)]
pub struct FolderRoom {
    /// The number of files that can be written.
    pub writes: u32,
    /// The number of bytes for their names and contents.
    pub bytes: u32,
}

impl Case {
    /// A case without words and files, at the first second of 1970, that doesn't state its status yet.
    pub(crate) fn new(alloc: Global, line: usize, name: String) -> Case {
        Case {
            line,
            name,
            words: Vec::new(alloc),
            moment: None,
            files: Vec::new(alloc),
            room: Room::default(),
            failures: Failures::default(),
            sweep: None,
            status: None,
            left: Vec::new(alloc),
            out: None,
            err: None,
            wrong: Vec::new(alloc),
        }
    }

    /// What the name must hold after the run: what the case states, else what it held before.
    pub fn wanted(&self, name: &str) -> Option<&[u8]> {
        for left in &self.left {
            if left.name.as_str() == name {
                return match &left.bytes {
                    Some(bytes) => Some(bytes.as_slice()),
                    None => None,
                };
            }
        }
        self.before(name)
    }

    /// What the name holds before the run.
    pub fn before(&self, name: &str) -> Option<&[u8]> {
        for stored in &self.files {
            if stored.name.as_str() == name {
                return Some(stored.bytes.as_slice());
            }
        }
        None
    }

    /// Whether the case is wrong on purpose there.
    pub fn is_wrong_in(&self, what: What<'_>) -> bool {
        self.wrong.iter().any(|place| What::of(place) == what)
    }
}
