//! A folder and a stream in memory that count their calls; the folder also keeps the names of the files that are
//! written, and the stream holds back what is put until a flush.

ghost use Rattle.std.specs.Prelude.{Some};
ghost use Rattle.rz_folder.specs.HeldSink.{stream_of};

use rz_folder::{Folder, HeldSink, MemFolder, Put, Read, Sink, Written};
use std::alloc::Global;

/// A folder in memory whose calls are counted, and of which it is known which files were written.
#[derive(Drop)]
pub struct WatchedFolder {
    pub folder: MemFolder,
    /// The number of calls so far, reads and writes together.
    pub calls: u64,
    /// The names of the files that were written, in turn.
    pub written: Vec<String>,
    /// Whether memory was refused for one of these names.
    pub is_short: bool,
}

impl WatchedFolder {
    /// The folder, before its first call.
    pub(crate) fn over(alloc: Global, folder: MemFolder) -> WatchedFolder {
        WatchedFolder {
            folder,
            calls: 0,
            written: Vec::new(alloc),
            is_short: false,
        }
    }
}

impl Folder for WatchedFolder {
    ghost files = { λ watched. Some watched.folder.files };

    ghost read_faults = { λ watched. watched.folder.read_faults };

    ghost write_faults = { λ watched. watched.folder.write_faults };

    ghost writes = { λ watched. watched.folder.writes };

    fn read(&mut self, alloc: Global, name: &str) -> Read {
        self.calls = self.calls.saturating_add(1);
        self.folder.read(alloc, name)
    }

    fn write(&mut self, name: &str, bytes: &[u8]) -> Written {
        self.calls = self.calls.saturating_add(1);
        let written = self.folder.write(name, bytes);
        if written == Written::Done && !is_kept(&mut self.written, name) {
            self.is_short = true;
        }
        written
    }

    fn read_faults(&self) -> u64 {
        self.folder.read_faults()
    }

    fn write_faults(&self) -> u64 {
        self.folder.write_faults()
    }
}

/// Keeps a name after others, where there is memory for it.
fn is_kept(names: &mut Vec<String>, name: &str) -> bool {
    match String::from_str(*names.allocator(), name) {
        Ok(name) => names.push(name).is_ok(),
        Err(_) => false,
    }
}

/// A stream in memory whose pieces and flushes are counted, and which holds the pieces back until a flush.
#[derive(Drop)]
pub struct WatchedSink {
    pub sink: HeldSink,
    /// The number of pieces and flushes so far.
    pub calls: u64,
}

impl WatchedSink {
    /// The stream, before its first call.
    pub(crate) fn over(sink: HeldSink) -> WatchedSink {
        WatchedSink { sink, calls: 0 }
    }

    /// The bytes that are out, so that a text that wasn't flushed is missed; after a call that failed all that were
    /// put.
    pub(crate) fn bytes(&self) -> &[u8] {
        if self.sink.faults() == 0 {
            self.sink.out()
        } else {
            self.sink.bytes()
        }
    }
}

impl Sink for WatchedSink {
    ghost stream = { λ watched. Some (stream_of watched.sink) };

    ghost faults = { λ watched. watched.sink.sink.faults };

    fn put(&mut self, bytes: &[u8]) -> Put {
        self.calls = self.calls.saturating_add(1);
        self.sink.put(bytes)
    }

    fn flush(&mut self) -> Put {
        self.calls = self.calls.saturating_add(1);
        self.sink.flush()
    }

    fn faults(&self) -> u64 {
        self.sink.faults()
    }
}
