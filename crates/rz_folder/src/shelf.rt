//! Files in memory that are read and never written.

ghost use Rattle.std.specs.Prelude.{◌≡◌, ◌≢◌, ◌≤◌, ◌<◌, ◌^◌, length, Some, None, OnOk, OnErr};
ghost use Rattle.std.specs.FinMap as map;
ghost use Rattle.rz_folder.specs.Counts.{next};
ghost use Rattle.rz_folder.specs.Folder.{Reads};

use crate::{Folder, MemFolder, Read, Written};
use rz_core::{Bytes, NoMemory};
use std::alloc::Global;
use std::marker::Model;

/// Files in memory that are read and never written: what a program hands to calls that read a folder and write none.
/// No read fails, and each write does. Contracts see what each name holds, and the number of writes.
#[derive(Drop)]
pub struct Shelf {
    held: MemFolder,
    writes: u64,
}

impl Model for Shelf {
    ghost use Rattle.rz_folder.specs.Shelf.{coded_shelf, ShelfState};

    ghost Value = { ShelfState };

    ghost coded = { coded_shelf };

    ghost view = { λ shelf. record { files = shelf.held.files; writes = shelf.writes } };
}

impl Shelf {
    /// A shelf without files. It takes no memory.
    pub fn new(alloc: Global) -> Shelf
        ensures files { result.files ≡ map.empty }
        ensures unwritten { result.writes ≡ 0 }
    {
        Shelf {
            held: MemFolder::new(alloc),
            writes: 0,
        }
    }

    /// Makes the name hold these bytes, of which there are fewer than 2^32. Where memory is refused the shelf is
    /// unchanged.
    pub fn insert(&mut self, name: &str, bytes: &[u8]) -> Result<(), NoMemory>
        requires { length bytes.now < 2 ^ 32 }
        ensures ok { OnOk result (self.new ≡ record self.old { files = map.insert self.old.files name.now bytes.now }) }
        ensures err { OnErr result (self.new ≡ self.old) }
    {
        self.held.insert(name, bytes)
    }
}

impl Folder for Shelf {
    ghost files = { λ shelf. Some shelf.files };

    ghost read_faults = { λ _. 0 };

    ghost write_faults = { λ shelf. shelf.writes };

    ghost writes = { λ shelf. shelf.writes };

    /// Gives a copy of what the name holds, in memory of the allocator. `Missing` comes exactly where the shelf has no
    /// file of that name, and `Failed` never.
    fn read(&mut self, alloc: Global, name: &str) -> Read
        ensures told { Reads name.now (Some self.old.files) result }
        ensures missing { map.get self.old.files name.now ≡ None → result ≡ Read.Missing }
        ensures succeeds { result ≢ Read.Failed }
        ensures unchanged { self.new ≡ self.old }
    {
        let Some(bytes) = self.held.bytes(name) else {
            return Read::Missing;
        };
        match Bytes::of(alloc, bytes) {
            Ok(copy) => Read::Bytes(copy),
            Err(NoMemory) => Read::NoMemory,
        }
    }

    /// Fails, and leaves the files as they were.
    fn write(&mut self, name: &str, bytes: &[u8]) -> Written
        requires { length bytes.now < 2 ^ 32 }
        ensures failed { result ≡ Written.Failed }
        ensures counted { self.old.writes ≤ self.new.writes }
        ensures after { self.new ≡ record self.old { writes = next self.old.writes } }
    {
        let _ = name;
        let _ = bytes;
        self.writes = self.writes.saturating_add(1);
        Written::Failed
    }

    fn read_faults(&self) -> u64
        ensures { result ≡ 0 }
    {
        0
    }

    fn write_faults(&self) -> u64
        ensures { result ≡ self.now.writes }
    {
        self.writes
    }
}
