//! The trait of files by name, with counts of its writes and of its faults. What its calls do is in `specs/Folder`.

ghost use Rattle.std.specs.Prelude.{◌≡◌, ◌<◌, ◌≤◌, ◌^◌, ℕ, ⊤, List, length};
ghost use Rattle.std.specs.declared.option.Option.{Option};
ghost use Rattle.rz_folder.specs.Counts.{next, Rose};
ghost use Rattle.rz_folder.specs.Folder.{Files, Reads, Writes};

use rz_core::Bytes;
use std::alloc::Global;

/// What a read of a file gave.
#[derive(Drop)]
pub enum Read {
    /// The whole contents, fewer than 2^32 bytes.
    Bytes(Bytes),
    /// No file has the name.
    Missing,
    /// The file could not be read. The folder counted a read fault.
    Failed,
    /// Memory for the contents was refused. It is no fault, and nothing counts it.
    NoMemory,
}

/// How a write of a file ended.
#[derive(Clone, Copy, Debug, PartialEq, Eq)]
pub enum Written {
    /// The bytes were written, whole.
    Done,
    /// The write failed, and the file may hold anything or be gone. The folder counted a write fault.
    Failed,
}

/// Files by name, with a count of the writes, one of the reads that failed and one of the writes that
/// failed. The counts start where the folder was made, never fall, and stop at 2^64 - 1.
///
/// Some folders tell what their files hold, as one in memory does, and some tell nothing, as the
/// host's. A folder that tells it goes on telling it.
///
/// A folder also says which names may be read. A caller may read no other name, so generic code is
/// proved to read no other file than its contract says.
pub trait Folder {
    /// What each name holds, where the folder tells it.
    ghost files: { Self → Option Files };

    /// The number of reads that failed.
    ghost read_faults: { Self → ℕ };

    /// The number of writes that failed.
    ghost write_faults: { Self → ℕ };

    /// The number of writes, those that failed among them.
    ghost writes: { Self → ℕ };

    /// The names that may be read, in UTF-8: all, unless the folder says otherwise. No call takes one away.
    ghost may_read: { Self → List ℕ → Type 0 } = { λ _ _. ⊤ };

    /// Reads the whole file of that name, which may be read, into memory of the allocator. No file changes.
    ///
    /// - `Bytes` has fewer than 2^32 bytes: what the name holds, where the folder tells it.
    /// - `Missing` comes only where the name holds nothing, where the folder tells it.
    /// - `Failed` comes only where `read_faults` rose in this call or stands at its last value.
    /// - `NoMemory` may come whenever memory is refused.
    fn read(&mut self, alloc: Global, name: &str) -> Read
        requires { may_read self.old name.now }
        ensures told { Reads name.now (files self.old) result }
        ensures unchanged { files self.new ≡ files self.old }
        ensures counted { read_faults self.old ≤ read_faults self.new }
        ensures cause { result ≡ Read.Failed → Rose (read_faults self.old) (read_faults self.new) }
        ensures other_count { write_faults self.new ≡ write_faults self.old }
        ensures unwritten { writes self.new ≡ writes self.old }
        ensures allowed { (other : List ℕ) → may_read self.old other → may_read self.new other };

    /// Makes the file of that name hold these bytes, of which there are fewer than 2^32. It takes
    /// no memory.
    ///
    /// Each call counts as one write. After `Done` that file alone is set. `Failed` comes only where
    /// `write_faults` rose in this call or stands at its last value; then the name may hold anything
    /// or nothing, and every other file is as before.
    fn write(&mut self, name: &str, bytes: &[u8]) -> Written
        requires { length bytes.now < 2 ^ 32 }
        ensures told { Writes name.now bytes.now (files self.old) (files self.new) result }
        ensures counted { write_faults self.old ≤ write_faults self.new }
        ensures cause { result ≡ Written.Failed → Rose (write_faults self.old) (write_faults self.new) }
        ensures other_count { read_faults self.new ≡ read_faults self.old }
        ensures once { writes self.new ≡ next (writes self.old) }
        ensures allowed { (other : List ℕ) → may_read self.old other → may_read self.new other };

    /// The number of reads that failed, which stops at 2^64 - 1.
    fn read_faults(&self) -> u64
        ensures { result ≡ read_faults self.now };

    /// The number of writes that failed, which stops at 2^64 - 1.
    fn write_faults(&self) -> u64
        ensures { result ≡ write_faults self.now };
}
