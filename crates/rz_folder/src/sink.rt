//! The trait of a place to write to, with a count of its faults. What puts and flushes do is in `specs/Sink`.

ghost use Rattle.std.specs.Prelude.{◌≡◌, ℕ};
ghost use Rattle.std.specs.declared.option.Option.{Option};
ghost use Rattle.rz_folder.specs.Counts.{faults_with};
ghost use Rattle.rz_folder.specs.Sink.{Flushes, Puts, Stream};

/// How a put or a flush ended.
#[derive(Clone, Copy, Debug, PartialEq, Eq)]
pub enum Put {
    /// The sink took the whole piece, or all that was put is out.
    Done,
    /// The sink counted a fault. Of a piece it took a front, which may be empty or the whole piece.
    Failed,
}

/// A place to write to, with a count of its faults: the calls that failed. The count starts where
/// the sink was made, never falls, and stops at 2^64 - 1.
///
/// Some sinks tell their bytes, as one in memory does, and some tell nothing, as standard output. A
/// sink that tells them goes on telling them. Bytes are put at the end, and some of them may be held
/// back until a flush. No call takes back a byte that is out, not even one that fails.
pub trait Sink {
    /// The bytes that are out, and those that the sink holds back, where it tells them.
    ghost stream: { Self → Option Stream };

    /// The number of calls that failed.
    ghost faults: { Self → ℕ };

    /// Puts the piece after all that was put. A sink may hold some of it back until `flush`.
    ///
    /// After `Done` the whole piece is put, and `faults` is as before. After `Failed` a front of the piece is put, and
    /// `faults` is one more, up to its last value.
    fn put(&mut self, bytes: &[u8]) -> Put
        ensures told { Puts bytes.now (stream self.old) (stream self.new) result }
        ensures counted { faults self.new ≡ faults_with (faults self.old) result };

    /// Sees to it that all that was put is out. It takes no memory. After `Done` nothing is held
    /// back, and `faults` is as before. After `Failed` some of what was held back may be out, the rest is held back
    /// still, and `faults` is one more, up to its last value.
    fn flush(&mut self) -> Put
        ensures told { Flushes (stream self.old) (stream self.new) result }
        ensures counted { faults self.new ≡ faults_with (faults self.old) result };

    /// The number of calls that failed, which stops at 2^64 - 1.
    fn faults(&self) -> u64
        ensures { result ≡ faults self.now };
}
