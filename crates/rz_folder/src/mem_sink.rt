//! A sink in memory whose puts fail where they are told to, and which holds nothing back. What a put does is in
//! `specs/Sink`.

ghost use Rattle.std.specs.Prelude.{◌≡◌, ◌≤◌, ◌↔◌, ◌⊎◌, length, max, Some, OnOk, OnErr};
ghost use Rattle.rz_folder.specs.Counts.{faults_with};
ghost use Rattle.rz_folder.specs.Sink.{all_out, Flushes, Puts};

use crate::{Put, Sink};
use rz_core::NoMemory;
use std::alloc::Global;
use std::marker::Model;

/// A sink in memory, which tells all that was written and holds nothing back. Its puts fail where they are told to.
///
/// Contracts see the bytes written, the room, the number of puts so far, the number of the put that
/// is to fail with the number of bytes that it takes first, and the count of faults. The room is
/// the number of bytes for which there is memory, 0 at first.
#[derive(Drop)]
pub struct MemSink {
    bytes: Vec<u8>,
    room: u64,
    calls: u64,
    failing: u64,
    taken: u32,
    faults: u64,
}

impl Model for MemSink {
    ghost use Rattle.rz_folder.specs.SinkState.{SinkState};

    ghost Value = { SinkState };

    ghost use Rattle.rz_folder.specs.MemSink.{sink_state, IsRoomy};

    ghost view = { sink_state };

    ghost invariant = { IsRoomy };
}

impl MemSink {
    ghost use Rattle.rz_folder.specs.SinkState.{empty_sink, appended};

    /// A sink without bytes, without room and without faults, of which no put is to fail. It takes
    /// no memory.
    pub fn new(alloc: Global) -> MemSink
        ensures { result ≡ empty_sink }
    {
        MemSink {
            bytes: Vec::new(alloc),
            room: 0,
            calls: 0,
            failing: 0,
            taken: 0,
            faults: 0,
        }
    }

    /// Makes the room at least so many bytes. It never falls by this. Where memory is refused the
    /// sink is unchanged.
    pub fn reserve(&mut self, bytes: u32) -> Result<(), NoMemory>
        ensures ok { OnOk result (self.new ≡ record self.old { room = max self.old.room bytes }) }
        ensures err { OnErr result (self.new ≡ self.old) }
    {
        self.bytes.reserve(bytes as usize)?;
        self.room = self.room.max(u64::from(bytes));
        Ok(())
    }

    /// Makes the put of that number fail, counted from 1 since `new`, in place of one named
    /// earlier. It first takes as many bytes of its piece as `taken`, the piece's length and the
    /// room allow. The number of puts stops at 2^64 - 1, which is then the number of every later
    /// put. No put has the number 0.
    pub fn fail_at(&mut self, call: u64, taken: u32)
        ensures { self.new ≡ record self.old { failing = call; taken = taken } }
    {
        self.failing = call;
        self.taken = taken;
    }

    /// The bytes written so far.
    pub fn bytes(&self) -> &[u8]
        ensures { result.now ≡ self.now.written }
    {
        &self.bytes
    }

    // Appends a piece for which there is room.
    fn append(&mut self, piece: &[u8])
        requires { length piece.now ≤ self.old.room }
        ensures { self.new ≡ appended self.old piece.now }
    {
        let _ = self.bytes.extend_from_slice(piece);
        self.room -= piece.len() as u64;
    }
}

impl Sink for MemSink {
    ghost use Rattle.rz_folder.specs.SinkState.{IsNextNamed, LacksRoom, after_put};

    ghost stream = { λ s. Some (all_out s.written) };

    ghost faults = { λ s. s.faults };

    /// Appends the piece, and takes its length from the room. `Failed` comes exactly where
    /// `fail_at` named this put or the room is too small. A put that was named takes a front of the
    /// piece first, as `fail_at` says, and the room falls by so many bytes; one that fails by its
    /// room alone takes nothing.
    fn put(&mut self, bytes: &[u8]) -> Put
        ensures told { Puts bytes.now (Some (all_out self.old.written)) (Some (all_out self.new.written)) result }
        ensures counted { self.new.faults ≡ faults_with self.old.faults result }

        ensures failed { (result ≡ Put.Failed) ↔ (IsNextNamed self.old ⊎ LacksRoom self.old bytes.now) }
        ensures after { self.new ≡ after_put self.old bytes.now }
    {
        self.calls = self.calls.saturating_add(1);
        let length = bytes.len() as u64;
        if self.calls == self.failing {
            let count = length.min(self.room).min(u64::from(self.taken));
            self.append(&bytes[..count as usize]);
            self.faults = self.faults.saturating_add(1);
            return Put::Failed;
        }
        if length > self.room {
            self.faults = self.faults.saturating_add(1);
            return Put::Failed;
        }
        self.append(bytes);
        Put::Done
    }

    /// Does nothing, for all that was put is out. It is no put that `fail_at` counts.
    fn flush(&mut self) -> Put
        ensures told { Flushes (Some (all_out self.old.written)) (Some (all_out self.new.written)) result }
        ensures unchanged { self.new ≡ self.old }
        ensures done { result ≡ Put.Done }
    {
        Put::Done
    }

    fn faults(&self) -> u64
        ensures { result ≡ self.now.faults }
    {
        self.faults
    }
}
