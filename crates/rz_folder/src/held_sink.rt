//! A sink in memory that holds back what is put until a flush. What puts and flushes do is in `specs/Sink`.

ghost use Rattle.std.specs.Prelude.{◌≡◌, ◌↔◌, ◌⊎◌, [], length, Some};
ghost use Rattle.rz_folder.specs.Counts.{faults_with};
ghost use Rattle.rz_folder.specs.Sink.{Flushes, Puts};

use crate::{MemSink, Put, Sink};
use std::marker::Model;

/// A sink in memory that holds back what is put until a flush, as a stream of the host's with a buffer does; it tells
/// both. Its room and its calls that fail are those of a sink in memory that has all that was put. A flush is a call as
/// a put is, which `fail_at` of that sink counts and may name; a flush that fails puts nothing out.
///
/// Contracts see that sink, and how many of its bytes are out.
#[derive(Drop)]
pub struct HeldSink {
    sink: MemSink,
    out: usize,
}

impl Model for HeldSink {
    ghost use Rattle.rz_folder.specs.HeldSink.{HeldState, IsWithin};

    ghost Value = { HeldState };

    ghost view = { λ held. record { sink = held.sink; out = held.out } };

    ghost invariant = { λ held. IsWithin (record { sink = held.sink; out = held.out }) };
}

impl HeldSink {
    ghost use Rattle.rz_folder.specs.HeldSink.{stream_of};

    /// Over a sink in memory, all of whose bytes are out. It takes no memory.
    pub fn over(sink: MemSink) -> HeldSink
        ensures { result ≡ record { sink = sink; out = length sink.written } }
    {
        HeldSink {
            out: sink.bytes().len(),
            sink,
        }
    }

    /// All bytes that were put, those that are held back last.
    pub fn bytes(&self) -> &[u8]
        ensures { result.now ≡ self.now.sink.written }
    {
        self.sink.bytes()
    }

    /// The bytes that are out.
    pub fn out(&self) -> &[u8]
        ensures { result.now ≡ (stream_of self.now).out }
    {
        &self.sink.bytes()[..self.out]
    }
}

impl Sink for HeldSink {
    ghost use Rattle.rz_folder.specs.HeldSink.{stream_of};
    ghost use Rattle.rz_folder.specs.SinkState.{after_put, IsNextNamed, LacksRoom};

    ghost stream = { λ held. Some (stream_of held) };

    ghost faults = { λ held. held.sink.faults };

    /// Puts the piece on the sink in memory, and holds it back.
    fn put(&mut self, bytes: &[u8]) -> Put
        ensures told { Puts bytes.now (Some (stream_of self.old)) (Some (stream_of self.new)) result }
        ensures counted { self.new.sink.faults ≡ faults_with self.old.sink.faults result }

        ensures failed { (result ≡ Put.Failed) ↔ (IsNextNamed self.old.sink ⊎ LacksRoom self.old.sink bytes.now) }
        ensures after { self.new ≡ record self.old { sink = after_put self.old.sink bytes.now } }
    {
        self.sink.put(bytes)
    }

    /// Puts out what is held back. `Failed` comes exactly where `fail_at` named this call.
    fn flush(&mut self) -> Put
        ensures told { Flushes (Some (stream_of self.old)) (Some (stream_of self.new)) result }
        ensures counted { self.new.sink.faults ≡ faults_with self.old.sink.faults result }

        ensures failed { (result ≡ Put.Failed) ↔ IsNextNamed self.old.sink }
        ensures sink { self.new.sink ≡ after_put self.old.sink [] }
        ensures out { result ≡ Put.Done → self.new.out ≡ length self.old.sink.written }
        ensures kept { result ≡ Put.Failed → self.new.out ≡ self.old.out }
    {
        match self.sink.put(&[]) {
            Put::Done => {
                self.out = self.sink.bytes().len();
                Put::Done
            }
            Put::Failed => Put::Failed,
        }
    }

    fn faults(&self) -> u64
        ensures { result ≡ self.now.sink.faults }
    {
        self.sink.faults()
    }
}
