//! A sink over bytes of its own, which grow. What a put does is in `specs/Sink`.

ghost use Rattle.std.specs.Prelude.{◌≡◌, ◌++◌, [], Some};
ghost use Rattle.rz_folder.specs.Counts.{faults_with, next};
ghost use Rattle.rz_folder.specs.Sink.{all_out, Flushes, Puts};

use crate::{Put, Sink};
use rz_core::Bytes;
use std::alloc::Global;
use std::marker::Model;

/// A sink over bytes of its own, which grow with each put: what a program hands to a call that puts a text, to have
/// the text in memory. It holds nothing back. A put fails exactly where memory is refused. Contracts see the bytes
/// and the count of faults.
#[derive(Drop)]
pub struct TextSink {
    bytes: Bytes,
    faults: u64,
}

impl Model for TextSink {
    ghost use Rattle.rz_folder.specs.TextSink.{TextState};

    ghost Value = { TextState };

    ghost view = { λ sink. record { bytes = sink.bytes; faults = sink.faults } };
}

impl TextSink {
    /// A sink without bytes and without faults. It takes no memory.
    pub fn new(alloc: Global) -> TextSink
        ensures { result ≡ record { bytes = []; faults = 0 } }
    {
        TextSink {
            bytes: Bytes::new(alloc),
            faults: 0,
        }
    }

    /// The bytes that were put, given back. It takes no memory.
    pub fn into_bytes(self) -> Bytes
        ensures { result ≡ self.bytes }
    {
        let TextSink { bytes, faults: _ } = self;
        bytes
    }
}

impl Sink for TextSink {
    ghost stream = { λ sink. Some (all_out sink.bytes) };

    ghost faults = { λ sink. sink.faults };

    /// Appends the piece. `Failed` comes exactly where memory is refused; then the bytes are as before, and the count
    /// of faults is one more, up to 2^64 - 1.
    fn put(&mut self, bytes: &[u8]) -> Put
        ensures told { Puts bytes.now (Some (all_out self.old.bytes)) (Some (all_out self.new.bytes)) result }
        ensures counted { self.new.faults ≡ faults_with self.old.faults result }
        ensures done { result ≡ Put.Done → self.new ≡ record self.old { bytes = self.old.bytes ++ bytes.now } }
        ensures failed { result ≡ Put.Failed → self.new ≡ record self.old { faults = next self.old.faults } }
    {
        match self.bytes.append(bytes) {
            Ok(()) => Put::Done,
            Err(_) => {
                self.faults = self.faults.saturating_add(1);
                Put::Failed
            }
        }
    }

    /// Does nothing, for all that was put is out.
    fn flush(&mut self) -> Put
        ensures told { Flushes (Some (all_out self.old.bytes)) (Some (all_out self.new.bytes)) result }
        ensures unchanged { self.new ≡ self.old }
        ensures done { result ≡ Put.Done }
    {
        Put::Done
    }

    fn faults(&self) -> u64
        ensures { result ≡ self.now.faults }
    {
        self.faults
    }
}
