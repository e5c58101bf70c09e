//! A writer as a sink; over a writer of the host's it is a trusted edge. How its count of faults rises is in
//! `specs/Counts`, and what it tells in `specs/RealSink`.

ghost use Rattle.std.specs.Prelude.{◌≡◌, ◌≤◌, [], true, length, take, IfOk};
ghost use Rattle.std.specs.Io.KnownBytes.{Appends};
ghost use Rattle.rz_folder.specs.Counts.{faults_with};
ghost use Rattle.rz_folder.specs.RealSink.{put_of, stream_over};
ghost use Rattle.rz_folder.specs.Sink.{Flushes, Got, Puts, Told};

use crate::{Put, Sink};
use rz_core::NoMemory;
use std::alloc::Global;
use std::io::{ErrorKind, Write};
use std::marker::Model;

// The size of a buffer in bytes: what a pipe holds.
const BUFFER_SIZE: usize = 1 << 16;

/// A writer, as standard output, with a buffer before it or with none. It tells what its writer tells: the bytes that
/// the writer got are out, and those in the buffer are held back. Files and streams of the host's tell nothing: what
/// reaches the host rests on the writer, not on a proof. Contracts see what it tells, the count of faults, and
/// whether a call failed.
///
/// After the first call that failed nothing more is written: each later call fails, too, and what is held back stays
/// so. What is held back when the sink is dropped is written then, if no call failed.
pub struct RealSink<W: Write + Drop> {
    writer: W,
    held: Vec<u8>,
    has_failed: bool,
    faults: u64,
}

impl<W: Write + Drop> Model for RealSink<W> {
    ghost use Rattle.rz_folder.specs.RealSink.{stream_over, RealState};

    ghost Value = { RealState };

    ghost view = { λ sink. record {
      stream = stream_over (W.contents sink.writer) sink.held.items;
      faults = sink.faults;
      has_failed = sink.has_failed;
    } };
}

impl<W: Write + Drop> RealSink<W> {
    ghost use Rattle.rz_folder.specs.RealSink.{begun};

    /// The writer, with no faults so far. Each piece is written at once. It takes no memory.
    pub fn new(alloc: Global, writer: W) -> RealSink<W>
        ensures { result ≡ begun (W.contents writer) }
    {
        RealSink {
            writer,
            held: Vec::new(alloc),
            has_failed: false,
            faults: 0,
        }
    }

    /// The writer with a buffer of 64 KB before it, no faults so far. Pieces are held back as long as they fit in the
    /// buffer, and then written together; one as long as the buffer or longer is written at once.
    pub fn buffered(alloc: Global, writer: W) -> Result<RealSink<W>, NoMemory>
        ensures { IfOk result (λ sink. sink ≡ begun (W.contents writer)) }
    {
        match Vec::with_capacity(alloc, BUFFER_SIZE) {
            Ok(held) => Ok(RealSink {
                writer,
                held,
                has_failed: false,
                faults: 0,
            }),
            Err(_) => Err(NoMemory),
        }
    }

    // How a call ended. One that failed is counted, and nothing is written after it.
    fn ended(&mut self, is_done: bool) -> Put
        ensures result { result ≡ put_of is_done }
        ensures stream { self.new.stream ≡ self.old.stream }
        ensures counted { self.new.faults ≡ faults_with self.old.faults result }
        ensures stays { self.old.has_failed ≡ true → self.new.has_failed ≡ true }
        ensures failed { result ≡ Put.Failed → self.new.has_failed ≡ true }
    {
        if is_done {
            return Put::Done;
        }
        self.has_failed = true;
        self.faults = self.faults.saturating_add(1);
        Put::Failed
    }
}

impl<W: Write + Drop> Sink for RealSink<W> {
    ghost stream = { λ sink. sink.stream };

    ghost faults = { λ sink. sink.faults };

    /// Writes the whole piece, or holds it back where it fits in the buffer. `Failed` is that a
    /// write failed, in this call or an earlier one; exactly then the count of faults rises, unless
    /// it stands at 2^64 - 1.
    fn put(&mut self, bytes: &[u8]) -> Put
        ensures told { Puts bytes.now self.old.stream self.new.stream result }
        ensures counted { self.new.faults ≡ faults_with self.old.faults result }
        ensures stays { self.old.has_failed ≡ true
            → (result ≡ Put.Failed) × (self.new.stream ≡ self.old.stream) × (self.new.has_failed ≡ true) }
        ensures failed { result ≡ Put.Failed → self.new.has_failed ≡ true }
    {
        if self.has_failed {
            return self.ended(false);
        }
        let is_put = put_behind(bytes, &mut self.held, &mut self.writer);
        self.ended(is_put)
    }

    /// Writes what is held back, and flushes the writer. `Failed` is as that of a put, or that the
    /// flush failed.
    fn flush(&mut self) -> Put
        ensures told { Flushes self.old.stream self.new.stream result }
        ensures counted { self.new.faults ≡ faults_with self.old.faults result }
        ensures stays { self.old.has_failed ≡ true
            → (result ≡ Put.Failed) × (self.new.stream ≡ self.old.stream) × (self.new.has_failed ≡ true) }
        ensures failed { result ≡ Put.Failed → self.new.has_failed ≡ true }
    {
        if self.has_failed {
            return self.ended(false);
        }
        let is_flushed = flush_all(&mut self.held, &mut self.writer);
        self.ended(is_flushed)
    }

    fn faults(&self) -> u64
        ensures { result ≡ self.now.faults }
    {
        self.faults
    }
}

impl<W: Write + Drop> Drop for RealSink<W> {
    /// Writes what is held back, if no call failed.
    fn drop(mut self) {
        if !self.has_failed {
            let _ = write_held(&mut self.held, &mut self.writer);
        }
        let RealSink {
            writer: _writer,
            held: _held,
            has_failed: _,
            faults: _,
        } = self;
    }
}

// Holds a piece back after what is held if it fits there, or in the whole buffer after that is written; a longer one
// is written, too. Gives whether the whole piece is put; if not, a front of it is.
fn put_behind<W: Write>(piece: &[u8], held: &mut Vec<u8>, writer: &mut W) -> bool
    ensures { Puts piece.now (stream_over (W.contents writer.old) held.old.items)
        (stream_over (W.contents writer.new) held.new.items) (put_of result) }
{
    let fits = piece.len() < held.capacity();
    if fits && piece.len() <= held.capacity() - held.len() {
        return held.extend_from_slice(piece).is_ok();
    }
    if !write_held(held, writer) {
        return false;
    }
    if fits {
        return held.extend_from_slice(piece).is_ok();
    }
    let count = write_out(piece, writer);
    count == piece.len()
}

// Writes what is held back, and flushes the writer. Gives whether nothing failed.
fn flush_all<W: Write>(held: &mut Vec<u8>, writer: &mut W) -> bool
    ensures { Flushes (stream_over (W.contents writer.old) held.old.items)
        (stream_over (W.contents writer.new) held.new.items) (put_of result) }
{
    if !write_held(held, writer) {
        return false;
    }
    writer.flush().is_ok()
}

// Writes what is held back, and gives whether all of it is written. If a write failed, the rest is held back still.
fn write_held<W: Write>(held: &mut Vec<u8>, writer: &mut W) -> bool
    ensures told { Told (Got []) (stream_over (W.contents writer.old) held.old.items)
        (stream_over (W.contents writer.new) held.new.items) }
    ensures all { result ≡ true → held.new.items ≡ [] }
{
    let count = write_out(held.as_slice(), writer);
    let is_written = count == held.len();
    drop(held.drain(..count));
    is_written
}

// Writes bytes one write after the other, and gives how many were written: all, or those before a write that failed.
fn write_out<W: Write>(bytes: &[u8], writer: &mut W) -> usize
    ensures within { result ≤ length bytes.now }
    ensures written { Appends (W.contents writer.old) (W.contents writer.new) (take result bytes.now) }
{
    let mut count = 0;
    while count < bytes.len() {
        let more = write_once(&bytes[count..], writer);
        if more == 0 {
            return count;
        }
        count += more;
    }
    count
}

// Writes bytes once, and gives how many the writer took: 0 where the write failed or took nothing. A write that was
// interrupted is tried again.
fn write_once<W: Write>(bytes: &[u8], writer: &mut W) -> usize
    ensures within { result ≤ length bytes.now }
    ensures written { Appends (W.contents writer.old) (W.contents writer.new) (take result bytes.now) }
{
    for _ in 0..u64::MAX {
        match writer.write(bytes) {
            Ok(count) => return count,
            Err(error) if error.kind() == ErrorKind::Interrupted => {}
            Err(_) => return 0,
        }
    }
    0
}
