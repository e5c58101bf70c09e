//! Streams of the host's over a new file, where a call of the host's fails, and over a pipe that nobody reads.

use crate::failing::{Calls, FailingFiles};
use crate::steps::{error_of, in_two, number_in, show_bytes, show_flush, show_put};
use crate::text::Text;
use rz_core::NoMemory;
use rz_folder::{RealSink, Sink};
use std::alloc::Global;
use std::cell::Cell;
use std::io::Write;
use std::{fs, io};

/// The calls of streams with a buffer and without one. After each stands how many calls of the host's were made so far: one
/// makes the file, and one writes three bytes at most. After them stand the faults, how many bytes the file has, and the
/// first of them. A write to a pipe that nobody reads fails, and doesn't end the process.
pub const STREAMS: &str = "
stream a piece => Done 0
over 0 full direct ab cdef ! => Done 2 Done 4 Done 4: 0 6 abcdef
over 0 full buffered ab cdef ! gh => Done 1 Done 1 Done 3 Done 3: 0 8 abcdefgh
over 0 full buffered «ab×20000» «cd×20000» «e×70000» f => Done 1 Done 13335 Done 50003 Done 50003: 0 150001 abababab
over 2 full direct abcdef ! g ! => Failed 2 Failed 2 Failed 2 Failed 2: 4 0\x20
over 3 full direct abcdef ! g ! => Failed 3 Failed 3 Failed 3 Failed 3: 4 3 abc
over 2 full buffered abcdef ! g ! => Done 1 Failed 2 Failed 2 Failed 2: 3 0\x20
over 3 full buffered abcdef ! g ! => Done 1 Failed 3 Failed 3 Failed 3: 3 3 abc
over 3 interrupted buffered abcdef ! g ! => Done 1 Done 4 Done 4 Done 5: 0 7 abcdefg
unread direct ab ! cd => Failed 0 Failed 0 Failed 0: 3
unread buffered ab ! cd => Done 0 Failed 0 Failed 0: 2
";

/// The name of the file.
const NAME: &str = "rezkit-test-of-a-stream";

/// Shows what a piece on the standard output gives, and the faults after it.
pub fn show_stream(rt: HostRuntime, piece: &str, came: &mut Text) {
    let mut sink = RealSink::new(rt.alloc(), rt.stdout());
    show_put(&mut sink, piece, came);
    came.put(b" ");
    came.number(sink.faults());
}

/// Shows what the calls of a stream over a new file give where the host's call of that number fails so.
pub fn show_over(runtime: HostRuntime, call: &str, came: &mut Text) {
    let (number, rest) = in_two(call);
    let (error, rest) = in_two(rest);
    let (kind, calls_of_stream) = in_two(rest);
    let made = Cell::new(0);
    let calls = Calls {
        made: &made,
        failing: number_in(number, came),
        error: error_of(error, came),
    };
    let Ok(file) = fs::create(&FailingFiles { runtime, calls }, NAME) else {
        came.fail();
        return;
    };
    match stream_over(runtime.alloc(), kind, file) {
        Ok(sink) => show_calls(sink, calls_of_stream, &made, came),
        Err(NoMemory) => came.fail(),
    }
    show_file(runtime, came);
}

/// Shows what the calls of a stream over a pipe give that nobody reads, as those over a file.
pub fn show_unread(rt: HostRuntime, call: &str, came: &mut Text) {
    let (kind, calls) = in_two(call);
    let Ok((reader, writer)) = io::pipe(&rt) else {
        came.fail();
        return;
    };
    drop(reader);
    match stream_over(rt.alloc(), kind, writer) {
        Ok(sink) => show_calls(sink, calls, &Cell::new(0), came),
        Err(NoMemory) => came.fail(),
    }
}

/// A stream over a writer, with a buffer or without one.
fn stream_over<W: Write + Drop>(
    alloc: Global,
    kind: &str,
    writer: W,
) -> Result<RealSink<W>, NoMemory> {
    if kind == "buffered" {
        RealSink::buffered(alloc, writer)
    } else {
        Ok(RealSink::new(alloc, writer))
    }
}

/// Shows what the calls of a stream give, of which `!` is a flush, and each other word a piece; then the faults. The stream
/// is dropped after them.
fn show_calls<W: Write + Drop>(
    stream: RealSink<W>,
    calls: &str,
    made: &Cell<u32>,
    came: &mut Text,
) {
    let mut sink = stream;
    let mut mark: &[u8] = b"";
    for call in calls.split(' ') {
        came.put(mark);
        mark = b" ";
        match call {
            "!" => show_flush(&mut sink, came),
            piece => show_put(&mut sink, piece, came),
        }
        came.put(b" ");
        came.number(u64::from(made.get()));
    }
    came.put(b": ");
    came.number(sink.faults());
}

/// Shows how many bytes the file has, and the first of them, and removes it.
fn show_file(rt: HostRuntime, came: &mut Text) {
    match fs::read(&rt, NAME) {
        Ok(bytes) => {
            came.put(b" ");
            came.number(bytes.len() as u64);
            came.put(b" ");
            show_bytes(&bytes[..bytes.len().min(8)], came);
        }
        Err(_) => came.fail(),
    }
    if fs::remove_file(&rt, NAME).is_err() {
        came.fail();
    }
}
