//! Calls of folders and streams, and what they give, as text.

ghost use Rattle.std.specs.Prelude.{◌<◌, ◌^◌, ℕ, List, length};

use crate::failing::{Calls, FailingFiles};
use crate::files::{show_file_call, show_rewrite};
use crate::streams::{show_over, show_stream, show_unread};
use crate::text::Text;
use rz_folder::{Folder, Put, Read, RealFolder, Sink, Written};
use std::alloc::Global;
use std::cell::Cell;
use std::io::ErrorKind;

/// The most bytes of a content.
const MOST: usize = 1_000_000;

/// Shows what a call gives. Its first word names what it is made on.
pub fn show_call(rt: HostRuntime, host: &mut RealFolder<HostRuntime>, text: &str, came: &mut Text) {
    let (on, call) = in_two(text);
    match on {
        "host" => show_folder(rt.alloc(), host, call, came),
        "rewrite" => show_rewrite(rt, host, call, came),
        "failing" => show_failing(rt, call, came),
        "files" => show_file_call(rt, call, came),
        "stream" => show_stream(rt, call, came),
        "over" => show_over(rt, call, came),
        "unread" => show_unread(rt, call, came),
        _ => came.fail(),
    }
}

/// The two parts of a text on both sides of its first blank.
pub fn in_two(text: &str) -> (&str, &str) {
    text.split_once(' ').unwrap_or((text, ""))
}

/// Shows what a piece gives.
pub fn show_put<S: Sink>(sink: &mut S, piece: &str, came: &mut Text) {
    let put = sink.put(piece.as_bytes());
    show_end(put, came);
}

/// Shows what a flush gives.
pub fn show_flush<S: Sink>(sink: &mut S, came: &mut Text) {
    let flushed = sink.flush();
    show_end(flushed, came);
}

/// Shows how a call of a stream ended.
fn show_end(ended: Put, came: &mut Text) {
    match ended {
        Put::Done => came.put(b"Done"),
        Put::Failed => came.put(b"Failed"),
    }
}

/// A number of a call.
pub fn number_in(text: &str, came: &mut Text) -> u32 {
    match text.parse::<u32>() {
        Ok(number) => number,
        Err(_) => {
            came.fail();
            0
        }
    }
}

/// Shows where a call that gives nothing is refused.
pub fn show_done<E: Drop>(done: Result<(), E>, came: &mut Text) {
    if done.is_err() {
        came.put(b"refused");
    }
}

/// The name and the content of a call.
fn content_in<'a>(call: &'a str, came: &mut Text) -> (&'a str, &'a [u8])
    ensures { length result.1.now < 2 ^ 32 }
{
    let (name, content) = in_two(call);
    if content.len() > MOST {
        came.fail();
        return (name, &[]);
    }
    (name, content.as_bytes())
}

/// Shows what a call of any folder gives that allows each name to be read.
pub fn show_folder<F: Folder>(alloc: Global, folder: &mut F, call: &str, came: &mut Text)
    requires { (name : List ℕ) → F.may_read folder.old name }
{
    match in_two(call) {
        ("write", rest) => show_write(folder, rest, came),
        ("read", name) => match folder.read(alloc, name) {
            Read::Bytes(bytes) => show_bytes(bytes.as_slice(), came),
            Read::Missing => came.put(b"Missing"),
            Read::Failed => came.put(b"Failed"),
            Read::NoMemory => came.put(b"NoMemory"),
        },
        ("faults", _) => {
            came.number(folder.read_faults());
            came.put(b" ");
            came.number(folder.write_faults());
        }
        _ => came.fail(),
    }
}

/// Shows what the write of a file gives.
fn show_write<F: Folder>(folder: &mut F, call: &str, came: &mut Text) {
    let (name, content) = content_in(call, came);
    match folder.write(name, content) {
        Written::Done => came.put(b"Done"),
        Written::Failed => came.put(b"Failed"),
    }
}

/// Shows what a call of a folder of the host's gives where the host's call of that number fails so, and the faults after
/// it.
fn show_failing(runtime: HostRuntime, call: &str, came: &mut Text) {
    let (number, rest) = in_two(call);
    let (error, call) = in_two(rest);
    let made = Cell::new(0);
    let calls = Calls {
        made: &made,
        failing: number_in(number, came),
        error: error_of(error, came),
    };
    let mut folder = RealFolder::new(FailingFiles { runtime, calls });
    show_folder(runtime.alloc(), &mut folder, call, came);
    came.put(b" ");
    show_folder(runtime.alloc(), &mut folder, "faults", came);
}

/// The error of a name.
pub fn error_of(name: &str, came: &mut Text) -> ErrorKind {
    match name {
        "full" => ErrorKind::StorageFull,
        "denied" => ErrorKind::PermissionDenied,
        "interrupted" => ErrorKind::Interrupted,
        "unable" => ErrorKind::InvalidInput,
        _ => {
            came.fail();
            ErrorKind::Unsupported
        }
    }
}

/// Shows bytes, each as a character.
pub fn show_bytes(bytes: &[u8], came: &mut Text) {
    for byte in bytes {
        let mut utf8 = [0; 4];
        came.put(char::from(*byte).encode_utf8(&mut utf8).as_bytes());
    }
}
