//! Runs of bytes that are taken in one piece. Which bytes end a run is in `specs/Runs`.

ghost use Rattle.std.specs.Prelude.{◌≡◌, ◌+◌, ◌≤◌, true, false, drop, length, take, IfSome};
ghost use Rattle.std.specs.List.{prefix_len, AllByRecursion};
ghost use Rattle.memchr.specs.Find.{is_byte3};
ghost use Rattle.rz_lex.specs.Joined.{ahead, IsOn};
ghost use Rattle.rz_lex.specs.Runs.{ends_here, ends_line, is_plain, is_unbroken, HasRun};

use crate::classes::is_quote;
use crate::joined::Position;
use memchr::{memchr, memchr3};

/// The bytes that stand ahead and are parts by themselves, up to the first slash, quote mark, backslash or
/// line end, and the position after them.
pub fn plain_run(start: Position) -> (&[u8], Position)
    ensures run { HasRun is_plain (ahead start.entry) result.0.now (ahead result.1) }
    ensures on { IsOn start.entry result.1 }
    ensures size { length result.0.now + length result.1.rest.now ≡ length start.entry.rest.now }
{
    split_run(start, plain_size(start.rest))
}

/// The bytes that stand ahead up to the first such byte, backslash or line end, and the position after
/// them.
pub fn unbroken_run(stop: u8, start: Position) -> (&[u8], Position)
    ensures run { HasRun (is_unbroken stop) (ahead start.entry) result.0.now (ahead result.1) }
    ensures on { IsOn start.entry result.1 }
{
    split_run(start, unbroken_size(stop, start.rest))
}

/// The bytes of the line that stands ahead, and the position of its end, where neither a slash nor a backslash stands
/// in it: no comment begins in such a line, and no other line continues it. `None` for any other line.
pub fn bare_line(start: Position) -> Option<(&[u8], Position)>
    ensures run { IfSome result (λ read. HasRun (is_unbroken 47) (ahead start.entry) read.0.now (ahead read.1)) }
    ensures end { IfSome result (λ read. ends_here (ahead read.1) ≡ true) }
    ensures on { IfSome result (λ read. IsOn start.entry read.1) }
    ensures size { IfSome result (λ read. length read.0.now + length read.1.rest.now ≡ length start.entry.rest.now) }
{
    let size = line_size(start.rest)?;
    let (line, end) = split_run(start, size);
    match memchr(b'/', line) {
        None => Some((line, end)),
        Some(_) => None,
    }
}

/// How many bytes stand before the first line end, or in all where there is none. `None` where a backslash stands
/// before that.
fn line_size(bytes: &[u8]) -> Option<usize>
    ensures within { IfSome result (λ size. size ≤ length bytes.now) }
    ensures free { IfSome result (λ size. AllByRecursion (λ byte. is_byte3 10 13 92 byte ≡ false) (take size bytes.now)) }
    ensures end { IfSome result (λ size. ends_line (drop size bytes.now) ≡ true) }
{
    match memchr3(b'\n', b'\r', b'\\', bytes) {
        None => Some(bytes.len()),
        Some(size) if bytes[size] != b'\\' => Some(size),
        Some(_) => None,
    }
}

/// The first so many bytes, none of which ends a line, and the position after them.
fn split_run(start: Position, size: usize) -> (&[u8], Position)
    requires { size ≤ length start.rest.now }
    ensures run { result.0.now ≡ take size start.entry.rest.now }
    ensures rest { result.1.rest.now ≡ drop size start.entry.rest.now }
    ensures line { result.1.line ≡ start.entry.line }
{
    let (run, rest) = start.rest.split_at(size);
    (
        run,
        Position {
            rest,
            line: start.line,
        },
    )
}

/// How many bytes at the front are parts by themselves.
fn plain_size(bytes: &[u8]) -> usize
    ensures size { result ≡ prefix_len is_plain bytes.now }
    ensures within { result ≤ length bytes.now }
{
    let mut size = 0;
    while size < bytes.len() && is_plain(bytes[size]) {
        size += 1;
    }
    size
}

/// How many bytes at the front are neither this one nor a backslash nor end a line.
fn unbroken_size(stop: u8, bytes: &[u8]) -> usize
    ensures size { result ≡ prefix_len (is_unbroken stop) bytes.now }
    ensures within { result ≤ length bytes.now }
{
    let mut size = 0;
    while size < bytes.len() && is_unbroken(stop, bytes[size]) {
        size += 1;
    }
    size
}

fn is_plain(byte: u8) -> bool
    ensures { result ≡ is_plain byte }
{
    is_unbroken(b'/', byte) && !is_quote(byte)
}

fn is_unbroken(stop: u8, byte: u8) -> bool
    ensures { result ≡ is_unbroken stop byte }
{
    byte != stop && byte != b'\\' && byte != b'\n' && byte != b'\r'
}
