//! The most bytes that the host lets a regular file of this process have.

use std::fs;
use std::io::Read;
use std::rt::Files;

// Where Linux tells a process its limits, a line each, and the words that begin the line of this one.
const LIMITS: &str = "/proc/self/limits";

const FILE_SIZE: &str = "Max file size";

// More bytes than all the lines have.
const LIMITS_SIZE: usize = 4096;

/// Whether a regular file of this process may have so many bytes. The host ends a process that writes more. Where it
/// doesn't tell the limit, there is taken to be none.
pub(crate) fn may_have<R: Files>(rt: &R, byte_count: usize) -> bool {
    let mut lines = [0; LIMITS_SIZE];
    match told(rt, &mut lines) {
        Some(lines) => size_in(lines).is_none_or(|most| byte_count as u64 <= most),
        None => true,
    }
}

// What the host tells of all the limits.
fn told<'a, R: Files>(rt: &R, lines: &'a mut [u8]) -> Option<&'a str> {
    let mut file = fs::open(rt, LIMITS).ok()?;
    let count = file.read(lines).ok()?;
    str::from_utf8(lines.get(..count)?).ok()
}

// The limit of a file's size, which is a number of bytes or the word `unlimited`.
fn size_in(lines: &str) -> Option<u64> {
    let line = lines.lines().find_map(|line| line.strip_prefix(FILE_SIZE))?;
    line.split_ascii_whitespace().next()?.parse().ok()
}
