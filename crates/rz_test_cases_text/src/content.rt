//! The bytes that the content of an entry spells.

use crate::entry::Entry;
use crate::trouble::Trouble;
use std::alloc::Global;

/// The most times that a piece of bytes may be repeated, and the most numbers that a piece may count.
const MOST_TIMES: u32 = 20_000_000;

/// The bytes that the content of an entry spells, by its kind.
pub fn content_of(alloc: Global, kind: &str, entry: &Entry<'_>) -> Result<Vec<u8>, Trouble> {
    let mut bytes = Vec::new(alloc);
    if kind == "text" {
        for line in &entry.block {
            bytes.extend_from_slice(line.as_bytes())?;
            bytes.push(b'\n')?;
        }
    } else if kind == "open" {
        for (place, line) in entry.block.iter().enumerate() {
            if place > 0 {
                bytes.push(b'\n')?;
            }
            bytes.extend_from_slice(line.as_bytes())?;
        }
    } else if kind == "bytes" {
        for line in &entry.block {
            append_bytes(line, &mut bytes, entry)?;
        }
    } else {
        return Err(entry.flaw("the kind of content is none of text, open and bytes"));
    }
    Ok(bytes)
}

/// Appends the bytes that a line spells, in pieces with blanks between them: hexadecimal digits, as often as a `*` and a
/// number after them say; numbers that count up, as `0000..3FFF`, each with the digits after a `:` after it; and texts
/// between quote marks.
pub fn append_bytes(line: &str, into: &mut Vec<u8>, entry: &Entry<'_>) -> Result<(), Trouble> {
    let mut in_text = false;
    for part in line.split('"') {
        if in_text {
            into.extend_from_slice(part.as_bytes())?;
        } else {
            for piece in part.split_whitespace() {
                append_piece(piece, into, entry)?;
            }
        }
        in_text = !in_text;
    }
    if in_text {
        Ok(())
    } else {
        Err(entry.flaw("a text doesn't end on its line"))
    }
}

/// Appends a piece that is no text.
fn append_piece(piece: &str, into: &mut Vec<u8>, entry: &Entry<'_>) -> Result<(), Trouble> {
    match piece.split_once("..") {
        Some((first, rest)) => append_numbers(first, rest, into, entry),
        None => append_repeated(piece, into, entry),
    }
}

/// Appends hexadecimal digits, as often as the piece says.
fn append_repeated(piece: &str, into: &mut Vec<u8>, entry: &Entry<'_>) -> Result<(), Trouble> {
    let (digits, times) = match piece.split_once('*') {
        Some((digits, times)) => (digits, times.parse::<u32>().ok()),
        None => (piece, Some(1)),
    };
    let Some(times) = times.filter(|times| *times <= MOST_TIMES) else {
        return Err(entry.flaw("a wrong number of times"));
    };
    let bytes = decoded(*into.allocator(), digits, entry)?;
    for _ in 0..times {
        into.extend_from_slice(&bytes)?;
    }
    Ok(())
}

/// Appends the numbers from the first to the last, each with what stands after a `:` after the last.
fn append_numbers(
    first: &str,
    rest: &str,
    into: &mut Vec<u8>,
    entry: &Entry<'_>,
) -> Result<(), Trouble> {
    let alloc = *into.allocator();
    let (last, behind) = rest.split_once(':').unwrap_or((rest, ""));
    let behind = decoded(alloc, behind, entry)?;
    let first = decoded(alloc, first, entry)?;
    let last = decoded(alloc, last, entry)?;
    let size = first.len();
    if size == 0 || size > 4 || last.len() != size {
        return Err(entry.flaw("numbers that count up have not one to four bytes, or not as many"));
    }
    let (first, last) = (number_of(&first), number_of(&last));
    let Some(steps) = last.checked_sub(first).filter(|steps| *steps < MOST_TIMES) else {
        return Err(entry.flaw("numbers that count up go down, or are too many"));
    };
    for step in 0..steps + 1 {
        let bytes = first.wrapping_add(step).to_be_bytes();
        into.extend_from_slice(&bytes[4 - size..])?;
        into.extend_from_slice(&behind)?;
    }
    Ok(())
}

/// The number that up to four bytes spell, the first the greatest.
fn number_of(bytes: &[u8]) -> u32 {
    let mut number: u32 = 0;
    for byte in bytes {
        number = number.wrapping_mul(256).wrapping_add(u32::from(*byte));
    }
    number
}

/// The bytes that hexadecimal digits spell.
fn decoded(alloc: Global, digits: &str, entry: &Entry<'_>) -> Result<Vec<u8>, Trouble> {
    match hex::decode(alloc, digits) {
        Ok(bytes) => Ok(bytes),
        Err(_) => Err(entry.flaw("hexadecimal digits are wrong or odd in number")),
    }
}
