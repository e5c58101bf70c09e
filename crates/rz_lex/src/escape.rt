//! The bytes between quote marks, with their escapes resolved; a new escape changes `specs/Escape` too.

ghost use Rattle.std.specs.Prelude.{◌≡◌, ◌+◌, ◌<◌, ◌≤◌, [], ◌∷◌, length, drop, IfOk, IfSome, MatchOption, None};
ghost use Rattle.rz_lex.specs.Escape.{before, digits_escape, escape_at, escape_behind_0, letter_escape, text_value};

use crate::digits::digits_value;
use memchr::memchr;
use rz_core::{Bytes, NoMemory};
use std::alloc::Global;

/// What the bytes between the quote marks of a literal or a text stand for. `None` comes exactly where
/// an escape has another form than these, or a value over 255: `\t`, `\b`, `\n`, `\r`, `\v`, `\f`, `\?`,
/// `\\`, `\'`, `\"`; `\0b` and eight binary digits, `\0d` and three decimal digits, `\0x` and two hex
/// digits, the letter in either case; `\$` and two hex digits; three octal digits. (MPW Rez.)
#[tactic(auto, using(crate::proofs::Befores::before_one_more))]
pub fn text_value(alloc: Global, body: &[u8]) -> Result<Option<Bytes>, NoMemory>
    ensures { IfOk result (λ value. value ≡ text_value 0 body.now) }
{
    if memchr(b'\\', body).is_none() {
        return Ok(Some(Bytes::of(alloc, body)?));
    }
    let mut value = Bytes::with_capacity(alloc, body.len())?;
    let mut rest = body;
    while !rest.is_empty() {
        match byte_at(rest) {
            None => return Ok(None),
            Some((byte, after)) => {
                value.push(byte)?;
                rest = after;
            }
        }
    }
    Ok(Some(value))
}

/// The byte that stands first between quote marks, and what follows it.
fn byte_at(rest: &[u8]) -> Option<(u8, &[u8])>
    requires { 0 < length rest.now }
    ensures byte { MatchOption result (text_value 0 rest.now ≡ None)
        (λ read. text_value 0 rest.now ≡ before (read.0 ∷ []) (text_value 0 read.1.now)) }
    ensures shorter { IfSome result (λ read. length read.1.now < length rest.now) }
{
    match rest {
        [b'\\', after @ ..] => escaped_byte(after),
        [byte, after @ ..] => Some((*byte, after)),
        [] => None,
    }
}

/// The byte of the escape whose backslash stands before these bytes, and what follows it.
fn escaped_byte(bytes: &[u8]) -> Option<(u8, &[u8])>
    ensures byte { MatchOption result (text_value 0 (92 ∷ bytes.now) ≡ None)
        (λ read. text_value 0 (92 ∷ bytes.now) ≡ before (read.0 ∷ []) (text_value 0 read.1.now)) }
    ensures shorter { IfSome result (λ read. length read.1.now ≤ length bytes.now) }
{
    match escape_at(bytes) {
        Some((byte, size)) => Some((byte, rest_at(bytes, size))),
        None => None,
    }
}

/// The bytes from a position on.
fn rest_at(bytes: &[u8], size: usize) -> &[u8]
    requires { size ≤ length bytes.now }
    ensures { result.now ≡ drop size bytes.now }
{
    bytes.split_at(size).1
}

/// The byte of the escape whose backslash stands before these bytes, and how many of them spell it.
fn escape_at(bytes: &[u8]) -> Option<(u8, usize)>
    ensures value { result ≡ escape_at bytes.now }
    ensures within { IfSome result (λ read. read.1 ≤ length bytes.now) }
{
    match bytes {
        [] => None,
        [b'0', after @ ..] => escape_behind_0(bytes, after),
        [b'$', after @ ..] => digits_escape(16, 1, 2, after),
        [letter, ..] => match letter_escape(*letter) {
            Some(byte) => Some((byte, 1)),
            None => digits_escape(8, 0, 3, bytes),
        },
    }
}

/// The same for an escape that begins with a 0; `bytes` stands after the 0.
fn escape_behind_0(whole: &[u8], bytes: &[u8]) -> Option<(u8, usize)>
    requires { whole.now ≡ 48 ∷ bytes.now }
    ensures value { result ≡ escape_behind_0 bytes.now }
    ensures within { IfSome result (λ read. read.1 ≤ length whole.now) }
{
    match bytes {
        [] => None,
        [b'B' | b'b', after @ ..] => digits_escape(2, 2, 8, after),
        [b'D' | b'd', after @ ..] => digits_escape(10, 2, 3, after),
        [b'X' | b'x', after @ ..] => digits_escape(16, 2, 2, after),
        _ => digits_escape(8, 0, 3, whole),
    }
}

/// The byte that exactly so many digits spell, after bytes that are passed, and how many bytes all of
/// these are.
fn digits_escape(base: u8, passed: usize, count: usize, bytes: &[u8]) -> Option<(u8, usize)>
    requires base { (1 < base) × (base ≤ 16) }
    requires short { passed + count < 100 }
    ensures value { result ≡ digits_escape base passed count bytes.now }
    ensures within { IfSome result (λ read. read.1 ≤ passed + length bytes.now) }
{
    if bytes.len() < count {
        return None;
    }
    match digits_value(base, bytes.split_at(count).0) {
        Some(value) if value < 256 => Some((value as u8, passed + count)),
        _ => None,
    }
}

/// The byte that one letter or mark after a backslash stands for.
fn letter_escape(letter: u8) -> Option<u8>
    ensures { result ≡ letter_escape letter }
{
    match letter {
        b't' => Some(0x09),
        b'b' => Some(0x08),
        b'n' => Some(0x0D),
        b'r' => Some(0x0A),
        b'v' => Some(0x0B),
        b'f' => Some(0x0C),
        b'?' => Some(0x7F),
        b'\\' | b'\'' | b'"' => Some(letter),
        _ => None,
    }
}
