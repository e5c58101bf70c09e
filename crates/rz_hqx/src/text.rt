//! The text of BinHex: the first line, the colons, and lines of letters; changed only with `specs/Text`.

ghost use Rattle.std.specs.Prelude.{◌≡◌, ◌<◌, ◌≤◌, ◌++◌, ◌∷◌, [], length, IfOk, IfSome, OnOk};
ghost use Rattle.std.specs.List.{AllByRecursion};
ghost use Rattle.std.specs.Option.{option_copied};
ghost use Rattle.rz_hqx.specs.Text.{is_line_end, is_blank, behind_line, behind_head, behind_colon, gap_at, lines_of};

use crate::letters::letter;
use rz_core::{Bytes, NoMemory};
use std::alloc::Global;

/// How the line begins after which the letters stand.
const HEAD: &[u8] = b"(This file must be converted with BinHex";

/// The line that is written.
const HEAD_LINE: &[u8] = b"(This file must be converted with BinHex 4.0)\n";

/// The byte before and after the letters.
pub const COLON: u8 = b':';

/// Whether a line ends at the byte: a line feed or a carriage return.
fn is_line_end(byte: u8) -> bool
    ensures { result ≡ is_line_end byte }
{
    byte == b'\n' || byte == b'\r'
}

/// Whether the byte stands for nothing among letters: a blank, a tab or the end of a line. (BinHex 4.0.)
pub fn is_blank(byte: u8) -> bool
    ensures { result ≡ is_blank byte }
{
    byte == b' ' || byte == b'\t' || is_line_end(byte)
}

/// The bytes after the end of the line.
fn behind_line(bytes: &[u8]) -> &[u8]
    ensures bytes { result.now ≡ behind_line bytes.now }
    ensures within { length result.now ≤ length bytes.now }
{
    let mut rest = bytes;
    while let [byte, after @ ..] = rest {
        rest = after;
        if is_line_end(*byte) {
            return rest;
        }
    }
    rest
}

/// The bytes after the first line that says what the text is.
pub fn behind_head(bytes: &[u8]) -> &[u8]
    ensures bytes { result.now ≡ behind_head bytes.now }
    ensures within { length result.now ≤ length bytes.now }
{
    let mut rest = bytes;
    let mut first = true;
    while let [byte, after @ ..] = rest {
        if first && rest.starts_with(HEAD) {
            return behind_line(rest);
        }
        first = is_line_end(*byte);
        rest = after;
    }
    rest
}

/// The bytes after a colon that stands after blanks alone.
pub fn behind_colon(bytes: &[u8]) -> Option<&[u8]>
    ensures bytes { option_copied result ≡ behind_colon bytes.now }
    ensures within { IfSome result (λ body. length body.now ≤ length bytes.now) }
{
    let mut rest = bytes;
    while let [byte, after @ ..] = rest {
        if *byte == COLON {
            return Some(after);
        }
        if !is_blank(*byte) {
            return None;
        }
        rest = after;
    }
    None
}

/// Appends a character after so many others, on a line of its own after each 64.
fn append_char(out: &mut Bytes, count: usize, char: u8) -> Result<(), NoMemory>
    ensures { OnOk result (out.new ≡ out.old ++ gap_at count ++ char ∷ []) }
{
    if count != 0 && count % 64 == 0 {
        out.push(b'\n')?;
    }
    out.push(char)?;
    Ok(())
}

/// The text of numbers.
pub fn lines_of(alloc: Global, numbers: &[u8]) -> Result<Bytes, NoMemory>
    requires { AllByRecursion (λ n. n < 64) numbers.now }
    ensures { IfOk result (λ text. text ≡ lines_of numbers.now) }
{
    let mut out = Bytes::of(alloc, HEAD_LINE)?;
    append_char(&mut out, 0, COLON)?;
    for (position, number) in numbers.iter().enumerate() {
        append_char(&mut out, position + 1, letter(*number))?;
    }
    append_char(&mut out, numbers.len() + 1, COLON)?;
    out.push(b'\n')?;
    Ok(out)
}
