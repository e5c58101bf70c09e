//! The text of a source in Mac Roman, also where the source is UTF-8. It is defined in `specs/Source`.

ghost use Rattle.std.specs.Prelude.{◌≡◌, ℕ, ◌+◌, ◌^◌, ◌<◌, ◌≤◌, List, ◌++◌, length, IfOk, MatchOption, Ok, Err};
ghost use Rattle.rz_core.specs.Stop.{Gives, OnFault};
ghost use Rattle.rz_pre_source.specs.declared.source.BadText.{BadText};
ghost use Rattle.rz_pre_source.specs.Source.{mark, IsBadAt, IsTextOf, IsUnmarked, LacksByteAt, Spells, StopsAt};

use rz_core::{Bytes, Stop, to_roman};
use std::alloc::Global;

/// The place in a source in UTF-8 of what can't be turned into Mac Roman.
#[derive(Clone, Copy, Debug, Drop, PartialEq, Eq)]
pub struct BadText {
    /// The bytes of the file in front of it, the three of the mark counted.
    pub offset: u64,
}

/// The bytes at the front of a source in UTF-8.
const MARK: [u8; 3] = [0xEF, 0xBB, 0xBF];

/// The text of a source in Mac Roman, or the first byte of what has no place in it. A source that begins with the bytes
/// EF BB BF is UTF-8, and each character after these is turned into its byte; any other source is given back as it
/// stands, and takes no memory. The refusal comes exactly where the bytes after the mark aren't UTF-8 or hold a
/// character that has no byte, and tells the first byte of the first such sequence or character. (Unicode Standard,
/// table 3-7; Inside Macintosh: Text.)
pub fn to_mac_roman(alloc: Global, source: Bytes) -> Result<Bytes, Stop<BadText>>
    ensures unmarked { IsUnmarked source → result ≡ Ok source }
    ensures text { IfOk result (IsTextOf source) }
    ensures shorter { IfOk result (λ text. length text ≤ length source) }
    ensures bad { OnFault result (λ fault. IsBadAt source fault.offset) }
    ensures every_text { (text : List ℕ) → IsTextOf source text → Gives (Ok text) result }
    ensures every_fault { (fault : BadText) → IsBadAt source fault.offset → Gives (Err fault) result }
{
    match behind_mark(source.as_slice()) {
        Some(text) => turn(alloc, text),
        None => Ok(source),
    }
}

/// The bytes after the mark, where the source has it.
fn behind_mark(source: &[u8]) -> Option<&[u8]>
    ensures { MatchOption result (IsUnmarked source.now) (λ text. source.now ≡ mark ++ text.now) }
{
    source.strip_prefix(&MARK)
}

/// The text after the mark in Mac Roman.
fn turn(alloc: Global, text: &[u8]) -> Result<Bytes, Stop<BadText>>
    ensures text { IfOk result (Spells text.now) }
    ensures bad { OnFault result (λ fault. StopsAt text.now fault.offset) }
{
    match text.utf8_chunks().next() {
        None => Ok(Bytes::new(alloc)),
        Some(chunk) => {
            let bytes = turn_characters(alloc, chunk.valid())?;
            if chunk.invalid().is_empty() {
                Ok(bytes)
            } else {
                Err(Stop::Refused(bad_at(chunk.valid().len())))
            }
        }
    }
}

/// The bytes of the characters of a text.
fn turn_characters(alloc: Global, text: &str) -> Result<Bytes, Stop<BadText>>
    ensures text { IfOk result (Spells text.now) }
    ensures bad { OnFault result (λ fault. LacksByteAt text.now fault.offset) }
{
    let mut bytes = Bytes::new(alloc);
    for (offset, character) in text.char_indices() {
        match to_roman(character) {
            Some(byte) => bytes.push(byte)?,
            None => return Err(Stop::Refused(bad_at(offset))),
        }
    }
    Ok(bytes)
}

/// The place at an offset in the text after the mark.
fn bad_at(offset: usize) -> BadText
    requires { 3 + offset < 2 ^ 64 }
    ensures { result.offset ≡ 3 + offset }
{
    BadText {
        offset: (MARK.len() + offset) as u64,
    }
}
