//! Entries as tokens; changes with `specs/Entries` and `specs/Read`.

ghost use Rattle.std.specs.Prelude.{◌≡◌, ◌≤◌, length, Some, IfOk, option_map};
ghost use Rattle.rz_core.specs.Stop.{Meets};
ghost use Rattle.rz_catalog_text.specs.Entries.{bad_entry, id_value, AreEntries};
ghost use Rattle.rz_catalog_text.specs.Read.{chunk_size, entry_in, front_in, front_of, front_read, id_in, kind_in, number_in, shapes_of, text_in, texts_in};

use crate::{Entries, Entry};
use rz_core::{Bytes, Fault, Kept, Mark, NoMemory, OsType, Stop};
use rz_lex::{Shape, Sign, Token, Tokens, one_sign};
use std::alloc::Global;

/// What stands before the texts of an entry.
#[derive(Drop)]
struct Front<'a> {
    /// The type.
    kind: OsType,
    /// The id.
    id: i16,
    /// The place of the text.
    leaf: u32,
    /// What stands after them.
    texts: &'a [Token],
}

/// The entries that the tokens are, in order. Each is a literal of four bytes, the type; the id, a number, after a
/// minus sign or none; the place of the text, a number; one text token or more, which are joined; and `;`. It has the
/// mark of its first token, and lines play no part. Time and memory are linear in the tokens.
///
/// Refused is the first entry that has another form, or whose id isn't from -32768 to 32767: 461 BadEntry, at its first
/// token. Tokens after the last `;` are an entry, too.
pub fn read_entries(alloc: Global, tokens: &Tokens) -> Result<Entries, Stop<Fault>>
    ensures { Meets result (AreEntries tokens.now) }
{
    one_sign();
    let mut entries = Entries::new(alloc);
    let mut rest = tokens.as_slice();
    'chunks: while let Some((first, _)) = rest.split_first() {
        let (chunk, behind) = rest.split_at(chunk_size(rest));
        match entry_in(alloc, first.mark, chunk)? {
            Some(entry) => entries.push(entry)?,
            None => return Err(Stop::Refused(bad_entry(first.mark))),
        }
        rest = behind;
    }
    Ok(entries)
}

/// The fault of tokens that are no entry.
fn bad_entry(mark: Mark) -> Fault
    ensures { result ≡ bad_entry (Some mark) }
{
    Fault {
        number: 461,
        mark: Some(mark),
        kept: Kept::Nothing,
    }
}

/// How many tokens stand up to the first `;` and with it, or to the end.
fn chunk_size(tokens: &[Token]) -> usize
    ensures size { result ≡ chunk_size tokens.now }
    ensures within { result ≤ length tokens.now }
{
    let mut size = 0;
    let mut rest = tokens;
    while let Some((first, behind)) = rest.split_first() {
        size += 1;
        if first.is_sign(Sign::Semicolon) {
            return size;
        }
        rest = behind;
    }
    size
}

/// The entry that the tokens are, with this mark, where they are one.
fn entry_in(alloc: Global, mark: Mark, chunk: &[Token]) -> Result<Option<Entry>, NoMemory>
    ensures { IfOk result (λ entry. entry ≡ entry_in mark (shapes_of chunk.now)) }
{
    let Some(front) = front_in(chunk) else {
        return Ok(None);
    };
    match text_in(alloc, front.texts)? {
        Some(text) => Ok(Some(Entry {
            kind: front.kind,
            id: front.id,
            leaf: front.leaf,
            text,
            mark,
        })),
        None => Ok(None),
    }
}

fn front_in(chunk: &[Token]) -> Option<Front<'_>>
    ensures { option_map front_read result ≡ front_in (shapes_of chunk.now) }
{
    match chunk {
        [kind, minus, id, leaf, texts @ ..] if minus.is_sign(Sign::Minus) => {
            front_of(kind, true, id, leaf, texts)
        }
        [kind, id, leaf, texts @ ..] => front_of(kind, false, id, leaf, texts),
        _ => None,
    }
}

fn front_of<'a>(
    kind: &Token,
    minus: bool,
    number: &Token,
    leaf: &Token,
    texts: &'a [Token],
) -> Option<Front<'a>>
    ensures { option_map front_read result ≡ front_of kind.now.shape minus number.now.shape leaf.now.shape (shapes_of texts.now) }
{
    let kind = kind_in(kind)?;
    let id = id_in(minus, number_in(number)?)?;
    let leaf = number_in(leaf)?;
    Some(Front {
        kind,
        id,
        leaf,
        texts,
    })
}

/// The type that a literal is.
fn kind_in(token: &Token) -> Option<OsType>
    ensures { result ≡ kind_in token.now.shape }
{
    match &token.shape {
        Shape::Literal(bytes) => OsType::of_bytes(bytes.as_slice()),
        _ => None,
    }
}

fn number_in(token: &Token) -> Option<u32>
    ensures { result ≡ number_in token.now.shape }
{
    match token.shape {
        Shape::Number(number) => Some(number),
        _ => None,
    }
}

/// The id that a number is after a minus sign or none, where it has 16 bits.
fn id_in(minus: bool, number: u32) -> Option<i16>
    ensures { result ≡ id_in (id_value minus number) }
{
    let number = i64::from(number);
    let id = if minus { -number } else { number };
    if -32_768 <= id && id <= 32_767 {
        Some(id as i16)
    } else {
        None
    }
}

/// The texts that the tokens are, joined, where there is one and `;` stands after them.
fn text_in(alloc: Global, tokens: &[Token]) -> Result<Option<Bytes>, NoMemory>
    ensures { IfOk result (λ text. text ≡ text_in (shapes_of tokens.now)) }
{
    match tokens.split_first() {
        Some((first, _)) if matches!(first.shape, Shape::Text(_)) => texts_in(alloc, tokens),
        _ => Ok(None),
    }
}

/// The same, where there may be no text.
fn texts_in(alloc: Global, tokens: &[Token]) -> Result<Option<Bytes>, NoMemory>
    ensures { IfOk result (λ text. text ≡ texts_in (shapes_of tokens.now)) }
{
    let mut text = Bytes::new(alloc);
    let mut rest = tokens;
    'texts: while let Some((first, behind)) = rest.split_first() {
        match &first.shape {
            Shape::Text(bytes) => text.append(bytes.as_slice())?,
            _ => {
                let ends = first.is_sign(Sign::Semicolon) && behind.is_empty();
                return Ok(if ends { Some(text) } else { None });
            }
        }
        rest = behind;
    }
    Ok(None)
}
