//! Entries on lines; changes with `specs/Text`.

ghost use Rattle.std.specs.Prelude.{◌≡◌, [], ◌∷◌, ◌++◌, OnOk, OnErr};
ghost use Rattle.rz_catalog_text.specs.Text.{entries_text, head_text, piece_text, pieces_text};

use crate::Entry;
use rz_core::{Bytes, NoMemory, write_decimal, write_quoted, write_signed, write_type};

/// The bytes of a text that stand on one line.
const PIECE: usize = 64;

/// Appends an entry: a line with the type as a literal, the id and the place of the text, with a blank between; and the
/// text in pieces of 64 bytes, each between `"` on a line of its own after four blanks, with `;` after the last one.
/// Bytes outside of 20 to 7E are written as `\0x` and two hex digits. An empty text is one piece. Where memory is
/// refused `into` is unchanged.
pub fn write_entry(entry: &Entry, into: &mut Bytes) -> Result<(), NoMemory>
    ensures ok { OnOk result (into.new ≡ into.old ++ entries_text (entry.now ∷ [])) }
    ensures err { OnErr result (into.new ≡ into.old) }
{
    let mut text = Bytes::new(into.allocator());
    append_head(entry, &mut text)?;
    append_pieces(entry.text.as_slice(), &mut text)?;
    into.append(text.as_slice())?;
    Ok(())
}

/// Appends the first line.
fn append_head(entry: &Entry, into: &mut Bytes) -> Result<(), NoMemory>
    ensures { OnOk result (into.new ≡ into.old ++ head_text entry.now) }
{
    write_type(entry.kind, into)?;
    into.push(b' ')?;
    write_signed(i64::from(entry.id), into)?;
    into.push(b' ')?;
    write_decimal(u64::from(entry.leaf), into)?;
    into.push(b'\n')?;
    Ok(())
}

/// Appends the lines of a text.
fn append_pieces(text: &[u8], into: &mut Bytes) -> Result<(), NoMemory>
    ensures { OnOk result (into.new ≡ into.old ++ pieces_text text.now) }
{
    let mut rest = text;
    'pieces: while rest.len() > PIECE {
        let (piece, behind) = rest.split_at(PIECE);
        append_piece(piece, b"\n", into)?;
        rest = behind;
    }
    append_piece(rest, b";\n", into)
}

/// Appends a piece after four blanks, and what ends its line.
fn append_piece(piece: &[u8], end: &[u8], into: &mut Bytes) -> Result<(), NoMemory>
    ensures { OnOk result (into.new ≡ into.old ++ piece_text piece.now end.now) }
{
    into.append(b"    ")?;
    write_quoted(piece, b'"', into)?;
    into.append(end)?;
    Ok(())
}
