//! Pieces of a text, which are put one after the other. How a text was put is in `specs/Puts`.

ghost use Rattle.std.specs.Prelude.{◌≡◌, ◌≤◌, length};
ghost use Rattle.std.specs.List.{flat_map};
ghost use Rattle.rz_core.specs.Quoted.{shown_byte};
ghost use Rattle.rz_told.specs.Puts.{PutsText};

use rz_folder::{Put, Sink};
use rz_show_lines::{Line, PIECE};

/// A put failed. Nothing is put after it.
#[derive(Debug, Drop)]
pub struct Failed;

/// Puts bytes.
pub fn put_bytes<O: Sink>(bytes: &[u8], out: &mut O) -> Result<(), Failed>
    ensures { PutsText O.Sink out.old out.new bytes.now result }
{
    match out.put(bytes) {
        Put::Done => Ok(()),
        Put::Failed => Err(Failed),
    }
}

/// Puts what is written on a line.
pub fn put_line<O: Sink>(line: Line, out: &mut O) -> Result<(), Failed>
    ensures { PutsText O.Sink out.old out.new line result }
{
    put_bytes(line.as_slice(), out)
}

/// Puts bytes as they are shown between quotation marks, in pieces.
pub fn put_shown<O: Sink>(bytes: &[u8], out: &mut O) -> Result<(), Failed>
    ensures { PutsText O.Sink out.old out.new (flat_map (shown_byte 34) bytes.now) result }
{
    let mut left = bytes;
    'pieces: while !left.is_empty() {
        let (piece, behind) = left.split_at(left.len().min(PIECE));
        put_line(shown(piece), out)?;
        left = behind;
    }
    Ok(())
}

/// The line of a piece.
fn shown(piece: &[u8]) -> Line
    requires { length piece.now ≤ 64 }
    ensures { result ≡ flat_map (shown_byte 34) piece.now }
{
    let mut line = Line::new();
    for &byte in piece {
        line.shown(byte, b'"');
    }
    line
}
