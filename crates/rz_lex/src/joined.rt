//! The joined text of a source, byte by byte, with physical lines. What is left out of it is in `specs/Joined`.

ghost use Rattle.std.specs.Prelude.{◌≡◌, ◌+◌, ◌<◌, ◌≤◌, ◌^◌, ◌∷◌, [], length, MatchOption, IfSome};
ghost use Rattle.rz_lex.specs.Joined.{ahead, IsOn};

/// A byte of a joined text, or a line end as 0A, and the physical line on which it stands, from 1.
#[derive(Clone, Copy, Debug)]
pub struct Placed {
    /// The byte; 0A of a line end.
    pub byte: u8,
    /// The physical line, from 1.
    pub line: u32,
}

/// A position in a text: what is left of the text, and the physical line on which that begins, from 1.
#[derive(Clone, Copy, Debug)]
pub struct Position<'a> {
    /// What is left of the text.
    pub rest: &'a [u8],
    /// The physical line on which that begins, from 1.
    pub line: u64,
}

/// The first byte of the joined text that stands ahead, and the position after it. `None` comes exactly
/// where nothing stands ahead.
pub fn next_byte(place: Position) -> Option<(Placed, Position)>
    requires { place.line + length place.rest.now ≤ 2 ^ 32 }
    ensures byte { MatchOption result (ahead place.entry ≡ []) (λ read. ahead place.entry ≡ read.0 ∷ ahead read.1) }
    ensures on { IfSome result (λ read. IsOn place.entry read.1) }
    ensures shorter { IfSome result (λ read. length read.1.rest.now < length place.entry.rest.now) }
{
    let mut rest = place.rest;
    let mut line = place.line;
    loop {
        match rest {
            [] => return None,
            [b'\\', b'\r', b'\n', after @ ..] => {
                rest = after;
                line += 1;
            }
            [b'\\', b'\r' | b'\n', after @ ..] => {
                rest = after;
                line += 1;
            }
            [b'\r', b'\n', after @ ..] => {
                return Some((put_on(b'\n', line), stand_at(after, line + 1)));
            }
            [b'\r' | b'\n', after @ ..] => {
                return Some((put_on(b'\n', line), stand_at(after, line + 1)));
            }
            [byte, after @ ..] => {
                return Some((put_on(*byte, line), stand_at(after, line)));
            }
        }
    }
}

/// A byte on a physical line.
fn put_on(byte: u8, line: u64) -> Placed
    requires { line < 2 ^ 32 }
    ensures { result ≡ record { byte = byte; line = line } }
{
    Placed {
        byte,
        line: line as u32,
    }
}

/// The position before these bytes.
fn stand_at(rest: &[u8], line: u64) -> Position
    ensures { result ≡ record { rest = rest.entry; line = line } }
{
    Position { rest, line }
}
