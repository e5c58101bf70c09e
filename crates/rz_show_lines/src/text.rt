//! Texts in pieces, of which each stands on a line of its own; changes with `specs/Pieces`.

ghost use Rattle.std.specs.Prelude.{◌≡◌, ℕ, ◌∷◌, ◌++◌, List};
ghost use Rattle.rz_show_lines.specs.Texts.{behind_piece, pending_lines};
ghost use Rattle.rz_show_lines.specs.Print.{margin, piece_written, text_lines};
ghost use Rattle.rz_show_lines.specs.Pieces.{piece_size};
ghost use Rattle.rz_show_lines.specs.Written.{Written};

/// The bytes of a text that stand on one line.
pub const PIECE: usize = 64;

/// The same, in hexadecimal.
const HEX_PIECE: usize = 16;

/// A text, or what is left of it.
#[derive(Clone, Copy)]
pub struct Text<'a> {
    /// The bytes.
    pub bytes: &'a [u8],
    /// Whether they are shown in hexadecimal.
    pub hex: bool,
}

/// The first piece of a text.
#[derive(Drop)]
pub struct Front<'a> {
    /// Its bytes.
    pub piece: &'a [u8],
    /// What is left of the text, where something is.
    pub rest: Option<Text<'a>>,
}

/// How many bytes of a text stand on one line.
fn piece_size(hex: bool) -> usize
    ensures { result ≡ piece_size hex }
{
    if hex { HEX_PIECE } else { PIECE }
}

impl<'a> Text<'a> {
    /// The first piece; an empty text is one piece.
    pub fn front(self) -> Front<'a>
        ensures { (depth : ℕ) → (behind : List Written) → text_lines depth behind self.entry.hex self.entry.bytes.now ≡ (margin depth ++ piece_written self.entry.hex result.piece.now ∷ behind_piece result.rest behind) ∷ pending_lines depth behind result.rest }
    {
        let size = piece_size(self.hex);
        if self.bytes.len() <= size {
            return Front {
                piece: self.bytes,
                rest: None,
            };
        }
        let (piece, bytes) = self.bytes.split_at(size);
        let rest = Text {
            bytes,
            hex: self.hex,
        };
        Front {
            piece,
            rest: Some(rest),
        }
    }
}
