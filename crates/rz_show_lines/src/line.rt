//! A line that is being written. How much it holds is in `specs/Cut`; changes with `specs/Print` and `specs/Written`.

ghost use Rattle.std.specs.Prelude.{◌≡◌, ◌∷◌, ◌++◌, [], if◌then◌else◌};
ghost use Rattle.rz_show_lines.specs.Cut.{cut};
ghost use Rattle.rz_show_lines.specs.Print.{margin};
ghost use Rattle.rz_show_lines.specs.Written.{line_text};

use arrayvec::ArrayVec;
use std::marker::Model;

/// The deepest level that shows.
const DEEPEST: u8 = 8;

/// The margin of the deepest level.
const MARGIN: [u8; 32] = [b' '; 32];

/// A line that is being written: at most 512 bytes, and what is written after them is dropped. Contracts see its bytes.
#[derive(Drop)]
pub struct Line {
    bytes: ArrayVec<u8, 512>,
}

impl Model for Line {
    ghost use Rattle.std.specs.Prelude.{ℕ, List};

    ghost Value = { List ℕ };

    ghost view = { λ line. line.bytes.items };
}

impl Line {
    /// An empty line.
    pub fn new() -> Line
        ensures { result ≡ [] }
    {
        Line {
            bytes: ArrayVec::new(),
        }
    }

    /// Lets go what is written.
    pub fn clear(&mut self)
        ensures { self.new ≡ [] }
    {
        self.bytes.clear();
    }

    /// Writes a byte.
    #[tactic(auto, using(crate::proofs::Writes::room))]
    pub fn push(&mut self, byte: u8)
        ensures { self.new ≡ cut (self.old ++ byte ∷ []) }
    {
        if !self.bytes.is_full() {
            self.bytes.push(byte);
        }
    }

    /// Writes bytes.
    #[tactic(auto, using(crate::proofs::Writes::room))]
    pub fn append(&mut self, bytes: &[u8])
        ensures { self.new ≡ cut (self.old ++ bytes.now) }
    {
        let room = self.bytes.remaining_capacity();
        let front = &bytes[..room.min(bytes.len())];
        let _ = self.bytes.try_extend_from_slice(front);
    }

    /// Writes four blanks for each level, at most 32.
    pub fn margin(&mut self, depth: u8)
        ensures { self.new ≡ cut (self.old ++ line_text (margin depth)) }
    {
        let blanks = 4 * depth.min(DEEPEST) as usize;
        self.append(&MARGIN[..blanks]);
    }

    /// Writes a comma, where something stands after it.
    pub fn comma(&mut self, followed: bool)
        ensures { self.new ≡ cut (self.old ++ (if followed then 44 ∷ [] else [])) }
    {
        self.append(if followed { b"," } else { b"" });
    }

    /// The bytes of the line.
    pub fn as_slice(&self) -> &[u8]
        ensures { result.now ≡ self.now }
    {
        self.bytes.as_slice()
    }
}
