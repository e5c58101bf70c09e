//! The reader of the tokens of a store, from the first on. What it gives is in `specs/Reader`.

ghost use Rattle.std.specs.Prelude.{◌≡◌, ◌↔◌, [], length, IsTrue, IfOk, OnErr};
ghost use Rattle.rz_pre_source.specs.Reader.{GivesFirst};
ghost use Rattle.rz_pre_source.specs.Store.{size_of_all, tokens_of};

use crate::piece::{Piece, mark_of, shape_of, size_of};
use rz_core::NoMemory;
use rz_lex::Token;
use std::alloc::Global;
use std::marker::Model;

/// The room of fewer tokens isn't given back while others wait.
const LEAST_SPARE: usize = 4096;

/// The tokens of a store that are left to be read. Contracts see it as the list of these tokens. The memory of the
/// others is given back, but for their bytes.
#[derive(Debug, Drop)]
pub struct TokenReader {
    /// The pieces that are left, the first of them last.
    pieces: Vec<Piece>,
    bytes: Vec<u8>,
    /// How many bytes were read.
    start: usize,
}

impl Model for TokenReader {
    ghost use Rattle.std.specs.Prelude.{List};
    ghost use Rattle.rz_lex.specs.declared.token.Token.{Token};

    ghost Value = { List Token };

    ghost use Rattle.std.specs.Prelude.{◌≡◌, ◌+◌, drop, length, reverse};
    ghost use Rattle.rz_pre_source.specs.Store.{tokens_of, size_of_all};

    ghost view = { λ reader. tokens_of (reverse reader.pieces.items) (drop reader.start reader.bytes.items) };

    ghost invariant = { λ reader. reader.start + size_of_all (reverse reader.pieces.items) ≡ length reader.bytes.items };
}

impl TokenReader {
    /// The tokens of these pieces, with all bytes of these.
    pub(crate) fn new(mut pieces: Vec<Piece>, bytes: Vec<u8>) -> TokenReader
        requires { size_of_all pieces.items ≡ length bytes.items }
        ensures { result ≡ tokens_of pieces.items bytes.items }
    {
        pieces.reverse();
        TokenReader {
            pieces,
            bytes,
            start: 0,
        }
    }

    /// Whether no token is left.
    pub fn is_empty(&self) -> bool
        ensures { IsTrue result ↔ (self.now ≡ []) }
    {
        self.pieces.is_empty()
    }

    /// The first of the tokens that are left, with a copy of its bytes; `None` exactly where none is left. The
    /// others are left then. Where memory is refused the reader is unchanged.
    pub fn next(&mut self, alloc: Global) -> Result<Option<Token>, NoMemory>
        ensures ok { IfOk result (λ given. GivesFirst given self.old self.new) }
        ensures err { OnErr result (self.new ≡ self.old) }
    {
        let Some((first, others)) = self.pieces.split_last() else {
            return Ok(None);
        };
        let first = *first;
        let left = others.len();
        let end = self.start + size_of(first.kind);
        let shape = shape_of(alloc, first.kind, &self.bytes[self.start..end])?;
        self.start = end;
        self.pieces.truncate(left);
        give_back(&mut self.pieces);
        Ok(Some(Token {
            shape,
            mark: mark_of(first),
        }))
    }
}

/// Gives back the memory after the pieces, once it is that of many and more than an eighth of all.
fn give_back(pieces: &mut Vec<Piece>)
    ensures { pieces.new.items ≡ pieces.old.items }
{
    let room = pieces.capacity();
    let spare = room.saturating_sub(pieces.len());
    if spare > LEAST_SPARE && spare > room / 8 {
        pieces.shrink_to_fit();
    }
}
