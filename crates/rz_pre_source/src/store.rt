//! The store of tokens, which grows at its end. Which tokens it holds is in `specs/Store`.

ghost use Rattle.std.specs.Prelude.{◌≡◌, ◌+◌, ◌<◌, ◌≤◌, ◌↔◌, [], ◌++◌, length, vec_len, vec_capacity, IfSome, IsTrue, OnOk, OnErr};
ghost use Rattle.rz_pre_source.specs.Store.{bytes_of, pieces_of, AreShort};

use crate::piece::{Piece, held_of, piece_of};
use crate::reader::TokenReader;
use rz_core::NoMemory;
use rz_lex::Token;
use std::alloc::Global;
use std::marker::Model;

/// A long list of tokens that grows at its end, in little memory: 16 bytes for each token, and the bytes of all
/// words, literals and texts one after the other in one store. Contracts see it as the list of the tokens.
#[derive(Debug, Drop)]
pub struct TokenStore {
    pieces: Vec<Piece>,
    bytes: Vec<u8>,
}

impl Model for TokenStore {
    ghost use Rattle.std.specs.Prelude.{List};
    ghost use Rattle.rz_lex.specs.declared.token.Token.{Token};

    ghost Value = { List Token };

    ghost use Rattle.std.specs.Prelude.{◌≡◌, length};
    ghost use Rattle.rz_pre_source.specs.Store.{tokens_of, size_of_all};

    ghost view = { λ store. tokens_of store.pieces.items store.bytes.items };

    ghost invariant = { λ store. size_of_all store.pieces.items ≡ length store.bytes.items };
}

impl TokenStore {
    /// The list without tokens. It takes no memory.
    pub fn new(alloc: Global) -> TokenStore
        ensures { result ≡ [] }
    {
        TokenStore {
            pieces: Vec::new(alloc),
            bytes: Vec::new(alloc),
        }
    }

    /// Whether there are no tokens.
    pub fn is_empty(&self) -> bool
        ensures { IsTrue result ↔ (self.now ≡ []) }
    {
        self.pieces.is_empty()
    }

    /// The number of tokens.
    pub fn len(&self) -> u64
        ensures { result ≡ length self.now }
    {
        self.pieces.len() as u64
    }

    /// Appends copies of the tokens. Where memory is refused the list is unchanged; a word, a literal or a text
    /// of 2^32 bytes or more is answered as `NoMemory` too, and so is a file after the first 2^32.
    pub fn append(&mut self, tokens: &[Token]) -> Result<(), NoMemory>
        ensures ok { OnOk result (self.new ≡ self.old ++ tokens.now) }
        ensures err { OnErr result (self.new ≡ self.old) }
    {
        let size = short_size(tokens).ok_or(NoMemory)?;
        self.pieces.reserve(tokens.len())?;
        self.bytes.reserve(size)?;
        append_reserved(&mut self.pieces, &mut self.bytes, tokens);
        Ok(())
    }

    /// The tokens, to be read from the first on. It takes no memory.
    pub fn into_reader(self) -> TokenReader
        ensures { result ≡ self }
    {
        let TokenStore { pieces, bytes } = self;
        TokenReader::new(pieces, bytes)
    }
}

/// How many bytes the tokens have together; `None` where one has 2^32 or more or stands in a later file than the first
/// 2^32, or all have more than memory can hold.
fn short_size(tokens: &[Token]) -> Option<usize>
    ensures size { IfSome result (λ size. size ≡ length (bytes_of tokens.now)) }
    ensures short { IfSome result (λ _. AreShort tokens.now) }
{
    let mut size: usize = 0;
    for token in tokens {
        let more = held_of(&token.shape).len();
        if more > u32::MAX as usize {
            return None;
        }
        if token.mark.file > u64::from(u32::MAX) {
            return None;
        }
        size = size.checked_add(more)?;
    }
    Some(size)
}

/// Appends the tokens, where there is room for them.
fn append_reserved(pieces: &mut Vec<Piece>, bytes: &mut Vec<u8>, tokens: &[Token])
    requires short { AreShort tokens.now }
    requires room_for_pieces { vec_len pieces.old + length tokens.now ≤ vec_capacity pieces.old }
    requires room_for_bytes { vec_len bytes.old + length (bytes_of tokens.now) ≤ vec_capacity bytes.old }
    ensures pieces { pieces.new.items ≡ pieces.old.items ++ pieces_of tokens.now }
    ensures bytes { bytes.new.items ≡ bytes.old.items ++ bytes_of tokens.now }
{
    for token in tokens {
        pieces.push_reserved(piece_of(token));
        let _ = bytes.extend_from_slice(held_of(&token.shape));
    }
}
