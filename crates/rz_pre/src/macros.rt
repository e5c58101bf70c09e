//! The table of macros, by their names in lower case. Which of them are live is in `specs/Live`.

ghost use Rattle.std.specs.Prelude.{◌≡◌, ◌≤◌, ℕ, List, [], length, IfOk, OnOk, option_map, is_some};
ghost use Rattle.std.specs.Str.{str_to_ascii_lowercase};
ghost use Rattle.rz_pre.specs.Live.{body_at, live_in, live_row, put, shapes_of, token_row};
ghost use Rattle.rz_pre.specs.Macros.{rows_of};
ghost use Rattle.rz_pre.specs.Reading.{is_among};

use indexmap::IndexMap;
use rz_core::{Bytes, NoMemory, Word, Words};
use rz_lex::{Shape, Token, Tokens};
use std::alloc::Global;

/// The most bytes of a name that is looked up without memory.
const SHORT: usize = 64;

/// The macros that were defined or undefined so far, by their names in lower case, in the order in which
/// each was first named. One that is undefined has no tokens. (MPW Rez.)
#[derive(Drop)]
pub struct Macros {
    held: IndexMap<Vec<u8>, Option<Tokens>>,
}

/// A name in lower case.
fn lower(alloc: Global, name: &Word) -> Result<Vec<u8>, NoMemory>
    ensures { IfOk result (λ lower. lower.items ≡ str_to_ascii_lowercase name.now.bytes) }
{
    Ok(name.bytes.as_slice().to_ascii_lowercase(alloc)?)
}

/// A short name in lower case, written at the front of a buffer.
fn lower_short<'a>(front: &'a mut [u8; SHORT], name: &[u8]) -> &'a [u8]
    requires { length name.now ≤ 64 }
    ensures { result.now ≡ str_to_ascii_lowercase name.now }
{
    let lower = &mut front[..name.len()];
    lower.copy_from_slice(name);
    lower.make_ascii_lowercase();
    lower
}

impl Macros {
    /// No macros. It takes no memory.
    pub fn new(alloc: Global) -> Macros
        ensures { rows_of result ≡ [] }
    {
        Macros {
            held: IndexMap::new(alloc),
        }
    }

    /// From here on a word of this name stands for these tokens, or for itself, whatever it stood for before.
    pub fn set(&mut self, alloc: Global, name: &Word, body: Option<Tokens>) -> Result<(), NoMemory>
        ensures { OnOk result (live_in (rows_of self.new)
            ≡ put (str_to_ascii_lowercase name.now.bytes) (option_map shapes_of body) (live_in (rows_of self.old))) }
    {
        let key = lower(alloc, name)?;
        self.held.insert(key, body)?;
        Ok(())
    }

    /// The names that are live, in lower case.
    pub fn names(&self, alloc: Global) -> Result<Words, NoMemory>
        ensures { IfOk result (λ words. (name : List ℕ) → is_among name words ≡ is_some (live_in (rows_of self.now) name)) }
    {
        let mut words = Words::new(alloc);
        for index in 0..self.held.len() {
            if let Some((name, body)) = self.held.get_index(index) {
                if body.is_some() {
                    words.push(Word {
                        bytes: Bytes::of(alloc, name)?,
                    })?;
                }
            }
        }
        Ok(words)
    }

    /// The position of a macro that is live. Case doesn't matter. It takes memory only for a name of more than
    /// 64 bytes, and none where no macro was ever named.
    pub fn find(&self, alloc: Global, name: &Word) -> Result<Option<usize>, NoMemory>
        ensures { IfOk result (λ found. found ≡ live_row (rows_of self.now) (str_to_ascii_lowercase name.now.bytes)) }
    {
        if self.held.is_empty() {
            return Ok(None);
        }
        let bytes = name.bytes.as_slice();
        if bytes.len() <= SHORT {
            let mut front = [0; SHORT];
            return Ok(self.live_at(lower_short(&mut front, bytes)));
        }
        let key = lower(alloc, name)?;
        Ok(self.live_at(&key))
    }

    /// The position of a macro that is live, by its name in lower case.
    fn live_at(&self, name: &[u8]) -> Option<usize>
        ensures { result ≡ live_row (rows_of self.now) name.now }
    {
        match self.held.get_full(name) {
            Some((index, _, body)) => { if body.is_some() { Some(index) } else { None } }
            None => None,
        }
    }

    /// The position of the live macro that a token names.
    pub fn find_token(&self, alloc: Global, shape: &Shape) -> Result<Option<usize>, NoMemory>
        ensures { IfOk result (λ found. found ≡ token_row (rows_of self.now) shape.now) }
    {
        match shape {
            Shape::Word(word) => self.find(alloc, word),
            _ => Ok(None),
        }
    }

    /// The tokens of the macro at a position; none where there is no live macro.
    pub fn body(&self, index: usize) -> &[Token]
        ensures { shapes_of result.now ≡ body_at (rows_of self.now) index }
    {
        match self.held.get_index(index) {
            Some((_, body)) => match body {
                Some(tokens) => tokens.as_slice(),
                None => &[],
            },
            None => &[],
        }
    }
}
