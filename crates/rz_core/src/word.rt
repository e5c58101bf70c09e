//! Copies of names of the language, and their comparison without case, whose fold is in `specs/Roman`.

ghost use Rattle.std.specs.Prelude.{◌≡◌, ◌↔◌, ℕ, List, map, true, IfOk};
ghost use Rattle.std.specs.Str.{str_eq_ignore_ascii_case, str_to_ascii_lowercase};
ghost use Rattle.rz_core.specs.Roman.{folded};

use crate::{Bytes, NoMemory, Word};
use std::alloc::Global;

impl Word {
    /// A copy of the word, in the same spelling.
    pub fn copy(&self, alloc: Global) -> Result<Word, NoMemory>
        ensures { IfOk result (λ word. word ≡ self.now) }
    {
        Ok(Word {
            bytes: Bytes::of(alloc, self.bytes.as_slice())?,
        })
    }

    /// Whether the word is this name; the case of `A` to `Z` doesn't matter.
    pub fn is(&self, name: &[u8]) -> bool
        ensures { result ≡ str_eq_ignore_ascii_case self.now.bytes name.now }
    {
        self.bytes.as_slice().eq_ignore_ascii_case(name)
    }
}

/// A law, with nothing to run: the three ways in which names are compared agree. Two names are equal
/// without case exactly where they are equal in lower case, and lower case is the fold of each byte.
pub fn names_agree()
    ensures lower { (one other : List ℕ) → (str_eq_ignore_ascii_case one other ≡ true) ↔ (str_to_ascii_lowercase one ≡ str_to_ascii_lowercase other) }
    ensures folded { (name : List ℕ) → map folded name ≡ str_to_ascii_lowercase name }
    ensures fold { (one other : List ℕ) → (str_eq_ignore_ascii_case one other ≡ true) ↔ (map folded one ≡ map folded other) }
{}
