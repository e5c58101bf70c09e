//! Names as keys, which are the same in whatever case.

ghost use Rattle.std.specs.Prelude.{◌≡◌, fold, nat_eq};
ghost use Rattle.std.specs.Cmp.Lexicographic.{pointwise};
ghost use Rattle.std.specs.Cmp.Rules.{comparing, hashing};
ghost use Rattle.std.specs.Hash as fed;
ghost use Rattle.std.specs.Ordering.{on};
ghost use Rattle.std.specs.Str.{str_to_ascii_lowercase};
ghost use Rattle.std.proofs.Common.{rules};

use rz_core::Word;
use std::hash::{Hash, Hasher};

/// A name as a key: it is equal to each that differs from it in the case of letters alone.
#[derive(Clone, Copy)]
pub struct Folded<'a>(pub &'a Word);

impl PartialEq for Folded<'_> {
    ghost eq = { on (λ name. str_to_ascii_lowercase name.0.now.bytes) (pointwise nat_eq) };

    ghost laws = { Prim.search (comparing, rules) };

    fn eq(&self, other: &Self) -> bool {
        self.0.is(other.0.bytes.as_slice())
    }
}

impl Eq for Folded<'_> {
    ghost laws = { Prim.search (comparing, rules) };
}

impl Hash for Folded<'_> {
    ghost hash_input = { λ name. fed.slice fed.u8 (str_to_ascii_lowercase name.0.now.bytes) };

    ghost respects_eq = { Prim.search (hashing, rules) };

    fn hash<H: Hasher>(&self, state: &mut H) {
        hash_folded(self.0.bytes.as_slice(), state);
    }
}

/// Hashes bytes as if they were in lower case.
fn hash_folded<H: Hasher>(bytes: &[u8], state: &mut H)
    ensures { state.new ≡ fold H.write state.old (fed.slice fed.u8 (str_to_ascii_lowercase bytes.now)) }
{
    state.write_usize(bytes.len());
    for byte in bytes {
        state.write_u8(byte.to_ascii_lowercase());
    }
}
