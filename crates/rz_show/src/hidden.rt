//! The names of live macros, which no row may show; changes with `specs/Hidden`.

ghost use Rattle.std.specs.Prelude.{◌≡◌, ◌≤◌, ℕ, List, length, IfOk};
ghost use Rattle.std.specs.List.{list_any};
ghost use Rattle.std.specs.Str.{bytes_eq, str_to_ascii_lowercase};
ghost use Rattle.rz_show.specs.Hidden.{hides};

use rz_core::{NoMemory, Word};
use std::alloc::Global;
use std::collections::HashSet;

/// The most bytes of a name that is looked up without memory: words of the language have no more.
const SHORT: usize = 255;

/// The names of the live macros, which are shown in no row. Case doesn't matter. (MPW Rez.)
#[derive(Drop)]
pub struct Hidden {
    held: HashSet<Vec<u8>>,
}

/// A short name in lower case, written at the front of a buffer.
fn lower_short<'a>(front: &'a mut [u8; SHORT], name: &[u8]) -> &'a [u8]
    requires { length name.now ≤ 255 }
    ensures { result.now ≡ str_to_ascii_lowercase name.now }
{
    let lower = &mut front[..name.len()];
    lower.copy_from_slice(name);
    lower.make_ascii_lowercase();
    lower
}

/// A copy of a name.
fn copy_of(alloc: Global, name: &[u8]) -> Result<Vec<u8>, NoMemory>
    ensures { IfOk result (λ copy. copy.items ≡ name.now) }
{
    Ok(name.to_vec(alloc)?)
}

impl Hidden {
    /// The macros of these names, which are in lower case.
    pub fn of(alloc: Global, names: &[Word]) -> Result<Hidden, NoMemory>
        ensures { IfOk result (λ hidden. (name : List ℕ) → hides hidden name ≡ list_any (λ one. bytes_eq (str_to_ascii_lowercase name) one.bytes) names.now) }
    {
        let mut held = HashSet::new(alloc);
        for name in names {
            let name = copy_of(alloc, name.bytes.as_slice())?;
            held.insert(name)?;
        }
        Ok(Hidden { held })
    }

    /// Whether a name is one of them. It takes memory only for a name of more than 255 bytes.
    pub fn has(&self, alloc: Global, name: &[u8]) -> Result<bool, NoMemory>
        ensures { IfOk result (λ has. has ≡ hides self.now name.now) }
    {
        if name.len() <= SHORT {
            return Ok(self.has_short(name));
        }
        let lower = name.to_ascii_lowercase(alloc)?;
        Ok(self.held.contains(lower.as_slice()))
    }

    /// Whether a name of at most 255 bytes is one of them. It takes no memory.
    pub fn has_short(&self, name: &[u8]) -> bool
        requires { length name.now ≤ 255 }
        ensures { result ≡ hides self.now name.now }
    {
        let mut front = [0; SHORT];
        self.held.contains(lower_short(&mut front, name))
    }
}
