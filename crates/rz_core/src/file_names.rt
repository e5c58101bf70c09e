//! A list of the names of files in UTF-8, which grows at its end.

ghost use Rattle.std.specs.Prelude.{◌≡◌, ◌<◌, [], ◌∷◌, ◌++◌, length, slice_get, OnOk, OnErr};

use crate::NoMemory;
use std::alloc::Global;
use std::marker::Model;

/// The names of files, in UTF-8, in the order in which they were pushed. Contracts see the list of the
/// names' bytes.
#[derive(Debug, Drop)]
pub struct FileNames {
    names: Vec<String>,
}

impl Model for FileNames {
    ghost use Rattle.std.specs.Prelude.{ℕ, List, map};
    ghost use Rattle.std.specs.String.{string_bytes};

    ghost Value = { List (List ℕ) };

    ghost view = { λ listing. map string_bytes listing.names.items };
}

impl FileNames {
    /// No names. It takes no memory.
    pub fn new(alloc: Global) -> FileNames
        ensures { result ≡ [] }
    {
        FileNames {
            names: Vec::new(alloc),
        }
    }

    /// Appends a copy of the name. Where memory is refused the list is unchanged.
    pub fn push(&mut self, name: &str) -> Result<(), NoMemory>
        ensures ok { OnOk result (self.new ≡ self.old ++ name.now ∷ []) }
        ensures err { OnErr result (self.new ≡ self.old) }
    {
        let copy = name.to_string(*self.names.allocator())?;
        self.names.push(copy)?;
        Ok(())
    }

    /// The number of names.
    pub fn len(&self) -> u64
        ensures { result ≡ length self.now }
    {
        self.names.len() as u64
    }

    /// The name at a position, from 0.
    pub fn at(&self, k: u64) -> &str
        requires { k < length self.now }
        ensures { slice_get self.now k ≡ Some result.now }
    {
        self.names[k as usize].as_str()
    }
}
