//! Where the first resource or entry with each key stands. What is held is in `specs/Held`.

ghost use Rattle.std.specs.Prelude.{◌≡◌, [], ◌∷◌, ◌++◌, ℕ, length, List, OnOk};
ghost use Rattle.rz_catalog.specs.Held.{entry_key, key_eq, leaf_eq, leaf_key, resource_key, AreFirst};

use rz_catalog_text::Entry;
use rz_core::{NoMemory, Resource};
use std::collections::HashMap;

/// What tells a resource of a list from the others: its type and the 16 bits of its id.
pub type Key = (u32, u16);

/// What tells a leaf from the others: the key of its resource, and its number.
pub type LeafKey = (u32, u16, u32);

/// The position of the first item with each key.
pub type Places = HashMap<Key, usize>;

/// The position of the first entry for each leaf.
pub type LeafPlaces = HashMap<LeafKey, usize>;

/// The key of a resource.
pub fn resource_key(resource: &Resource) -> Key
    ensures { result ≡ resource_key resource.now }
{
    (resource.kind.code, resource.id.cast_unsigned())
}

/// The key of the resource that an entry is for.
pub fn entry_key(entry: &Entry) -> Key
    ensures { result ≡ entry_key entry.now }
{
    (entry.kind.code, entry.id.cast_unsigned())
}

/// The key of the leaf that an entry is for.
pub fn leaf_key(entry: &Entry) -> LeafKey
    ensures { result ≡ leaf_key entry.now }
{
    (entry.kind.code, entry.id.cast_unsigned(), entry.leaf)
}

/// Notes the position of an item after others, unless one of them has its key.
pub fn note(places: &mut Places, key: Key, position: usize) -> Result<(), NoMemory>
    ensures { OnOk result ((keys : List (ℕ × ℕ)) → length keys ≡ position → AreFirst key_eq keys places.old → AreFirst key_eq (keys ++ key ∷ []) places.new) }
{
    if !places.contains_key(&key) {
        places.insert(key, position)?;
    }
    Ok(())
}

/// Notes the position of an entry for a leaf after others, none of which is for it.
pub fn note_leaf(places: &mut LeafPlaces, key: LeafKey, position: usize) -> Result<(), NoMemory>
    ensures { OnOk result ((keys : List (ℕ × ℕ × ℕ)) → length keys ≡ position → AreFirst leaf_eq keys places.old → AreFirst leaf_eq (keys ++ key ∷ []) places.new) }
{
    if !places.contains_key(&key) {
        places.insert(key, position)?;
    }
    Ok(())
}
