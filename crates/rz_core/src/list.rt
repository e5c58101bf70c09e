//! The list that all lists of rezkit are, and the list of bytes. Each is seen as the list of its items.

ghost use Rattle.std.specs.Prelude.{◌≡◌, ◌<◌, [], ◌∷◌, ◌++◌, length, slice_get, ◌↔◌, IfOk, IsTrue, OnOk, OnErr};

use crate::NoMemory;
use std::alloc::Global;
use std::marker::Model;

/// A list of items that grows at its end. Contracts see it as the list of its items; every list type of
/// rezkit is an alias of this one. It keeps the allocator that it was made with.
#[derive(Debug, Drop)]
pub struct Listing<T> {
    items: Vec<T>,
}

impl<T> Model for Listing<T> {
    ghost use Rattle.std.specs.Prelude.{List};
    ghost use Rattle.std.specs.Coded.{coded_list};

    ghost Value = { List T };

    ghost coded = { coded_list T.code };

    ghost view = { λ listing. listing.items.items };
}

impl<T: Drop> Listing<T> {
    /// The list without items. It takes no memory.
    pub fn new(alloc: Global) -> Listing<T>
        ensures { result ≡ [] }
    {
        Listing {
            items: Vec::new(alloc),
        }
    }

    /// The list without items, which takes the memory of so many at once.
    pub fn with_capacity(alloc: Global, size: usize) -> Result<Listing<T>, NoMemory>
        ensures { IfOk result (λ listing. listing ≡ []) }
    {
        Ok(Listing {
            items: Vec::with_capacity(alloc, size)?,
        })
    }

    /// The list of these items. It takes no memory.
    pub fn from_vec(items: Vec<T>) -> Listing<T>
        ensures { result ≡ items.items }
    {
        Listing { items }
    }

    /// The items, given back. It takes no memory.
    pub fn into_vec(self) -> Vec<T>
        ensures { result.items ≡ self }
    {
        let Listing { items } = self;
        items
    }

    /// Appends an item. Where memory is refused the list is unchanged, and the item is dropped.
    pub fn push(&mut self, item: T) -> Result<(), NoMemory>
        ensures ok { OnOk result (self.new ≡ self.old ++ item ∷ []) }
        ensures err { OnErr result (self.new ≡ self.old) }
    {
        self.items.push(item)?;
        Ok(())
    }

    /// The number of items.
    pub fn len(&self) -> u64
        ensures { result ≡ length self.now }
    {
        self.items.len() as u64
    }

    /// Whether there are no items.
    pub fn is_empty(&self) -> bool
        ensures { IsTrue result ↔ (self.now ≡ []) }
    {
        self.items.is_empty()
    }

    /// The item at a position, from 0.
    pub fn at(&self, k: u64) -> &T
        requires { k < length self.now }
        ensures { slice_get self.now k ≡ Some result.now }
    {
        &self.items[k as usize]
    }

    /// The items, lent.
    pub fn as_slice(&self) -> &[T]
        ensures { result.now ≡ self.now }
    {
        &self.items
    }
}

/// A list of bytes.
pub type Bytes = Listing<u8>;

impl Listing<u8> {
    /// A copy of the bytes.
    pub fn of(alloc: Global, source: &[u8]) -> Result<Bytes, NoMemory>
        ensures { IfOk result (λ bytes. bytes ≡ source.now) }
    {
        Ok(Listing {
            items: source.to_vec(alloc)?,
        })
    }

    /// Appends a copy of the bytes. Where memory is refused the list is unchanged.
    pub fn append(&mut self, piece: &[u8]) -> Result<(), NoMemory>
        ensures ok { OnOk result (self.new ≡ self.old ++ piece.now) }
        ensures err { OnErr result (self.new ≡ self.old) }
    {
        self.items.extend_from_slice(piece)?;
        Ok(())
    }

    /// The allocator that the list grows by.
    pub fn allocator(&self) -> Global {
        *self.items.allocator()
    }
}
