//! A folder in memory whose calls fail where they are told to. What its entries hold is in `specs/Entries`.

ghost use Rattle.std.specs.Prelude.{◌≡◌, ◌≤◌, ◌↔◌, ◌<◌, ◌+◌, ◌^◌, length, max, Some, None, OnOk, OnErr, ◌++◌, IfSome, IsTrue, ◌⊎◌, vec_len, vec_capacity};
ghost use Rattle.std.specs.Option.{option_copied};
ghost use Rattle.std.specs.VecDeque.{deque_len, deque_capacity};
ghost use Rattle.std.specs.FinMap as map;
ghost use Rattle.rz_folder.specs.Counts.{next, Rose};
ghost use Rattle.rz_folder.specs.Folder.{Reads, Writes};
ghost use Rattle.rz_folder.specs.Entries.{AreWithin, files_of};

use crate::{Folder, Read, Written};
use rz_core::{Bytes, NoMemory};
use std::alloc::Global;
use std::collections::VecDeque;
use std::marker::Model;

/// Where a name and its contents lie in the store of a folder: the name from `name_start` up to
/// `contents_start`, and the contents from there up to `end`.
#[derive(Clone, Copy)]
struct Entry {
    name_start: usize,
    contents_start: usize,
    end: usize,
}

/// A folder in memory, which tells all that its files hold. Its calls fail where they are told to,
/// so that each answer of a program over a folder can be brought about.
///
/// Contracts see the files, the room, the number of calls so far, the number of the call that is to
/// fail, the two counts of faults, and the count of writes. The room is the number of writes and the number of bytes
/// for which there is memory; both are 0 at first. A look-up goes through the entries one by one, and
/// contents that were replaced keep their memory.
#[derive(Drop)]
pub struct MemFolder {
    entries: VecDeque<Entry>,
    store: Vec<u8>,
    write_room: u64,
    byte_room: u64,
    calls: u64,
    failing: u64,
    read_faults: u64,
    write_faults: u64,
    writes: u64,
}

impl Model for MemFolder {
    ghost use Rattle.rz_folder.specs.FolderState.{FolderState, coded_state};

    ghost Value = { FolderState };

    ghost coded = { coded_state };

    ghost use Rattle.rz_folder.specs.MemFolder.{folder_state, IsStored};

    ghost view = { folder_state };

    ghost invariant = { IsStored };
}

impl MemFolder {
    ghost use Rattle.rz_folder.specs.FolderState.{empty_folder, IsNextNamed};

    /// A folder without files, without room and without faults, of which no call is to fail. It
    /// takes no memory.
    pub fn new(alloc: Global) -> MemFolder
        ensures { result ≡ empty_folder }
    {
        MemFolder {
            entries: VecDeque::new(alloc),
            store: Vec::new(alloc),
            write_room: 0,
            byte_room: 0,
            calls: 0,
            failing: 0,
            read_faults: 0,
            write_faults: 0,
            writes: 0,
        }
    }

    /// Makes the name hold these bytes, of which there are fewer than 2^32. The room stays as it
    /// is, and this is no call that `fail_at` counts. Where memory is refused the folder is
    /// unchanged.
    pub fn insert(&mut self, name: &str, bytes: &[u8]) -> Result<(), NoMemory>
        requires { length bytes.now < 2 ^ 32 }
        ensures ok { OnOk result
            (self.new ≡ record self.old { files = map.insert self.old.files name.now bytes.now }) }
        ensures err { OnErr result (self.new ≡ self.old) }
    {
        let length = name.len().checked_add(bytes.len()).ok_or(NoMemory)?;
        let with_room = length.checked_add(self.byte_room as usize).ok_or(NoMemory)?;
        let entries = (self.write_room as usize).checked_add(1).ok_or(NoMemory)?;
        self.store.reserve(with_room)?;
        self.entries.reserve(entries)?;
        add_entry(&mut self.entries, &mut self.store, name.as_bytes(), bytes);
        Ok(())
    }

    /// Makes the room at least so many writes and at least so many bytes, names and contents
    /// together. Neither number falls. Where memory is refused the folder is unchanged.
    pub fn reserve(&mut self, writes: u32, bytes: u32) -> Result<(), NoMemory>
        ensures ok { OnOk result (self.new ≡ record self.old {
          write_room = max self.old.write_room writes;
          byte_room = max self.old.byte_room bytes;
        }) }
        ensures err { OnErr result (self.new ≡ self.old) }
    {
        self.entries.reserve(writes as usize)?;
        self.store.reserve(bytes as usize)?;
        self.write_room = self.write_room.max(u64::from(writes));
        self.byte_room = self.byte_room.max(u64::from(bytes));
        Ok(())
    }

    /// Makes the call of that number fail, in place of one named earlier. Reads and writes are
    /// counted together, from 1 since `new`. The number of calls stops at 2^64 - 1, which is then
    /// the number of every later call. No call has the number 0.
    pub fn fail_at(&mut self, call: u64)
        ensures { self.new ≡ record self.old { failing = call } }
    {
        self.failing = call;
    }

    /// What the name holds, fewer than 2^32 bytes; `None` exactly where the folder has no file of
    /// that name. It takes no memory and is no call that `fail_at` counts.
    pub fn bytes(&self, name: &str) -> Option<&[u8]>
        ensures found { option_copied result ≡ map.get self.now.files name.now }
        ensures short { IfSome result (λ bytes. length bytes.now < 2 ^ 32) }
    {
        find_entry(&self.entries, &self.store, name.as_bytes())
    }

    // Counts one call, and says whether it is the one that is to fail.
    fn count_call(&mut self) -> bool
        ensures named { IsTrue result ↔ IsNextNamed self.old }
        ensures counted { self.new ≡ record self.old { calls = next self.old.calls } }
    {
        self.calls = self.calls.saturating_add(1);
        self.calls == self.failing
    }
}

impl Folder for MemFolder {
    ghost use Rattle.rz_folder.specs.FolderState.{IsNextNamed, LacksRoom, after_read, after_write};

    ghost files = { λ s. Some s.files };

    ghost read_faults = { λ s. s.read_faults };

    ghost write_faults = { λ s. s.write_faults };

    ghost writes = { λ s. s.writes };

    /// Gives a copy of what the name holds, in memory of the allocator. `Failed` comes exactly
    /// where `fail_at` named this call, and `Missing` exactly where it did not and the folder has
    /// no file of that name. The files and the room stay.
    fn read(&mut self, alloc: Global, name: &str) -> Read
        ensures told { Reads name.now (Some self.old.files) result }
        ensures unchanged { self.new.files ≡ self.old.files }
        ensures counted { self.old.read_faults ≤ self.new.read_faults }
        ensures cause { result ≡ Read.Failed → Rose self.old.read_faults self.new.read_faults }
        ensures other_count { self.new.write_faults ≡ self.old.write_faults }
        ensures unwritten { self.new.writes ≡ self.old.writes }

        ensures failed { (result ≡ Read.Failed) ↔ IsNextNamed self.old }
        ensures missing { map.get self.old.files name.now ≡ None → (result ≡ Read.Missing) ⊎ IsNextNamed self.old }
        ensures after { self.new ≡ after_read self.old }
    {
        if self.count_call() {
            self.read_faults = self.read_faults.saturating_add(1);
            return Read::Failed;
        }
        let Some(bytes) = self.bytes(name) else {
            return Read::Missing;
        };
        match Bytes::of(alloc, bytes) {
            Ok(copy) => Read::Bytes(copy),
            Err(NoMemory) => Read::NoMemory,
        }
    }

    /// Makes the name hold these bytes, and takes one write and the lengths of the name and the
    /// bytes from the room. `Failed` comes exactly where `fail_at` named this call or the room is
    /// too small; then the files and the room stay.
    fn write(&mut self, name: &str, bytes: &[u8]) -> Written
        requires { length bytes.now < 2 ^ 32 }
        ensures told { Writes name.now bytes.now (Some self.old.files) (Some self.new.files) result }
        ensures counted { self.old.write_faults ≤ self.new.write_faults }
        ensures cause { result ≡ Written.Failed → Rose self.old.write_faults self.new.write_faults }
        ensures other_count { self.new.read_faults ≡ self.old.read_faults }
        ensures once { self.new.writes ≡ next self.old.writes }

        ensures failed { (result ≡ Written.Failed) ↔
            (IsNextNamed self.old ⊎ LacksRoom self.old name.now bytes.now) }
        ensures after { self.new ≡ after_write self.old name.now bytes.now }
    {
        let is_named = self.count_call();
        self.writes = self.writes.saturating_add(1);
        let name_length = name.len() as u64;
        let length = bytes.len() as u64;
        if is_named
            || self.write_room == 0
            || name_length > self.byte_room
            || length > self.byte_room - name_length
        {
            self.write_faults = self.write_faults.saturating_add(1);
            return Written::Failed;
        }
        add_entry(&mut self.entries, &mut self.store, name.as_bytes(), bytes);
        self.write_room -= 1;
        self.byte_room -= name_length + length;
        Written::Done
    }

    fn read_faults(&self) -> u64
        ensures { result ≡ self.now.read_faults }
    {
        self.read_faults
    }

    fn write_faults(&self) -> u64
        ensures { result ≡ self.now.write_faults }
    {
        self.write_faults
    }
}

// The contents of the first entry that has the name.
fn find_entry<'a>(entries: &VecDeque<Entry>, store: &'a [u8], name: &[u8]) -> Option<&'a [u8]>
    requires { AreWithin entries.now.items (length store.now) }
    ensures found { option_copied result ≡ map.get (files_of store.now entries.now.items) name.now }
    ensures short { IfSome result (λ bytes. length bytes.now < 2 ^ 32) }
{
    for entry in entries {
        let held = &store[entry.name_start..entry.contents_start];
        if name == held {
            return Some(&store[entry.contents_start..entry.end]);
        }
    }
    None
}

// Puts a name and its contents after the store, where there is room for them, and its entry before
// all others.
fn add_entry(entries: &mut VecDeque<Entry>, store: &mut Vec<u8>, name: &[u8], bytes: &[u8])
    requires within { AreWithin entries.old.items (length store.old.items) }
    requires room_for_entry { deque_len entries.old < deque_capacity entries.old }
    requires room_for_bytes { vec_len store.old + (length name.now + length bytes.now) ≤ vec_capacity store.old }
    requires short { length bytes.now < 2 ^ 32 }
    ensures files { files_of store.new.items entries.new.items ≡
        map.insert (files_of store.old.items entries.old.items) name.now bytes.now }
    ensures within { AreWithin entries.new.items (length store.new.items) }
    ensures entry_added { deque_len entries.new ≡ deque_len entries.old + 1 }
    ensures bytes_added { vec_len store.new ≡ vec_len store.old + (length name.now + length bytes.now) }
    ensures entry_capacity { deque_capacity entries.old ≤ deque_capacity entries.new }
    ensures byte_capacity { vec_capacity store.old ≤ vec_capacity store.new }
{
    let name_start = store.len();
    append_reserved(store, name);
    let contents_start = store.len();
    append_reserved(store, bytes);
    let end = store.len();
    entries.push_front_reserved(Entry {
        name_start,
        contents_start,
        end,
    });
}

// Appends a piece for which there is room.
fn append_reserved(store: &mut Vec<u8>, piece: &[u8])
    requires { vec_len store.old + length piece.now ≤ vec_capacity store.old }
    ensures items { store.new.items ≡ store.old.items ++ piece.now }
    ensures len { vec_len store.new ≡ vec_len store.old + length piece.now }
    ensures capacity { vec_capacity store.old ≤ vec_capacity store.new }
{
    let _ = store.extend_from_slice(piece);
}
