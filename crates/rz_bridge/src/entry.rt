//! The entries of AppleDouble and AppleSingle, and their bytes. What they are is in `specs/Apple`.

ghost use Rattle.std.specs.Prelude.{◌≡◌, ◌<◌, ◌≤◌, ◌+◌, ◌*◌, ◌==◌, ◌^◌, length};
ghost use Rattle.std.specs.List.{find};
ghost use Rattle.rz_bridge.specs.Apple.{entry_at, entry_count, entries, part};

use crate::place::piece_at;
use rz_core::{u16_at, u32_at};

/// An entry of AppleDouble or AppleSingle. (RFC 1740.)
#[derive(Clone, Copy)]
pub struct Entry {
    /// Where the entry stands, in bytes from the start of the file.
    pub place: usize,
    /// What its bytes are.
    pub id: u32,
    /// Where its bytes begin, from the start of the file.
    pub offset: usize,
    /// How many they are.
    pub length: usize,
}

/// How many entries there are.
#[tactic(auto, unfolding(crate::specs::Apple::entry_count))]
pub fn entry_count(bytes: &[u8]) -> usize
    requires { 26 ≤ length bytes.now }
    ensures count { result ≡ entry_count bytes.now }
    ensures small { result < 2 ^ 16 }
{
    u16_at(bytes, 24) as usize
}

/// The entry at a place.
#[tactic(auto, unfolding(crate::specs::Apple::entry_at))]
pub fn entry_at(bytes: &[u8], place: usize) -> Entry
    requires { place + 12 ≤ length bytes.now }
    ensures entry { result ≡ entry_at bytes.now place }
    ensures offset { result.offset < 2 ^ 32 }
    ensures length { result.length < 2 ^ 32 }
{
    Entry {
        place,
        id: u32_at(bytes, place),
        offset: u32_at(bytes, place + 4) as usize,
        length: u32_at(bytes, place + 8) as usize,
    }
}

/// The first entry with an id.
fn find_entry(bytes: &[u8], id: u32) -> Option<Entry>
    requires start { 26 ≤ length bytes.now }
    requires entries { 26 + 12 * entry_count bytes.now ≤ length bytes.now }
    ensures { result ≡ find (λ entry. entry.id == id) (entries bytes.now) }
{
    for position in 0..entry_count(bytes) {
        let entry = entry_at(bytes, 26 + 12 * position);
        if entry.id == id {
            return Some(entry);
        }
    }
    None
}

/// The bytes of the first entry with an id; where there is none, no bytes.
#[tactic(auto, unfolding(crate::specs::Apple::part))]
pub fn part(bytes: &[u8], id: u32) -> &[u8]
    requires start { 26 ≤ length bytes.now }
    requires entries { 26 + 12 * entry_count bytes.now ≤ length bytes.now }
    ensures part { result.now ≡ part bytes.now id }
    ensures within { length result.now ≤ length bytes.now }
{
    match find_entry(bytes, id) {
        Some(entry) => piece_at(bytes, entry.offset, entry.length),
        None => &[],
    }
}
