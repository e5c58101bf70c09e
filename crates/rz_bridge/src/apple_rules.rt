//! The rules of AppleDouble and AppleSingle, and the first broken one. See `specs/Apple`.

ghost use Rattle.std.specs.Prelude.{◌≡◌, ◌≤◌, ◌<◌, ◌+◌, ◌*◌, ◌^◌, length, map, IfNone, IfSome};
ghost use Rattle.rz_core.specs.Lists.{first_of};
ghost use Rattle.rz_bridge.specs.Faults.{IsSayable};
ghost use Rattle.rz_bridge.specs.Apple.{entry_count, entries, short_header, bad_magic, newer_version, entries_outside, entry_outside, apple_torn};

use crate::apple::{AppleForm, magic_of};
use crate::entry::{Entry, entry_at, entry_count};
use crate::fault::{BridgeFault, fault_at};
use rz_core::u32_at;

/// The version that is written.
const VERSION: u32 = 0x0002_0000;

/// The version before it, which is read too.
const OLD_VERSION: u32 = 0x0001_0000;

/// Where the entries begin.
const ENTRIES_AT: usize = 26;

/// ShortHeader.
#[tactic(auto, unfolding(crate::specs::Apple::short_header))]
fn short_header(bytes: &[u8]) -> Option<BridgeFault>
    ensures rule { result ≡ short_header bytes.now }
    ensures within { IfNone result (26 ≤ length bytes.now) }
    ensures sayable { IfSome result IsSayable }
{
    if bytes.len() < ENTRIES_AT {
        return Some(fault_at(421, 0, bytes.len() as u64));
    }
    None
}

/// BadMagic.
#[tactic(auto, unfolding(crate::specs::Apple::bad_magic))]
fn bad_magic(form: AppleForm, bytes: &[u8]) -> Option<BridgeFault>
    requires { 26 ≤ length bytes.now }
    ensures rule { result ≡ bad_magic form bytes.now }
    ensures sayable { IfSome result IsSayable }
{
    let magic = u32_at(bytes, 0);
    if magic != magic_of(form) {
        return Some(fault_at(422, 0, u64::from(magic)));
    }
    None
}

/// NewerVersion.
#[tactic(auto, unfolding(crate::specs::Apple::newer_version))]
fn newer_version(bytes: &[u8]) -> Option<BridgeFault>
    requires { 26 ≤ length bytes.now }
    ensures rule { result ≡ newer_version bytes.now }
    ensures sayable { IfSome result IsSayable }
{
    let version = u32_at(bytes, 4);
    if version != VERSION && version != OLD_VERSION {
        return Some(fault_at(427, 4, u64::from(version)));
    }
    None
}

/// EntryOutside, of all entries.
#[tactic(auto, unfolding(crate::specs::Apple::entries_outside))]
fn entries_outside(bytes: &[u8]) -> Option<BridgeFault>
    requires { 26 ≤ length bytes.now }
    ensures rule { result ≡ entries_outside bytes.now }
    ensures within { IfNone result (26 + 12 * entry_count bytes.now ≤ length bytes.now) }
    ensures sayable { IfSome result IsSayable }
{
    let count = entry_count(bytes);
    if bytes.len() < ENTRIES_AT + 12 * count {
        return Some(fault_at(423, 24, count as u64));
    }
    None
}

/// EntryOutside, of an entry.
#[tactic(auto, unfolding(crate::specs::Apple::entry_outside))]
fn entry_outside(bytes: &[u8], entry: Entry) -> Option<BridgeFault>
    requires offset { entry.offset < 2 ^ 32 }
    requires length { entry.length < 2 ^ 32 }
    ensures rule { result ≡ entry_outside bytes.now entry }
    ensures sayable { IfSome result IsSayable }
{
    if 0 < entry.length && bytes.len() < entry.offset + entry.length {
        return Some(fault_at(423, entry.place, u64::from(entry.id)));
    }
    None
}

/// The first entry whose bytes end after the file.
fn first_outside(bytes: &[u8]) -> Option<BridgeFault>
    requires start { 26 ≤ length bytes.now }
    requires entries { 26 + 12 * entry_count bytes.now ≤ length bytes.now }
    ensures first { result ≡ first_of (map (entry_outside bytes.now) (entries bytes.now)) }
    ensures sayable { IfSome result IsSayable }
{
    for position in 0..entry_count(bytes) {
        if let Some(fault) = entry_outside(bytes, entry_at(bytes, ENTRIES_AT + 12 * position)) {
            return Some(fault);
        }
    }
    None
}

/// The first broken rule.
#[tactic(auto, unfolding(crate::specs::Apple::apple_torn))]
pub fn apple_torn(form: AppleForm, bytes: &[u8]) -> Option<BridgeFault>
    ensures first { result ≡ apple_torn form bytes.now }
    ensures within { IfNone result (26 ≤ length bytes.now) }
    ensures entries { IfNone result (26 + 12 * entry_count bytes.now ≤ length bytes.now) }
    ensures sayable { IfSome result IsSayable }
{
    if let Some(fault) = short_header(bytes) {
        return Some(fault);
    }
    if let Some(fault) = bad_magic(form, bytes) {
        return Some(fault);
    }
    if let Some(fault) = newer_version(bytes) {
        return Some(fault);
    }
    if let Some(fault) = entries_outside(bytes) {
        return Some(fault);
    }
    first_outside(bytes)
}
