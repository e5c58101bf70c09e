//! The fields of the decoded bytes, their rules, and the first broken one. See `specs/BinHex`.

ghost use Rattle.std.specs.Prelude.{◌≡◌, ◌≤◌, ◌<◌, ◌+◌, ◌^◌, length, IfNone, IfSome};
ghost use Rattle.rz_bridge.specs.Faults.{IsSayable};
ghost use Rattle.rz_hqx.specs.BinHex.{name_length, kind_place, data_length, resource_length, data_place, resource_place, cut, bad_length, bad_crc, checked, header_torn, fields_torn};

use rz_bridge::{BridgeFault, crc, fault_at, piece_at};
use rz_core::{Kept, u8_at, u16_at, u32_at};

/// The length of the name.
#[tactic(auto, unfolding(crate::specs::BinHex::name_length))]
pub fn name_length(bytes: &[u8]) -> usize
    requires { 1 ≤ length bytes.now }
    ensures length { result ≡ name_length bytes.now }
    ensures small { result < 2 ^ 8 }
{
    u8_at(bytes, 0) as usize
}

/// Where the type stands, after the name and the version.
#[tactic(auto, unfolding(crate::specs::BinHex::kind_place))]
pub fn kind_place(bytes: &[u8]) -> usize
    requires { 1 ≤ length bytes.now }
    ensures place { result ≡ kind_place bytes.now }
    ensures least { 2 ≤ result }
    ensures small { result < 2 ^ 9 }
{
    name_length(bytes) + 2
}

/// The length of the data fork.
#[tactic(auto, unfolding(crate::specs::BinHex::data_length))]
pub fn data_length(bytes: &[u8]) -> usize
    requires some { 1 ≤ length bytes.now }
    requires header { kind_place bytes.now + 20 ≤ length bytes.now }
    ensures length { result ≡ data_length bytes.now }
    ensures small { result < 2 ^ 32 }
{
    u32_at(bytes, kind_place(bytes) + 10) as usize
}

/// The length of the resource fork.
#[tactic(auto, unfolding(crate::specs::BinHex::resource_length))]
pub fn resource_length(bytes: &[u8]) -> usize
    requires some { 1 ≤ length bytes.now }
    requires header { kind_place bytes.now + 20 ≤ length bytes.now }
    ensures length { result ≡ resource_length bytes.now }
    ensures small { result < 2 ^ 32 }
{
    u32_at(bytes, kind_place(bytes) + 14) as usize
}

/// Where the data fork stands, after the check of the header.
#[tactic(auto, unfolding(crate::specs::BinHex::data_place))]
pub fn data_place(bytes: &[u8]) -> usize
    requires { 1 ≤ length bytes.now }
    ensures place { result ≡ data_place bytes.now }
    ensures small { result < 2 ^ 10 }
{
    kind_place(bytes) + 20
}

/// Where the resource fork stands, after the check of the data fork.
#[tactic(auto, unfolding(crate::specs::BinHex::resource_place))]
pub fn resource_place(bytes: &[u8]) -> usize
    requires some { 1 ≤ length bytes.now }
    requires header { kind_place bytes.now + 20 ≤ length bytes.now }
    ensures place { result ≡ resource_place bytes.now }
    ensures small { result < 2 ^ 33 }
{
    data_place(bytes) + data_length(bytes) + 2
}

/// Truncated.
#[tactic(auto, unfolding(crate::specs::BinHex::cut))]
fn cut(bytes: &[u8], place: usize, count: usize) -> Option<BridgeFault>
    requires place { place < 2 ^ 40 }
    requires count { count < 2 ^ 40 }
    ensures rule { result ≡ cut bytes.now place count }
    ensures within { IfNone result (place + count ≤ length bytes.now) }
    ensures sayable { IfSome result IsSayable }
{
    if bytes.len() < place + count {
        return Some(fault_at(445, place, bytes.len().saturating_sub(place) as u64));
    }
    None
}

/// BadName.
#[tactic(auto, unfolding(crate::specs::BinHex::bad_length))]
fn bad_length(bytes: &[u8]) -> Option<BridgeFault>
    requires { 1 ≤ length bytes.now }
    ensures rule { result ≡ bad_length bytes.now }
    ensures sayable { IfSome result IsSayable }
{
    let count = name_length(bytes);
    if count < 1 || 63 < count {
        return Some(fault_at(447, 0, count as u64));
    }
    None
}

/// BadCrc, of so many bytes from a place on.
#[tactic(auto, unfolding(crate::specs::BinHex::bad_crc))]
fn bad_crc(bytes: &[u8], which: u8, place: usize, count: usize) -> Option<BridgeFault>
    requires { place + count + 2 ≤ length bytes.now }
    ensures rule { result ≡ bad_crc bytes.now which place count }
    ensures sayable { IfSome result IsSayable }
{
    let stored = u16_at(bytes, place + count);
    let computed = crc(0, piece_at(bytes, place, count));
    if stored != computed {
        return Some(BridgeFault {
            number: 444,
            offset: (place + count) as u64,
            kept: Kept::Check(which, stored, computed),
        });
    }
    None
}

/// Truncated or BadCrc, of a fork.
#[tactic(auto, unfolding(crate::specs::BinHex::checked))]
fn checked(bytes: &[u8], which: u8, place: usize, count: usize) -> Option<BridgeFault>
    requires place { place < 2 ^ 33 }
    requires count { count < 2 ^ 32 }
    ensures rule { result ≡ checked bytes.now which place count }
    ensures sayable { IfSome result IsSayable }
{
    if let Some(fault) = cut(bytes, place, count) {
        return Some(fault);
    }
    if let Some(fault) = cut(bytes, place + count, 2) {
        return Some(fault);
    }
    bad_crc(bytes, which, place, count)
}

/// The first broken rule on the fields up to the header's check.
#[tactic(auto, unfolding(crate::specs::BinHex::header_torn))]
fn header_torn(bytes: &[u8]) -> Option<BridgeFault>
    ensures first { result ≡ header_torn bytes.now }
    ensures some { IfNone result (1 ≤ length bytes.now) }
    ensures within { IfNone result (kind_place bytes.now + 20 ≤ length bytes.now) }
    ensures sayable { IfSome result IsSayable }
{
    if let Some(fault) = cut(bytes, 0, 1) {
        return Some(fault);
    }
    if let Some(fault) = bad_length(bytes) {
        return Some(fault);
    }
    if let Some(fault) = cut(bytes, 1, name_length(bytes)) {
        return Some(fault);
    }
    let place = kind_place(bytes);
    if let Some(fault) = cut(bytes, place - 1, 1) {
        return Some(fault);
    }
    if let Some(fault) = cut(bytes, place, 4) {
        return Some(fault);
    }
    if let Some(fault) = cut(bytes, place + 4, 4) {
        return Some(fault);
    }
    if let Some(fault) = cut(bytes, place + 8, 2) {
        return Some(fault);
    }
    if let Some(fault) = cut(bytes, place + 10, 4) {
        return Some(fault);
    }
    if let Some(fault) = cut(bytes, place + 14, 4) {
        return Some(fault);
    }
    if let Some(fault) = cut(bytes, place + 18, 2) {
        return Some(fault);
    }
    bad_crc(bytes, 1, 0, place + 18)
}

/// The first broken rule.
#[tactic(auto, unfolding(crate::specs::BinHex::fields_torn))]
pub fn fields_torn(bytes: &[u8]) -> Option<BridgeFault>
    ensures first { result ≡ fields_torn bytes.now }
    ensures some { IfNone result (1 ≤ length bytes.now) }
    ensures within { IfNone result (kind_place bytes.now + 20 ≤ length bytes.now) }
    ensures sayable { IfSome result IsSayable }
{
    if let Some(fault) = header_torn(bytes) {
        return Some(fault);
    }
    if let Some(fault) = checked(bytes, 2, data_place(bytes), data_length(bytes)) {
        return Some(fault);
    }
    checked(bytes, 3, resource_place(bytes), resource_length(bytes))
}
