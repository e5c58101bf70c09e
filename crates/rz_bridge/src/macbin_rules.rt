//! The places of MacBinary's forks, its rules, and the first broken one. See `specs/MacBinary`.

ghost use Rattle.std.specs.Prelude.{◌≡◌, ◌≤◌, ◌<◌, ◌+◌, ◌^◌, length, IfNone, IfSome};
ghost use Rattle.rz_bridge.specs.Faults.{IsSayable};
ghost use Rattle.rz_bridge.specs.MacBinary.{data_place, data_length, resource_place, resource_length, short_header, not_zero, below_129, newer_version, bad_crc, bad_length, truncated, header_torn, macbin_torn};

use crate::check::crc;
use crate::fault::{BridgeFault, fault_at};
use crate::place::filled;
use rz_core::{Kept, u8_at, u16_at, u32_at};

/// The length of the header, in bytes.
const HEADER_LENGTH: usize = 128;

/// The version of MacBinary II, below which none is read and which is the most that a file may ask of a reader.
const VERSION: u8 = 129;

/// Where the data fork begins.
#[tactic(auto, unfolding(crate::specs::MacBinary::data_place))]
pub fn data_place(bytes: &[u8]) -> usize
    requires { 128 ≤ length bytes.now }
    ensures place { result ≡ data_place bytes.now }
    ensures small { result < 2 ^ 17 }
{
    HEADER_LENGTH + filled(u16_at(bytes, 120) as usize)
}

/// The length of the data fork, in bytes.
#[tactic(auto, unfolding(crate::specs::MacBinary::data_length))]
pub fn data_length(bytes: &[u8]) -> usize
    requires { 128 ≤ length bytes.now }
    ensures length { result ≡ data_length bytes.now }
    ensures small { result < 2 ^ 32 }
{
    u32_at(bytes, 83) as usize
}

/// Where the resource fork begins.
#[tactic(auto, unfolding(crate::specs::MacBinary::resource_place))]
pub fn resource_place(bytes: &[u8]) -> usize
    requires { 128 ≤ length bytes.now }
    ensures place { result ≡ resource_place bytes.now }
    ensures small { result < 2 ^ 33 }
{
    data_place(bytes) + filled(data_length(bytes))
}

/// The length of the resource fork, in bytes.
#[tactic(auto, unfolding(crate::specs::MacBinary::resource_length))]
pub fn resource_length(bytes: &[u8]) -> usize
    requires { 128 ≤ length bytes.now }
    ensures length { result ≡ resource_length bytes.now }
    ensures small { result < 2 ^ 32 }
{
    u32_at(bytes, 87) as usize
}

/// ShortHeader.
#[tactic(auto, unfolding(crate::specs::MacBinary::short_header))]
fn short_header(bytes: &[u8]) -> Option<BridgeFault>
    ensures rule { result ≡ short_header bytes.now }
    ensures within { IfNone result (128 ≤ length bytes.now) }
    ensures sayable { IfSome result IsSayable }
{
    if bytes.len() < HEADER_LENGTH {
        return Some(fault_at(421, 0, bytes.len() as u64));
    }
    None
}

/// BadMagic, of a byte that is to be zero.
#[tactic(auto, unfolding(crate::specs::MacBinary::not_zero))]
fn not_zero(bytes: &[u8], place: usize) -> Option<BridgeFault>
    requires { place + 1 ≤ length bytes.now }
    ensures rule { result ≡ not_zero bytes.now place }
    ensures sayable { IfSome result IsSayable }
{
    let byte = u8_at(bytes, place);
    if 0 < byte {
        return Some(fault_at(422, place, u64::from(byte)));
    }
    None
}

/// BadMagic, of a byte that is to be 129 at least.
#[tactic(auto, unfolding(crate::specs::MacBinary::below_129))]
fn below_129(bytes: &[u8], place: usize) -> Option<BridgeFault>
    requires { place + 1 ≤ length bytes.now }
    ensures rule { result ≡ below_129 bytes.now place }
    ensures sayable { IfSome result IsSayable }
{
    let byte = u8_at(bytes, place);
    if byte < VERSION {
        return Some(fault_at(422, place, u64::from(byte)));
    }
    None
}

/// NewerVersion.
#[tactic(auto, unfolding(crate::specs::MacBinary::newer_version))]
fn newer_version(bytes: &[u8]) -> Option<BridgeFault>
    requires { 128 ≤ length bytes.now }
    ensures rule { result ≡ newer_version bytes.now }
    ensures sayable { IfSome result IsSayable }
{
    let byte = u8_at(bytes, 123);
    if VERSION < byte {
        return Some(fault_at(427, 123, u64::from(byte)));
    }
    None
}

/// BadCrc.
#[tactic(auto, unfolding(crate::specs::MacBinary::bad_crc))]
fn bad_crc(bytes: &[u8]) -> Option<BridgeFault>
    requires { 128 ≤ length bytes.now }
    ensures rule { result ≡ bad_crc bytes.now }
    ensures sayable { IfSome result IsSayable }
{
    let stored = u16_at(bytes, 124);
    let computed = crc(0, bytes.split_at(124).0);
    if stored != computed {
        return Some(BridgeFault {
            number: 424,
            offset: 124,
            kept: Kept::Check(0, stored, computed),
        });
    }
    None
}

/// BadName.
#[tactic(auto, unfolding(crate::specs::MacBinary::bad_length))]
fn bad_length(bytes: &[u8]) -> Option<BridgeFault>
    requires { 128 ≤ length bytes.now }
    ensures rule { result ≡ bad_length bytes.now }
    ensures sayable { IfSome result IsSayable }
{
    let byte = u8_at(bytes, 1);
    if byte < 1 || 63 < byte {
        return Some(fault_at(425, 1, u64::from(byte)));
    }
    None
}

/// Truncated, of a fork that begins at a place and has so many bytes.
#[tactic(auto, unfolding(crate::specs::MacBinary::truncated))]
fn truncated(bytes: &[u8], place: usize, count: usize) -> Option<BridgeFault>
    requires place { place < 2 ^ 33 }
    requires count { count < 2 ^ 32 }
    ensures rule { result ≡ truncated bytes.now place count }
    ensures sayable { IfSome result IsSayable }
{
    if 0 < count && bytes.len() < place + count {
        return Some(fault_at(426, place, count as u64));
    }
    None
}

/// The first broken rule on the header.
#[tactic(auto, unfolding(crate::specs::MacBinary::header_torn))]
fn header_torn(bytes: &[u8]) -> Option<BridgeFault>
    ensures first { result ≡ header_torn bytes.now }
    ensures within { IfNone result (128 ≤ length bytes.now) }
    ensures sayable { IfSome result IsSayable }
{
    if let Some(fault) = short_header(bytes) {
        return Some(fault);
    }
    if let Some(fault) = not_zero(bytes, 0) {
        return Some(fault);
    }
    if let Some(fault) = not_zero(bytes, 74) {
        return Some(fault);
    }
    if let Some(fault) = not_zero(bytes, 82) {
        return Some(fault);
    }
    if let Some(fault) = below_129(bytes, 122) {
        return Some(fault);
    }
    if let Some(fault) = below_129(bytes, 123) {
        return Some(fault);
    }
    if let Some(fault) = newer_version(bytes) {
        return Some(fault);
    }
    if let Some(fault) = bad_crc(bytes) {
        return Some(fault);
    }
    bad_length(bytes)
}

/// The first broken rule.
#[tactic(auto, unfolding(crate::specs::MacBinary::macbin_torn))]
pub fn macbin_torn(bytes: &[u8]) -> Option<BridgeFault>
    ensures first { result ≡ macbin_torn bytes.now }
    ensures within { IfNone result (128 ≤ length bytes.now) }
    ensures sayable { IfSome result IsSayable }
{
    if let Some(fault) = header_torn(bytes) {
        return Some(fault);
    }
    if let Some(fault) = truncated(bytes, data_place(bytes), data_length(bytes)) {
        return Some(fault);
    }
    truncated(bytes, resource_place(bytes), resource_length(bytes))
}
