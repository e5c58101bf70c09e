//! Rules by which a fork is admitted, most as a function each; changed only with `specs/Rules`.

ghost use Rattle.std.specs.Prelude.{◌≡◌, ◌<◌, ◌≤◌, ◌+◌, ◌*◌, ◌^◌, length, IfNone, IfSome};
ghost use Rattle.rz_fork.specs.Layout.{types_place};
ghost use Rattle.rz_fork.specs.Admit.{HasArea, IsSayable};
ghost use Rattle.rz_fork.specs.Rules.{short_header, data_area_outside, map_outside, short_map, type_list_outside, types_outside, references_outside, data_outside, name_outside};

use crate::fault::ForkFault;
use crate::layout::{Header, NO_NAME, Outline, Reference, TypeEntry};
use rz_core::{u8_at, u32_at};

/// The offsets of data have 24 bits.
const DATA_END: usize = 16_777_216;

/// How many types a fork has at most.
pub const MAX_TYPES: usize = 8_192;

const MAX_REFERENCES: usize = 16_384;

/// A rule that each reference is tested by, whatever stands before it.
#[derive(Clone, Copy)]
pub enum ReferenceRule {
    /// DataOutside.
    Data,
    /// NameOutside.
    Name,
}

/// The fault of a rule, with its offset in bytes from the start of the fork and its value.
pub fn fault(number: u16, offset: usize, value: u32) -> ForkFault
    ensures { result ≡ record { number = number; offset = offset; value = value } }
{
    ForkFault {
        number,
        offset: offset as u64,
        value,
    }
}

/// ShortHeader.
#[tactic(auto, unfolding(crate::specs::Rules::short_header))]
pub fn short_header(bytes: &[u8]) -> Option<ForkFault>
    ensures rule { result ≡ short_header bytes.now }
    ensures within { IfNone result (16 ≤ length bytes.now) }
    ensures sayable { IfSome result IsSayable }
{
    if bytes.len() < 16 {
        return Some(fault(401, 0, bytes.len() as u32));
    }
    None
}

/// DataAreaOutside.
#[tactic(auto, unfolding(crate::specs::Rules::data_area_outside))]
pub fn data_area_outside(bytes: &[u8], header: Header) -> Option<ForkFault>
    requires small { header.data_at + header.data_length < 2 ^ 33 }
    requires length { header.data_length < 2 ^ 32 }
    ensures rule { result ≡ data_area_outside bytes.now header }
    ensures within { IfNone result (HasArea bytes.now header) }
    ensures sayable { IfSome result IsSayable }
{
    if DATA_END <= header.data_at || bytes.len() < header.data_at + header.data_length {
        return Some(fault(402, 0, header.data_length as u32));
    }
    None
}

/// MapOutside.
#[tactic(auto, unfolding(crate::specs::Rules::map_outside))]
pub fn map_outside(bytes: &[u8], header: Header) -> Option<ForkFault>
    requires at { header.map_at < 2 ^ 32 }
    requires length { header.map_length < 2 ^ 32 }
    ensures rule { result ≡ map_outside bytes.now header }
    ensures within { IfNone result (header.map_at + header.map_length ≤ length bytes.now) }
    ensures sayable { IfSome result IsSayable }
{
    if bytes.len() < header.map_at + header.map_length {
        return Some(fault(403, 4, header.map_length as u32));
    }
    None
}

/// ShortMap.
#[tactic(auto, unfolding(crate::specs::Rules::short_map))]
pub fn short_map(header: Header) -> Option<ForkFault>
    ensures rule { result ≡ short_map header }
    ensures within { IfNone result (28 ≤ header.map_length) }
    ensures sayable { IfSome result IsSayable }
{
    if header.map_length < 28 {
        return Some(fault(404, 12, header.map_length as u32));
    }
    None
}

/// TypeListOutside.
#[tactic(auto, unfolding(crate::specs::Rules::type_list_outside))]
pub fn type_list_outside(header: Header, types: usize) -> Option<ForkFault>
    requires at { header.map_at < 2 ^ 32 }
    requires types { types < 2 ^ 16 }
    ensures rule { result ≡ type_list_outside header types }
    ensures within { IfNone result (types + 2 ≤ header.map_length) }
    ensures sayable { IfSome result IsSayable }
{
    if header.map_length < types + 2 {
        return Some(fault(405, header.map_at + 24, types as u32));
    }
    None
}

/// TypesOutside.
#[tactic(auto, unfolding(crate::specs::Rules::types_outside))]
pub fn types_outside(outline: Outline) -> Option<ForkFault>
    requires at { types_place outline < 2 ^ 34 }
    requires count { outline.count < 2 ^ 16 }
    ensures rule { result ≡ types_outside outline }
    ensures within { IfNone result
        (outline.types + 2 + 8 * outline.count ≤ outline.header.map_length) }
    ensures few { IfNone result (outline.count ≤ 8192) }
    ensures sayable { IfSome result IsSayable }
{
    if outline.header.map_length < outline.types + 2 + 8 * outline.count
        || outline.count > MAX_TYPES
    {
        return Some(fault(
            406,
            outline.header.map_at + outline.types,
            outline.count as u32,
        ));
    }
    None
}

/// ReferencesOutside, of a type after types with so many references.
#[tactic(auto, unfolding(crate::specs::Rules::references_outside))]
pub fn references_outside(outline: Outline, so_far: usize, entry: TypeEntry) -> Option<ForkFault>
    requires map { outline.header.map_at + outline.header.map_length < 2 ^ 33 }
    requires so_far { so_far < 2 ^ 30 }
    requires count { entry.count < 2 ^ 16 }
    requires list { entry.list < 2 ^ 35 }
    ensures rule { result ≡ references_outside outline so_far entry }
    ensures so_far { IfNone result (so_far + entry.count ≤ 16384) }
    ensures sayable { IfSome result IsSayable }
{
    if outline.header.map_at + outline.header.map_length < entry.list + 12 * entry.count
        || so_far + entry.count > MAX_REFERENCES
    {
        return Some(fault(407, entry.list, entry.count as u32));
    }
    None
}

/// DataOutside.
#[tactic(auto, unfolding(crate::specs::Rules::data_outside))]
pub fn data_outside(bytes: &[u8], outline: Outline, reference: Reference) -> Option<ForkFault>
    requires area { HasArea bytes.now outline.header }
    requires short { length bytes.now < 2 ^ 32 }
    ensures rule { result ≡ data_outside bytes.now outline reference }
    ensures sayable { IfSome result IsSayable }
{
    let at = reference.data_at as usize;
    let place = outline.header.data_at + at;
    if outline.header.data_length < at + 4 {
        return Some(fault(408, place, 0));
    }
    let stored = u32_at(bytes, place);
    if outline.header.data_length < at + 4 + stored as usize {
        return Some(fault(408, place, stored));
    }
    None
}

/// NameOutside.
#[tactic(auto, unfolding(crate::specs::Rules::name_outside))]
pub fn name_outside(bytes: &[u8], outline: Outline, reference: Reference) -> Option<ForkFault>
    requires map { outline.header.map_at + outline.header.map_length ≤ length bytes.now }
    requires names { outline.names < 2 ^ 16 }
    requires short { length bytes.now < 2 ^ 32 }
    ensures rule { result ≡ name_outside bytes.now outline reference }
    ensures sayable { IfSome result IsSayable }
{
    if reference.name == NO_NAME {
        return None;
    }
    let at = outline.names + reference.name as usize;
    let place = outline.header.map_at + at;
    if outline.header.map_length < at + 1
        || outline.header.map_length < at + 1 + u8_at(bytes, place) as usize
    {
        return Some(fault(409, place, reference.name as u32));
    }
    None
}
