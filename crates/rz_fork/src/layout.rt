//! Where the parts of a fork lie: header, outline, types and references; changed only with `specs/Layout`.

ghost use Rattle.std.specs.Prelude.{◌≡◌, ◌<◌, ◌≤◌, ◌+◌, ◌^◌, length};
ghost use Rattle.rz_fork.specs.Layout.{count_at, header_of, types_of, outline_of, types_place, entry_at, reference_at};
ghost use Rattle.rz_fork.specs.Admit.{HasMap};

use rz_core::{u8_at, u16_at, u24_at, u32_at};

/// The name offset of a resource without a name.
pub const NO_NAME: u16 = 0xFFFF;

/// The header of a fork. Offsets are in bytes from the start of the fork.
#[derive(Clone, Copy)]
pub struct Header {
    /// Where the data area begins.
    pub data_at: usize,
    /// Where the map begins.
    pub map_at: usize,
    /// The data area's length in bytes.
    pub data_length: usize,
    /// The map's length in bytes.
    pub map_length: usize,
}

/// Where the parts of a fork lie. Offsets are in bytes from the start of the map.
#[derive(Clone, Copy)]
pub struct Outline {
    /// The header of the fork.
    pub header: Header,
    /// Where the type list begins.
    pub types: usize,
    /// Where the name list begins.
    pub names: usize,
    /// How many types there are.
    pub count: usize,
}

/// An entry of the type list. Offsets are in bytes from the start of the fork.
#[derive(Clone, Copy)]
pub struct TypeEntry {
    /// Where the entry stands.
    pub place: usize,
    /// The type's 4 bytes as a number.
    pub code: u32,
    /// How many references the type has.
    pub count: usize,
    /// Where its references begin.
    pub list: usize,
}

/// An entry of a reference list. Offsets are in bytes.
#[derive(Clone, Copy)]
pub struct Reference {
    /// Where the reference stands, from the start of the fork.
    pub place: usize,
    /// The id's 16 bits.
    pub id: u16,
    /// The name's offset in the name list, or [`NO_NAME`].
    pub name: u16,
    /// The attributes of the resource.
    pub attr: u8,
    /// The data's offset in the data area.
    pub data_at: u32,
}

/// The header of a fork.
#[tactic(auto, unfolding(crate::specs::Layout::header_of))]
pub fn read_header(bytes: &[u8]) -> Header
    requires { 16 ≤ length bytes.now }
    ensures header { result ≡ header_of bytes.now }
    ensures area { result.data_at + result.data_length < 2 ^ 33 }
    ensures area_length { result.data_length < 2 ^ 32 }
    ensures map { result.map_at < 2 ^ 32 }
    ensures map_length { result.map_length < 2 ^ 32 }
{
    Header {
        data_at: u32_at(bytes, 0) as usize,
        map_at: u32_at(bytes, 4) as usize,
        data_length: u32_at(bytes, 8) as usize,
        map_length: u32_at(bytes, 12) as usize,
    }
}

/// Where the type list begins in the map.
#[tactic(auto, unfolding(crate::specs::Layout::types_of))]
pub fn type_list_at(bytes: &[u8], header: Header) -> usize
    requires { HasMap bytes.now header }
    ensures types { result ≡ types_of bytes.now header }
    ensures small { result < 2 ^ 16 }
{
    u16_at(bytes, header.map_at + 24) as usize
}

/// A count that is stored less one, modulo 65,536.
fn count(bytes: &[u8], place: usize) -> usize
    requires { place + 2 ≤ length bytes.now }
    ensures count { result ≡ count_at bytes.now place }
    ensures small { result < 2 ^ 16 }
{
    (u16_at(bytes, place) as usize + 1) % 65_536
}

/// The outline of a fork whose type list begins there in the map.
#[tactic(auto, unfolding(crate::specs::Layout::outline_of))]
pub fn read_outline(bytes: &[u8], header: Header, types: usize) -> Outline
    requires map { HasMap bytes.now header }
    requires types { types + 2 ≤ header.map_length }
    ensures outline { result ≡ outline_of bytes.now header types }
    ensures header { result.header ≡ header }
    ensures types { result.types ≡ types }
    ensures count { result.count < 2 ^ 16 }
    ensures names { result.names < 2 ^ 16 }
{
    Outline {
        header,
        types,
        names: u16_at(bytes, header.map_at + 26) as usize,
        count: count(bytes, header.map_at + types),
    }
}

/// The entry of the type list at a place.
#[tactic(auto, unfolding(crate::specs::Layout::entry_at))]
pub fn entry_at(bytes: &[u8], outline: Outline, place: usize) -> TypeEntry
    requires within { place + 8 ≤ length bytes.now }
    requires small { types_place outline < 2 ^ 34 }
    ensures entry { result ≡ entry_at bytes.now outline place }
    ensures place { result.place ≡ place }
    ensures count { result.count < 2 ^ 16 }
    ensures list { result.list < 2 ^ 35 }
{
    TypeEntry {
        place,
        code: u32_at(bytes, place),
        count: count(bytes, place + 4),
        list: outline.header.map_at + outline.types + u16_at(bytes, place + 6) as usize,
    }
}

/// The reference at a place.
#[tactic(auto, unfolding(crate::specs::Layout::reference_at))]
pub fn reference_at(bytes: &[u8], place: usize) -> Reference
    requires { place + 12 ≤ length bytes.now }
    ensures reference { result ≡ reference_at bytes.now place }
    ensures place { result.place ≡ place }
{
    Reference {
        place,
        id: u16_at(bytes, place),
        name: u16_at(bytes, place + 2),
        attr: u8_at(bytes, place + 4),
        data_at: u24_at(bytes, place + 5),
    }
}
