//! The parts of a fork that its references and its header name, lent. What they are is in `specs/Contents`.

ghost use Rattle.std.specs.Prelude.{◌≡◌, ◌<◌, ◌≤◌, ◌+◌, ◌^◌, length, take, drop, None};
ghost use Rattle.rz_fork.specs.Contents.{data_of, name_of, attributes_of, reserved_of};
ghost use Rattle.rz_fork.specs.Admit.{HasArea};
ghost use Rattle.rz_fork.specs.Rules.{data_outside, name_outside};

use crate::layout::{Header, NO_NAME, Outline, Reference};
use rz_core::{rest_at, u8_at, u16_at, u32_at};

/// So many bytes from a place on.
fn piece_at(bytes: &[u8], place: usize, count: usize) -> &[u8]
    requires { place + count ≤ length bytes.now }
    ensures { result.now ≡ take count (drop place bytes.now) }
{
    rest_at(bytes, place).split_at(count).0
}

/// A resource's bytes.
#[tactic(auto, unfolding(crate::specs::Contents::data_of, crate::specs::Rules::data_outside))]
pub fn data_of(bytes: &[u8], outline: Outline, reference: Reference) -> &[u8]
    requires area { HasArea bytes.now outline.header }
    requires within { data_outside bytes.now outline reference ≡ None }
    ensures { result.now ≡ data_of bytes.now outline reference }
{
    let place = outline.header.data_at + reference.data_at as usize;
    piece_at(bytes, place + 4, u32_at(bytes, place) as usize)
}

/// A resource's name.
#[tactic(auto, unfolding(crate::specs::Contents::name_of, crate::specs::Rules::name_outside))]
pub fn name_of(bytes: &[u8], outline: Outline, reference: Reference) -> &[u8]
    requires map { outline.header.map_at + outline.header.map_length ≤ length bytes.now }
    requires names { outline.names < 2 ^ 16 }
    requires within { name_outside bytes.now outline reference ≡ None }
    ensures { result.now ≡ name_of bytes.now outline reference }
{
    if reference.name == NO_NAME {
        return &[];
    }
    let place = outline.header.map_at + (outline.names + reference.name as usize);
    piece_at(bytes, place + 1, u8_at(bytes, place) as usize)
}

/// The bytes after the header, as far as the data area, the map, 256 and the end leave them.
#[tactic(auto, unfolding(crate::specs::Contents::reserved_of))]
pub fn reserved_of(bytes: &[u8], header: Header) -> &[u8]
    requires { 16 ≤ length bytes.now }
    ensures bytes { result.now ≡ reserved_of bytes.now header }
    ensures room { length result.now ≤ 240 }
{
    let end = header.data_at.min(header.map_at).min(256).min(bytes.len());
    piece_at(bytes, 16, end.saturating_sub(16))
}

/// The attributes of the map.
#[tactic(auto, unfolding(crate::specs::Contents::attributes_of))]
pub fn attributes_of(bytes: &[u8], header: Header) -> u16
    requires map { header.map_at + header.map_length ≤ length bytes.now }
    requires long { 28 ≤ header.map_length }
    ensures { result ≡ attributes_of bytes.now header }
{
    u16_at(bytes, header.map_at + 22)
}
