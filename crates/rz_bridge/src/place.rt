//! Pieces of bytes, and bytes filled to a multiple of 128; changed only with `specs/Places`.

ghost use Rattle.std.specs.Prelude.{◌≡◌, ◌<◌, ◌≤◌, ◌+◌, ◌^◌, ◌++◌, length, IfOk, OnOk};
ghost use Rattle.rz_bridge.specs.Places.{piece, filled, with_filler};

use rz_core::{Bytes, NoMemory, append_zeros, rest_at};
use std::alloc::Global;

/// A piece of bytes.
#[derive(Clone, Copy)]
pub struct Span {
    /// Where the piece begins.
    pub place: usize,
    /// How many bytes the piece has.
    pub count: usize,
}

/// So many bytes from a place on, as far as there are so many.
#[tactic(auto, unfolding(crate::specs::Places::piece))]
pub fn piece_at(bytes: &[u8], place: usize, count: usize) -> &[u8]
    ensures piece { result.now ≡ piece bytes.now place count }
    ensures within { length result.now ≤ length bytes.now }
    ensures most { length result.now ≤ count }
{
    let rest = rest_at(bytes, place.min(bytes.len()));
    rest.split_at(count.min(rest.len())).0
}

/// Two pieces of bytes, each as [`piece_at`] gives them. The longer one keeps the memory of the bytes.
pub fn pieces_in(
    alloc: Global,
    bytes: Bytes,
    one: Span,
    other: Span,
) -> Result<(Bytes, Bytes), NoMemory>
    ensures one { IfOk result (λ pieces. pieces.0 ≡ piece bytes one.place one.count) }
    ensures other { IfOk result (λ pieces. pieces.1 ≡ piece bytes other.place other.count) }
    ensures within { IfOk result (λ pieces. (length pieces.0 ≤ length bytes) × (length pieces.1 ≤ length bytes)) }
    ensures most { IfOk result (λ pieces. (length pieces.0 ≤ one.count) × (length pieces.1 ≤ other.count)) }
{
    if one.count < other.count {
        let copy = Bytes::of(alloc, piece_at(bytes.as_slice(), one.place, one.count))?;
        Ok((copy, kept_in(bytes, other)))
    } else {
        let copy = Bytes::of(alloc, piece_at(bytes.as_slice(), other.place, other.count))?;
        Ok((kept_in(bytes, one), copy))
    }
}

/// A piece of bytes in the memory of them all.
#[tactic(auto, unfolding(crate::specs::Places::piece))]
fn kept_in(bytes: Bytes, span: Span) -> Bytes
    ensures piece { result ≡ piece bytes span.place span.count }
    ensures within { length result ≤ length bytes }
    ensures most { length result ≤ span.count }
{
    let mut items = bytes.into_vec();
    let start = span.place.min(items.len());
    let count = span.count.min(items.len() - start);
    items.copy_within(start..start + count, 0);
    items.truncate(count);
    Bytes::from_vec(items)
}

/// A length rounded up to a multiple of 128.
#[tactic(auto, unfolding(crate::specs::Places::filled))]
pub fn filled(length: usize) -> usize
    requires { length < 2 ^ 40 }
    ensures value { result ≡ filled length }
    ensures least { length ≤ result }
    ensures most { result < length + 128 }
{
    (length + 127) / 128 * 128
}

/// Appends bytes, and zeros that fill them to a multiple of 128.
#[tactic(auto, unfolding(crate::specs::Places::with_filler))]
pub fn append_filled(out: &mut Bytes, bytes: &[u8]) -> Result<(), NoMemory>
    requires { length bytes.now < 2 ^ 40 }
    ensures { OnOk result (out.new ≡ out.old ++ with_filler bytes.now) }
{
    out.append(bytes)?;
    append_zeros(out, filled(bytes.len()) - bytes.len())?;
    Ok(())
}
