//! The bits of bytes, read in place from any bit on, by place or one number after another. What they are is in
//! `specs/Bits` and `specs/View`.

ghost use Rattle.std.specs.Prelude.{◌≡◌, ◌+◌, ◌*◌, ◌^◌, ◌==◌, ◌<◌, ◌≤◌, ◌%◌, length, take, drop, IfOk, IfSome, IfNone, None, Some};
ghost use Rattle.rz_bits.specs.Bits.{bits_of, front_bytes, number_bits, number_of};

use rz_core::{Bytes, NoMemory};
use std::alloc::Global;

/// The bits of bytes, read in place, and a place among them, from which on `take` reads: the first bit of a byte is its
/// most significant one. It takes no memory. (Inside Macintosh: More Macintosh Toolbox, Resource Manager; MPW Rez.)
#[derive(Clone, Copy)]
pub struct BitView<'a> {
    bytes: &'a [u8],
    place: u32,
    ghost short: { length bytes.now ≤ 16777212 },
    ghost within: { place ≤ 8 * length bytes.now },
}

impl<'a> BitView<'a> {
    ghost use Rattle.rz_bits.specs.View.{bytes_at, number_at, place_of, seen};

    /// The view of these bytes, at most 16,777,212 of them. Its place is the first bit, 0.
    pub fn over(bytes: &'a [u8]) -> BitView<'a>
        requires { length bytes.now ≤ 16777212 }
        ensures bits { seen result ≡ bits_of bytes.now }
        ensures place { place_of result ≡ 0 }
    {
        BitView { bytes, place: 0 }
    }

    /// The number of bits.
    #[tactic(auto, using(crate::proofs::Windows::bits_length))]
    pub fn len(&self) -> u32
        ensures is { result ≡ length (seen self.now) }
        ensures most { result ≤ 134217696 }
    {
        self.bytes.len() as u32 * 8
    }

    /// The place, counted from 0: how many bits are before it.
    #[tactic(auto, using(crate::proofs::Windows::bits_length))]
    pub fn place(&self) -> u32
        ensures is { result ≡ place_of self.now }
        ensures within { result ≤ length (seen self.now) }
    {
        self.place
    }

    /// The number in the next so many bits, the highest bit first; the place then stands after them. `None` exactly
    /// where so many bits are not left, and then the view is unchanged. It looks at five bytes at most.
    #[tactic(auto, using(crate::proofs::Windows::bits_length))]
    pub fn take(&mut self, width: u8) -> Option<u32>
        requires { width ≤ 32 }
        ensures number { result ≡ number_at (seen self.old) (place_of self.old) width }
        ensures small { IfSome result (λ n. n < 2 ^ width) }
        ensures bits { seen self.new ≡ seen self.old }
        ensures moves { IfSome result (λ n. place_of self.new ≡ place_of self.old + width) }
        ensures stands { IfNone result (self.new ≡ self.old) }
    {
        let number = self.at(self.place, width)?;
        self.place += u32::from(width);
        Some(number)
    }

    /// The number in so many bits, the highest bit first, where `ahead` bits are between the place and them. `None`
    /// exactly where so many bits are not there. The place stays. It looks at five bytes at most.
    #[tactic(auto, using(crate::proofs::Windows::bits_length))]
    pub fn peek(&self, ahead: u32, width: u8) -> Option<u32>
        requires { width ≤ 32 }
        ensures number { result ≡ number_at (seen self.now) (place_of self.now + ahead) width }
        ensures small { IfSome result (λ n. n < 2 ^ width) }
    {
        if ahead > self.len() - self.place {
            return None;
        }
        self.at(self.place + ahead, width)
    }

    /// The number in so many bits from a place on, counted from 0, the highest bit first; of no bits it is 0. `None`
    /// exactly where so many bits are not there. It looks at five bytes at most.
    #[tactic(auto, using(crate::proofs::Windows::bits_length))]
    pub fn at(&self, place: u32, width: u8) -> Option<u32>
        requires { width ≤ 32 }
        ensures number { result ≡ number_at (seen self.now) place width }
        ensures small { IfSome result (λ n. n < 2 ^ width) }
        ensures within { IfSome result (λ n. place + width ≤ length (seen self.now)) }
    {
        if u64::from(place) + u64::from(width) > u64::from(self.len()) {
            return None;
        }
        Some(number_in(self.bytes, place, width))
    }

    /// A copy of so many bytes from a place on, in bits. `Ok(None)` exactly where so many bytes are not there.
    #[tactic(auto, using(crate::proofs::Windows::bits_length))]
    pub fn bytes(&self, alloc: Global, place: u32, count: u32) -> Result<Option<Bytes>, NoMemory>
        ensures bytes { IfOk result (λ bytes. bytes ≡ bytes_at (seen self.now) place count) }
        ensures within { IfOk result (λ bytes. IfSome bytes (λ b. place + 8 * count ≤ length (seen self.now))) }
    {
        if u64::from(place) + 8 * u64::from(count) > u64::from(self.len()) {
            return Ok(None);
        }
        if place % 8 == 0 {
            return Ok(Some(whole_bytes(alloc, self.bytes, place / 8, count)?));
        }
        Ok(Some(shifted_bytes(alloc, self.bytes, place, count)?))
    }

    /// So many bytes from a place on, in bits, lent. `None` exactly where the place is within a byte, or where so many
    /// bytes are not there.
    #[tactic(auto, using(crate::proofs::Windows::bits_length))]
    pub fn lent(&self, place: u32, count: u32) -> Option<&[u8]>
        ensures bytes { IfSome result (λ bytes. Some bytes.now ≡ bytes_at (seen self.now) place count) }
        ensures within { IfSome result (λ bytes. place + 8 * count ≤ length (seen self.now)) }
        ensures missing { IfNone result (place % 8 ≡ 0 → bytes_at (seen self.now) place count ≡ None) }
    {
        if place % 8 != 0 {
            return None;
        }
        if u64::from(place) + 8 * u64::from(count) > u64::from(self.len()) {
            return None;
        }
        Some(bytes_in(self.bytes, place / 8, count))
    }

    /// Whether so many bits from a place on are all 0.
    #[tactic(auto, using(crate::proofs::Windows::bits_length))]
    pub fn are_zero(&self, place: u32, count: u32) -> bool
        requires { place + count ≤ length (seen self.now) }
        ensures { result ≡ (number_of (take count (drop place (seen self.now))) == 0) }
    {
        are_zero(self.bytes, place, count)
    }
}

/// Bytes as one number, the first byte highest.
pub(crate) fn gathered(bytes: &[u8]) -> u64
    requires { length bytes.now ≤ 5 }
    ensures bits { number_bits (8 * length bytes.now) result ≡ bits_of bytes.now }
    ensures small { result < 2 ^ (8 * length bytes.now) }
{
    let mut number = 0;
    for byte in bytes {
        number = number * 256 + u64::from(*byte);
    }
    number
}

/// The number in bits that are there.
pub(crate) fn number_in(bytes: &[u8], place: u32, width: u8) -> u32
    requires width { width ≤ 32 }
    requires within { place + width ≤ 8 * length bytes.now }
    ensures number { result ≡ number_of (take width (drop place (bits_of bytes.now))) }
    ensures small { result < 2 ^ width }
{
    let first = place as usize / 8;
    let used = place as usize % 8;
    let size = (used + width as usize + 7) / 8;
    let number = gathered(&bytes[first..first + size]);
    let behind = 8 * size - used - width as usize;
    ((number >> behind) % (1_u64 << width)) as u32
}

/// Bytes that are there, where the place is that of a whole byte.
fn bytes_in(bytes: &[u8], first: u32, count: u32) -> &[u8]
    requires { first + count ≤ length bytes.now }
    ensures { result.now ≡ front_bytes count (drop (8 * first) (bits_of bytes.now)) }
{
    &bytes[first as usize..first as usize + count as usize]
}

/// A copy of bytes that are there, where the place is that of a whole byte.
fn whole_bytes(alloc: Global, bytes: &[u8], first: u32, count: u32) -> Result<Bytes, NoMemory>
    requires { first + count ≤ length bytes.now }
    ensures { IfOk result (λ copy. copy ≡ front_bytes count (drop (8 * first) (bits_of bytes.now))) }
{
    Bytes::of(alloc, bytes_in(bytes, first, count))
}

/// Bytes that are there, from any place on.
fn shifted_bytes(alloc: Global, bytes: &[u8], place: u32, count: u32) -> Result<Bytes, NoMemory>
    requires within { place + 8 * count ≤ 8 * length bytes.now }
    requires short { length bytes.now ≤ 16777212 }
    ensures { IfOk result (λ copy. copy ≡ front_bytes count (drop place (bits_of bytes.now))) }
{
    let mut copy = Bytes::with_capacity(alloc, count as usize)?;
    for i in 0..count {
        copy.push(number_in(bytes, place + 8 * i, 8) as u8)?;
    }
    Ok(copy)
}

/// Whether bits that are there are all 0.
fn are_zero(bytes: &[u8], place: u32, count: u32) -> bool
    requires within { place + count ≤ 8 * length bytes.now }
    requires short { length bytes.now ≤ 16777212 }
    ensures { result ≡ (number_of (take count (drop place (bits_of bytes.now))) == 0) }
{
    for i in 0..count / 32 {
        if number_in(bytes, place + 32 * i, 32) != 0 {
            return false;
        }
    }
    number_in(bytes, place + count / 32 * 32, (count % 32) as u8) == 0
}
