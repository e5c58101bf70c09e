//! A list of bits that grows at its end and becomes bytes. See `specs/Bits` and `specs/BitBuf`.

ghost use Rattle.std.specs.Prelude.{◌≡◌, ◌+◌, ◌*◌, ◌^◌, ◌<◌, ◌≤◌, ℕ, List, [], ◌++◌, length, take, drop, replicate, IfSome, OnOk, OnErr};
ghost use Rattle.std.specs.List.{list_any};
ghost use Rattle.rz_bits.specs.Bits.{number_bits, bits_of, bytes_of};
ghost use Rattle.rz_bits.specs.BitBuf.{missing, filled};
ghost use Rattle.rz_bits.specs.View.{number_at};

use crate::bit_view::number_in;
use crate::patch::patch_bits;
use crate::tail::{are_read_back, missing, push_bits};
use rz_core::{Bytes, NoMemory};
use std::alloc::Global;
use std::marker::Model;

/// A list of bits that grows at its end. Contracts see it as that list, which has fewer than 2^31 bits. It is
/// held in whole bytes, the last of them filled with zero bits, and keeps the allocator that it was made with.
/// (Inside Macintosh: More Macintosh Toolbox, Resource Manager; MPW Rez.)
#[derive(Drop)]
pub struct BitBuf {
    bytes: Vec<u8>,
    count: u32,
}

impl Model for BitBuf {
    ghost use Rattle.std.specs.Prelude.{Bool, List};
    ghost use Rattle.rz_bits.specs.Held.{held, IsHeld};

    ghost Value = { List Bool };

    ghost view = { λ bits. held bits.bytes.items bits.count };

    ghost invariant = { λ bits. IsHeld bits.bytes.items bits.count };
}

impl BitBuf {
    /// The list without bits. It takes no memory.
    pub fn new(alloc: Global) -> BitBuf
        ensures { result ≡ [] }
    {
        BitBuf {
            bytes: Vec::new(alloc),
            count: 0,
        }
    }

    /// Appends the last `width` binary digits of a number, the most significant first; a width of 0 appends
    /// nothing. Where memory is refused the list is unchanged. Its time is constant on average.
    pub fn push(&mut self, value: u32, width: u8) -> Result<(), NoMemory>
        requires width { width ≤ 32 }
        requires room { length self.old + width < 2 ^ 31 }
        ensures ok { OnOk result (self.new ≡ self.old ++ number_bits width value) }
        ensures err { OnErr result (self.new ≡ self.old) }
    {
        push_bits(&mut self.bytes, self.count, value, width)?;
        self.count += width as u32;
        Ok(())
    }

    /// Appends the bits of bytes, eight a byte. Where memory is refused the first of the bytes, or none, were appended,
    /// and the others are left. After whole bytes its time is that of a copy.
    pub fn push_bytes(&mut self, bytes: &[u8]) -> Result<(), NoMemory>
        requires room { length self.old + 8 * length bytes.now < 2 ^ 31 }
        ensures ok { OnOk result (self.new ≡ self.old ++ bits_of bytes.now) }
        ensures err { OnErr result ((left : List ℕ) × (self.new ++ bits_of left ≡ self.old ++ bits_of bytes.now)) }
    {
        if self.count % 8 == 0 {
            self.bytes.extend_from_slice(bytes)?;
            self.count += 8 * bytes.len() as u32;
            return Ok(());
        }
        for byte in bytes {
            self.push(*byte as u32, 8)?;
        }
        Ok(())
    }

    /// Appends a bit so many times, 32 at once. Where memory is refused those that were appended stay, and the others
    /// are left. Its time is in proportion to the count.
    pub fn push_many(&mut self, bit: bool, count: u32) -> Result<(), NoMemory>
        requires room { length self.old + count < 2 ^ 31 }
        ensures ok { OnOk result (self.new ≡ self.old ++ replicate count bit) }
        ensures err { OnErr result ((left : ℕ) × (self.new ++ replicate left bit ≡ self.old ++ replicate count bit)) }
    {
        let bits = repeated(bit);
        let mut left = count;
        while left > 32 {
            self.push(bits, 32)?;
            left -= 32;
        }
        self.push(bits, left as u8)
    }

    /// Appends the zero bits that are missing to the next multiple of `unit` bits, none at a multiple. Rez aligns
    /// to 4, 8, 16 and 32. Where memory is refused the list is unchanged.
    pub fn align(&mut self, unit: u8) -> Result<(), NoMemory>
        requires unit { (0 < unit) × (unit ≤ 32) }
        requires room { length self.old + missing unit (length self.old) < 2 ^ 31 }
        ensures ok { OnOk result (self.new ≡ filled unit self.old) }
        ensures err { OnErr result (self.new ≡ self.old) }
    {
        let zeros = missing(unit, self.len());
        self.push(0, zeros)
    }

    /// The number in so many bits from a place on, counted from 0, the highest bit first; of no bits it is 0. `None`
    /// exactly if so many bits aren't there. It looks at five bytes at most.
    pub fn at(&self, place: u32, width: u8) -> Option<u32>
        requires { width ≤ 32 }
        ensures number { result ≡ number_at self.now place width }
        ensures small { IfSome result (λ n. n < 2 ^ width) }
    {
        if u64::from(place) + u64::from(width) > u64::from(self.count) {
            return None;
        }
        Some(number_in(&self.bytes, place, width))
    }

    /// Whether one of so many bits from a place on, counted from 0, is set; after the last bit none is. It looks at
    /// five bytes at most.
    pub fn any(&self, place: u32, width: u8) -> bool
        requires { width ≤ 32 }
        ensures { result ≡ list_any (λ bit. bit) (take width (drop place self.now)) }
    {
        if place >= self.count {
            return false;
        }
        let there = (self.count - place).min(u32::from(width)) as u8;
        number_in(&self.bytes, place, there) != 0
    }

    /// Writes the last `width` binary digits of a number over the bits from a place on, counted from 0. All other bits
    /// stay. It takes no memory, and constant time.
    pub fn patch(&mut self, place: u32, width: u8, value: u32)
        requires width { width ≤ 32 }
        requires within { place + width ≤ length self.old }
        ensures { self.new ≡ take place self.old ++ (number_bits width value ++ drop (place + width) self.old) }
    {
        patch_bits(&mut self.bytes, place, width, value);
    }

    /// The number of bits.
    pub fn len(&self) -> u32
        ensures is { result ≡ length self.now }
        ensures below { length self.now < 2 ^ 31 }
    {
        self.count
    }

    /// The bytes of the bits, eight bits a byte, after zero bits to a whole number of bytes. It takes no memory.
    pub fn finish(self) -> Bytes
        ensures bytes { result ≡ bytes_of (filled 8 self) }
        ensures bits { bits_of result ≡ filled 8 self }
    {
        let BitBuf { bytes, count: _ } = self;
        are_read_back(&bytes);
        Bytes::from_vec(bytes)
    }
}

/// The number whose last 32 digits are all this bit.
fn repeated(bit: bool) -> u32
    ensures { (width : ℕ) → width ≤ 32 → number_bits width result ≡ replicate width bit }
{
    if bit { u32::MAX } else { 0 }
}
