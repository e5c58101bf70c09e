//! Numbers at a place of bytes, the highest byte first. What they are is in `specs/Numbers`.

ghost use Rattle.std.specs.Prelude.{◌≡◌, ◌<◌, ◌≤◌, ◌+◌, ◌^◌, ◌++◌, length, drop, replicate, OnOk};
ghost use Rattle.rz_core.specs.Numbers.{be, number};

use crate::{Bytes, NoMemory};
use byteorder::{BigEndian, ByteOrder};

/// Appends a number in 2 bytes, the highest first.
#[tactic(auto, unfolding(crate::specs::Numbers::be))]
pub fn append_u16(out: &mut Bytes, number: u16) -> Result<(), NoMemory>
    ensures { OnOk result (out.new ≡ out.old ++ be 2 number) }
{
    let mut piece = [0; 2];
    BigEndian::write_u16(&mut piece, number);
    out.append(&piece)
}

/// Appends a number in 3 bytes, the highest first.
#[tactic(auto, unfolding(crate::specs::Numbers::be))]
pub fn append_u24(out: &mut Bytes, number: u32) -> Result<(), NoMemory>
    requires { number < 2 ^ 24 }
    ensures { OnOk result (out.new ≡ out.old ++ be 3 number) }
{
    let mut piece = [0; 3];
    BigEndian::write_u24(&mut piece, number);
    out.append(&piece)
}

/// Appends a number in 4 bytes, the highest first.
#[tactic(auto, unfolding(crate::specs::Numbers::be))]
pub fn append_u32(out: &mut Bytes, number: u32) -> Result<(), NoMemory>
    ensures { OnOk result (out.new ≡ out.old ++ be 4 number) }
{
    let mut piece = [0; 4];
    BigEndian::write_u32(&mut piece, number);
    out.append(&piece)
}

/// Appends so many zeros.
pub fn append_zeros(out: &mut Bytes, count: usize) -> Result<(), NoMemory>
    ensures { OnOk result (out.new ≡ out.old ++ replicate count 0) }
{
    for _ in 0..count {
        out.push(0)?;
    }
    Ok(())
}

/// The bytes from a place on.
pub fn rest_at(bytes: &[u8], place: usize) -> &[u8]
    requires { place ≤ length bytes.now }
    ensures { result.now ≡ drop place bytes.now }
{
    bytes.split_at(place).1
}

/// The byte at a place.
#[tactic(auto, unfolding(crate::specs::Numbers::number))]
pub fn u8_at(bytes: &[u8], place: usize) -> u8
    requires { place + 1 ≤ length bytes.now }
    ensures { result ≡ number 1 bytes.now place }
{
    rest_at(bytes, place)[0]
}

/// The number in 2 bytes at a place, the highest first.
#[tactic(auto, unfolding(crate::specs::Numbers::number))]
pub fn u16_at(bytes: &[u8], place: usize) -> u16
    requires { place + 2 ≤ length bytes.now }
    ensures { result ≡ number 2 bytes.now place }
{
    BigEndian::read_u16(rest_at(bytes, place))
}

/// The number in 3 bytes at a place, the highest first.
#[tactic(auto, unfolding(crate::specs::Numbers::number))]
pub fn u24_at(bytes: &[u8], place: usize) -> u32
    requires { place + 3 ≤ length bytes.now }
    ensures { result ≡ number 3 bytes.now place }
{
    BigEndian::read_u24(rest_at(bytes, place))
}

/// The number in 4 bytes at a place, the highest first.
#[tactic(auto, unfolding(crate::specs::Numbers::number))]
pub fn u32_at(bytes: &[u8], place: usize) -> u32
    requires { place + 4 ≤ length bytes.now }
    ensures { result ≡ number 4 bytes.now place }
{
    BigEndian::read_u32(rest_at(bytes, place))
}
