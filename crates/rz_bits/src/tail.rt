//! How bits are appended to those in bytes, the last of them open; changed only with `specs/Held`.

ghost use Rattle.std.specs.Prelude.{◌≡◌, ◌+◌, ◌-◌, ◌*◌, ◌/◌, ◌%◌, ◌^◌, ◌<◌, ◌≤◌, ◌++◌, length, take, slice_index, OnOk, OnErr};
ghost use Rattle.rz_bits.specs.Bits.{number_bits, bits_of, bytes_of};
ghost use Rattle.rz_bits.specs.BitBuf.{missing};
ghost use Rattle.rz_bits.specs.Held.{held, IsHeld, spelled};

use rz_core::NoMemory;

/// The number of bits from a place to the next multiple of `unit` bits.
pub fn missing(unit: u8, place: u32) -> u8
    requires { 0 < unit }
    ensures is { result ≡ missing unit place }
    ensures below { result < unit }
{
    let unit = unit as u32;
    ((unit - place % unit) % unit) as u8
}

/// The number whose last digits are the used bits of an open byte, those of a value, and the zero bits to the end of
/// a byte.
fn spelled(byte: u8, used: u8, value: u32, width: u8) -> u64
    requires used { used < 8 }
    requires width { width ≤ 32 }
    ensures { result ≡ spelled byte used value width }
{
    let front = (byte as u64) >> (8 - used);
    let low = value as u64 % (1u64 << width);
    let bits = (front << width) + low;
    bits << missing(8, used as u32 + width as u32)
}

/// Puts a piece in place of what stands after the first `whole` bytes, at most one byte. Where memory is refused
/// the bytes are unchanged.
fn put_tail(bytes: &mut Vec<u8>, whole: usize, piece: &[u8]) -> Result<(), NoMemory>
    requires within { whole ≤ length bytes.old.items }
    requires one { length bytes.old.items ≤ whole + 1 }
    requires piece { length bytes.old.items ≤ whole + length piece.now }
    ensures ok { OnOk result (bytes.new.items ≡ take whole bytes.old.items ++ piece.now) }
    ensures err { OnErr result (bytes.new.items ≡ bytes.old.items) }
{
    if bytes.len() == whole {
        bytes.extend_from_slice(piece)?;
    } else {
        bytes.extend_from_slice(&piece[1..])?;
        bytes[whole] = piece[0];
    }
    Ok(())
}

/// The byte after the whole ones, in which the next bit is to stand; 0 where there is none yet.
fn open_byte(bytes: &[u8], whole: usize) -> u8
    ensures { result ≡ slice_index bytes.now whole }
{
    if whole < bytes.len() { bytes[whole] } else { 0 }
}

/// Appends the last `width` digits of a value to `count` bits that are held in bytes.
pub fn push_bits(bytes: &mut Vec<u8>, count: u32, value: u32, width: u8) -> Result<(), NoMemory>
    requires width { width ≤ 32 }
    requires room { count + width < 2 ^ 31 }
    requires held { IsHeld bytes.old.items count }
    ensures ok { OnOk result ((IsHeld bytes.new.items (count + width))
        × (held bytes.new.items (count + width) ≡ held bytes.old.items count ++ number_bits width value)) }
    ensures err { OnErr result (bytes.new.items ≡ bytes.old.items) }
{
    let used = (count % 8) as u8;
    let whole = count as usize / 8;
    let number = spelled(open_byte(bytes, whole), used, value, width);
    let size = (used + width + missing(8, used as u32 + width as u32)) as usize / 8;
    put_tail(bytes, whole, &number.to_be_bytes()[8 - size..])
}

/// Bytes are those of their bits, with nothing to run.
pub fn are_read_back(bytes: &[u8])
    ensures { bytes_of (bits_of bytes.now) ≡ bytes.now }
{}
