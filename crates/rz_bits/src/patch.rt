//! A number that is written over bits in bytes. See `specs/Patch`.

ghost use Rattle.std.specs.Prelude.{◌≡◌, ◌+◌, ◌*◌, ◌^◌, ◌<◌, ◌≤◌, ◌++◌, length, take, drop};
ghost use Rattle.rz_bits.specs.Bits.{bits_of, number_bits};
ghost use Rattle.rz_bits.specs.Patch.{patched};

use crate::bit_view::gathered;

/// Writes the last `width` digits of a value over bits that are there.
pub fn patch_bits(bytes: &mut [u8], place: u32, width: u8, value: u32)
    requires width { width ≤ 32 }
    requires within { place + width ≤ 8 * length bytes.old }
    ensures len { length bytes.new ≡ length bytes.old }
    ensures bits { bits_of bytes.new ≡ take place (bits_of bytes.old) ++ (number_bits width value ++ drop (place + width) (bits_of bytes.old)) }
{
    let first = place as usize / 8;
    let used = place as usize % 8;
    let size = (used + width as usize + 7) / 8;
    let behind = 8 * size - used - width as usize;
    let number = gathered(&bytes[first..first + size]);
    let made = patched(number, behind, width, value).to_be_bytes();
    bytes[first..first + size].copy_from_slice(&made[8 - size..]);
}

/// The number whose digits before the last `behind` are, in `width` of them, those of a value.
fn patched(number: u64, behind: usize, width: u8, value: u32) -> u64
    requires number { number < 2 ^ 40 }
    requires behind { behind < 8 }
    requires width { width ≤ 32 }
    ensures { result ≡ patched number behind width value }
{
    let high = number >> (behind + width as usize);
    let low = number % (1_u64 << behind);
    let middle = u64::from(value) % (1_u64 << width);
    (((high << width) + middle) << behind) + low
}
