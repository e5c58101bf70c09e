//! Laws: numbers and bytes are read back from bits, and bits fill a unit. See `specs/Bits`, `specs/BitBuf`.

ghost use Rattle.std.specs.Prelude.{◌≡◌, ℕ, ◌%◌, ◌^◌, ◌<◌, Bool, List, length, slice_index};
ghost use Rattle.rz_bits.specs.Bits.{number_bits, number_of, bits_of, bytes_of};
ghost use Rattle.rz_bits.specs.BitBuf.{missing, filled};

/// A law, with nothing to run: the bits of a number write it again, modulo 2 to the power of the width.
pub fn numbers_are_read_back()
    ensures { (width number : ℕ) → number_of (number_bits width number) ≡ number % 2 ^ width }
{}

/// A law, with nothing to run: bits are those of the number that they write.
pub fn numbers_are_written_back()
    ensures { (bits : List Bool) → number_bits (length bits) (number_of bits) ≡ bits }
{}

/// A law, with nothing to run: the bytes of the bits of bytes are the bytes.
pub fn bytes_are_read_back()
    ensures { (bytes : List ℕ) → ((k : ℕ) → slice_index bytes k < 256) → bytes_of (bits_of bytes) ≡ bytes }
{}

/// A law, with nothing to run: a whole number of bytes of bits is the bits of its bytes.
pub fn bits_are_written_back()
    ensures { (bits : List Bool) → length bits % 8 ≡ 0 → bits_of (bytes_of bits) ≡ bits }
{}

/// A law, with nothing to run: bits that are filled to a unit have a multiple of it, with fewer zero bits than one
/// unit.
pub fn filled_to_a_multiple()
    ensures multiple { (unit : ℕ) (bits : List Bool) → 0 < unit → length (filled unit bits) % unit ≡ 0 }
    ensures fewer { (unit place : ℕ) → 0 < unit → missing unit place < unit }
{}
