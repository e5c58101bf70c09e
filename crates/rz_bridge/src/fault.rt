//! A broken rule of a form, with a table of the rules. What a fault keeps is in `specs/Faults`.

ghost use Rattle.std.specs.Prelude.{◌≡◌, ◌<◌, ◌^◌};
ghost use Rattle.rz_bridge.specs.Faults.{fault};

use rz_core::Kept;

/// A broken rule of a form, or what a writer refuses.
///
/// | Number | Rule | Broken where | Offset | Kept |
/// |---|---|---|---|---|
/// | 421 | ShortHeader | AppleDouble and AppleSingle have fewer than 26 bytes, MacBinary fewer than 128 | 0 | how many |
/// | 422 | BadMagic | AppleDouble doesn't begin with 00051607, AppleSingle doesn't with 00051600 | 0 | the number there |
/// | 422 | BadMagic | MacBinary's byte 0, 74 or 82 isn't zero, or its byte 122 or 123 is below 129 | of the byte | the byte |
/// | 427 | NewerVersion | the version of AppleDouble or AppleSingle is neither 00020000 nor 00010000 | 4 | the version |
/// | 427 | NewerVersion | MacBinary's byte 123 is above 129 | 123 | the byte |
/// | 423 | EntryOutside | the entries of AppleDouble or AppleSingle end after the file | 24 | how many entries |
/// | 423 | EntryOutside | the bytes of an entry end after the file | of the entry | its id |
/// | 424 | BadCrc | MacBinary's check isn't that of its bytes 0 to 123 | 124 | 0, the stored check and the computed one |
/// | 425 | BadName | the length of a name isn't 1 to 63 | 1; written: 0 | the length |
/// | 426 | Truncated | a fork of MacBinary ends after the file | of the fork | its length |
/// | 428 | ForkTooLong | a fork to be written has more than 33,554,432 bytes | 0 | its length |
#[derive(Drop)]
pub struct BridgeFault {
    /// 421 to 428, or 441 to 447 of BinHex, whose reader lists its rules.
    pub number: u16,
    /// In bytes from the start of the file, or as the reader of BinHex says; 0 where a writer refuses.
    pub offset: u64,
    /// What the rule found. A length above 2^63 - 1 is kept as 2^63 - 1.
    pub kept: Kept,
}

/// The fault of a rule at an offset in bytes, which keeps a number.
pub fn fault_at(number: u16, offset: usize, value: u64) -> BridgeFault
    requires { value < 2 ^ 63 }
    ensures { result ≡ fault number offset value }
{
    BridgeFault {
        number,
        offset: offset as u64,
        kept: Kept::Number(value as i64),
    }
}
