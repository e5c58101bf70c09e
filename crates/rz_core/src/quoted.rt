//! Bytes and types as they are shown between quote marks, and hex digits; changed only with `specs/Quoted`.

ghost use Rattle.std.specs.Prelude.{◌≡◌, ◌<◌, ◌++◌, OnOk, OnErr};
ghost use Rattle.rz_core.specs.Quoted.{quoted, shown_byte, hex_byte, hex_digit, literal_text};

use crate::{Bytes, NoMemory, OsType};

/// Appends the bytes between two such quote marks, as literals and texts are shown: bytes from 20 to 7E
/// as they are, with a backslash before a backslash and before the quote mark, and every other byte as
/// `\0x` and two upper-case hex digits. The quote is `"` or `'`. Where memory is refused `into` is
/// unchanged.
pub fn write_quoted(bytes: &[u8], quote: u8, into: &mut Bytes) -> Result<(), NoMemory>
    ensures ok { OnOk result (into.new ≡ into.old ++ quoted quote bytes.now) }
    ensures err { OnErr result (into.new ≡ into.old) }
{
    let mut text = Bytes::new(into.allocator());
    append_quoted(bytes, quote, &mut text)?;
    into.append(text.as_slice())?;
    Ok(())
}

/// Appends a resource type as a literal: its four bytes between apostrophes. Where memory is refused
/// `into` is unchanged.
#[tactic(auto, unfolding(crate::specs::Numbers::be))]
pub fn write_type(kind: OsType, into: &mut Bytes) -> Result<(), NoMemory>
    ensures ok { OnOk result (into.new ≡ into.old ++ literal_text kind.code) }
    ensures err { OnErr result (into.new ≡ into.old) }
{
    write_quoted(&kind.code.to_be_bytes(), b'\'', into)
}

fn append_quoted(bytes: &[u8], quote: u8, into: &mut Bytes) -> Result<(), NoMemory>
    ensures { OnOk result (into.new ≡ into.old ++ quoted quote bytes.now) }
{
    into.push(quote)?;
    for &byte in bytes {
        write_shown(byte, quote, into)?;
    }
    into.push(quote)?;
    Ok(())
}

/// Appends a byte as it is shown between such quote marks. Where memory is refused `into` is unchanged.
pub fn write_shown(byte: u8, quote: u8, into: &mut Bytes) -> Result<(), NoMemory>
    ensures ok { OnOk result (into.new ≡ into.old ++ shown_byte quote byte) }
    ensures err { OnErr result (into.new ≡ into.old) }
{
    if byte < 0x20 || byte > 0x7E {
        into.append(&[
            b'\\',
            b'0',
            b'x',
            hex_digit(byte / 16),
            hex_digit(byte % 16),
        ])
    } else if byte == quote || byte == b'\\' {
        into.append(&[b'\\', byte])
    } else {
        into.push(byte)
    }
}

/// Appends a byte as two upper-case hex digits. Where memory is refused `into` is unchanged.
pub fn write_hex(byte: u8, into: &mut Bytes) -> Result<(), NoMemory>
    ensures ok { OnOk result (into.new ≡ into.old ++ hex_byte byte) }
    ensures err { OnErr result (into.new ≡ into.old) }
{
    into.append(&[hex_digit(byte / 16), hex_digit(byte % 16)])
}

fn hex_digit(digit: u8) -> u8
    requires { digit < 16 }
    ensures { result ≡ hex_digit digit }
{
    if digit < 10 {
        b'0' + digit
    } else {
        b'A' + (digit - 10)
    }
}
