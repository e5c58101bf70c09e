//! What a conversion of a format makes of its argument; changed only with `specs/Format`.

ghost use Rattle.std.specs.Prelude.{◌≡◌, ◌++◌, false, IfOk, OnOk};
ghost use Rattle.std.specs.Fmt.{digits};
ghost use Rattle.rz_types_format.specs.Format.{converted, number_converted};

use crate::format::Argument;
use rz_core::{Bytes, NoMemory, write_decimal, write_signed};
use std::alloc::Global;

/// What a conversion makes of an argument, by its letter: none where the letter is none of a conversion, or takes
/// another kind of argument.
pub fn converted(alloc: Global, letter: u8, argument: &Argument) -> Result<Option<Bytes>, NoMemory>
    ensures { IfOk result (λ bytes. bytes ≡ converted letter argument.now) }
{
    match argument {
        Argument::Number(number) => converted_number(alloc, letter, *number),
        Argument::Text(bytes) if letter == b's' => Ok(Some(Bytes::of(alloc, bytes.as_slice())?)),
        Argument::Text(_) => Ok(None),
    }
}

/// What a conversion makes of a number.
fn converted_number(alloc: Global, letter: u8, number: i32) -> Result<Option<Bytes>, NoMemory>
    ensures { IfOk result (λ bytes. bytes ≡ number_converted letter number) }
{
    let mut bytes = Bytes::new(alloc);
    match letter {
        b'd' => write_signed(i64::from(number), &mut bytes)?,
        b'u' => write_decimal(u64::from(number.cast_unsigned()), &mut bytes)?,
        b'x' => write_hexadecimal(number.cast_unsigned(), &mut bytes)?,
        b'o' => write_octal(number.cast_unsigned(), &mut bytes)?,
        b'c' => match u8::try_from(number) {
            Ok(byte) => bytes.push(byte)?,
            Err(_) => return Ok(None),
        },
        _ => return Ok(None),
    }
    Ok(Some(bytes))
}

/// Appends a number in lower-case hexadecimal.
fn write_hexadecimal(number: u32, into: &mut Bytes) -> Result<(), NoMemory>
    ensures { OnOk result (into.new ≡ into.old ++ digits 16 false number) }
{
    let text = format!(in into.allocator(); "{number:x}")?;
    into.append(text.as_bytes())
}

/// Appends a number in octal.
fn write_octal(number: u32, into: &mut Bytes) -> Result<(), NoMemory>
    ensures { OnOk result (into.new ≡ into.old ++ digits 8 false number) }
{
    let text = format!(in into.allocator(); "{number:o}")?;
    into.append(text.as_bytes())
}
