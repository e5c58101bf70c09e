//! What `$$Format` gives, byte by byte of its text. See `specs/Format` and `specs/Filling`.

ghost use Rattle.std.specs.Prelude.{◌≡◌, [], ◌∷◌, ℕ, IfOk, List, None, if◌then◌else◌, map};
ghost use Rattle.rz_types_format.specs.Format.{formatted};
ghost use Rattle.rz_types_format.specs.Filling.{given, given_behind};

use crate::convert::converted;
use rz_core::{Bytes, Listing, NoMemory};
use std::alloc::Global;

/// An argument of `$$Format`. (MPW Rez.)
#[derive(Debug, Drop)]
pub enum Argument {
    /// A number.
    Number(i32),
    /// A text.
    Text(Bytes),
}

/// The arguments of `$$Format`, in order.
pub type Arguments = Listing<Argument>;

/// What `$$Format` gives of this text and these arguments: the text, in which each conversion stands for the next
/// argument. `%d` is a number in decimal, with a minus sign where it is negative; `%u`, `%x` and `%o` are the number
/// modulo 2^32 in decimal, in lower-case hexadecimal and in octal, without leading zeros; `%c` is the byte of a number
/// from 0 to 255; `%s` is a text; `%%` is a percent sign, and takes no argument. `None` where an argument is missing,
/// is left over, or is of another kind than its conversion takes, where another byte stands after a percent sign, or
/// none. (MPW Rez.)
pub fn formatted(
    alloc: Global,
    text: &[u8],
    arguments: &[Argument],
) -> Result<Option<Bytes>, NoMemory>
    ensures { IfOk result (λ bytes. bytes ≡ formatted text.now arguments.now) }
{
    let mut filling = Filling {
        bytes: Bytes::new(alloc),
        percent: false,
        arguments,
    };
    for &byte in text {
        if !filling.step(alloc, byte)? {
            return Ok(None);
        }
    }
    Ok(filling.finish())
}

/// A format's text as far as it is filled.
#[derive(Drop)]
struct Filling<'a> {
    /// The bytes so far.
    bytes: Bytes,
    /// Whether a percent sign stands before the next byte, and begins a conversion.
    percent: bool,
    /// The arguments that are left.
    arguments: &'a [Argument],
}

impl<'a> Filling<'a> {
    /// Goes on by one byte of the text. `false` where the text gives nothing, whatever stands after the byte.
    fn step(&mut self, alloc: Global, byte: u8) -> Result<bool, NoMemory>
        ensures { IfOk result (λ goes_on. (rest : List ℕ) → given self.old (byte ∷ rest) ≡ (if goes_on then given self.new rest else None)) }
    {
        if self.percent {
            return self.convert(alloc, byte);
        }
        if byte == b'%' {
            self.percent = true;
        } else {
            self.bytes.push(byte)?;
        }
        Ok(true)
    }

    /// Goes on by the letter of a conversion. `false` where the text gives nothing.
    fn convert(&mut self, alloc: Global, letter: u8) -> Result<bool, NoMemory>
        ensures { IfOk result (λ goes_on. (rest : List ℕ) → given_behind self.old (37 ∷ letter ∷ rest) ≡ (if goes_on then given self.new rest else None)) }
    {
        self.percent = false;
        if letter == b'%' {
            self.bytes.push(letter)?;
            return Ok(true);
        }
        let Some((argument, others)) = self.arguments.split_first() else {
            return Ok(false);
        };
        let Some(bytes) = converted(alloc, letter, argument)? else {
            return Ok(false);
        };
        self.bytes.append(bytes.as_slice())?;
        self.arguments = others;
        Ok(true)
    }

    /// What the text gives, where this was its last byte.
    fn finish(self) -> Option<Bytes>
        ensures { result ≡ given self.entry [] }
    {
        let Filling {
            bytes,
            percent,
            arguments,
        } = self;
        if percent || !arguments.is_empty() {
            return None;
        }
        Some(bytes)
    }
}
