//! The values of digits and of numbers in each base. What digits stand for is in `specs/Digits`.

ghost use Rattle.std.specs.Prelude.{◌≡◌, ◌<◌, ◌≤◌};
ghost use Rattle.rz_lex.specs.Digits.{digit_value, digits_value, number_value, value_behind_0};

/// What the 256 bytes stand for as digits; 36 where a byte is none.
#[rattlefmt::skip]
const DIGITS: [u8; 256] = [
    36, 36, 36, 36, 36, 36, 36, 36, 36, 36, 36, 36, 36, 36, 36, 36,
    36, 36, 36, 36, 36, 36, 36, 36, 36, 36, 36, 36, 36, 36, 36, 36,
    36, 36, 36, 36, 36, 36, 36, 36, 36, 36, 36, 36, 36, 36, 36, 36,
    0, 1, 2, 3, 4, 5, 6, 7, 8, 9, 36, 36, 36, 36, 36, 36,
    36, 10, 11, 12, 13, 14, 15, 36, 36, 36, 36, 36, 36, 36, 36, 36,
    36, 36, 36, 36, 36, 36, 36, 36, 36, 36, 36, 36, 36, 36, 36, 36,
    36, 10, 11, 12, 13, 14, 15, 36, 36, 36, 36, 36, 36, 36, 36, 36,
    36, 36, 36, 36, 36, 36, 36, 36, 36, 36, 36, 36, 36, 36, 36, 36,
    36, 36, 36, 36, 36, 36, 36, 36, 36, 36, 36, 36, 36, 36, 36, 36,
    36, 36, 36, 36, 36, 36, 36, 36, 36, 36, 36, 36, 36, 36, 36, 36,
    36, 36, 36, 36, 36, 36, 36, 36, 36, 36, 36, 36, 36, 36, 36, 36,
    36, 36, 36, 36, 36, 36, 36, 36, 36, 36, 36, 36, 36, 36, 36, 36,
    36, 36, 36, 36, 36, 36, 36, 36, 36, 36, 36, 36, 36, 36, 36, 36,
    36, 36, 36, 36, 36, 36, 36, 36, 36, 36, 36, 36, 36, 36, 36, 36,
    36, 36, 36, 36, 36, 36, 36, 36, 36, 36, 36, 36, 36, 36, 36, 36,
    36, 36, 36, 36, 36, 36, 36, 36, 36, 36, 36, 36, 36, 36, 36, 36,
];

/// What a digit stands for, a hex digit in either case; 36 where the byte is no digit.
pub fn digit_value(byte: u8) -> u8
    ensures { result ≡ digit_value byte }
{
    DIGITS[byte as usize]
}

/// The number that digits of a base from 2 to 16 spell. `None` comes exactly where there is none, another
/// byte stands among them, or the number is 2^32 or more.
pub fn digits_value(base: u8, digits: &[u8]) -> Option<u32>
    requires { (1 < base) × (base ≤ 16) }
    ensures { result ≡ digits_value base digits.now }
{
    if digits.is_empty() {
        return None;
    }
    let mut value: u32 = 0;
    let mut rest = digits;
    while let [byte, after @ ..] = rest {
        let digit = digit_value(*byte);
        if digit >= base {
            return None;
        }
        let next = base as u64 * value as u64 + digit as u64;
        if next > 0xFFFF_FFFF {
            return None;
        }
        value = next as u32;
        rest = after;
    }
    Some(value)
}

/// The value of a number whose first 0 is passed.
fn value_behind_0(bytes: &[u8]) -> Option<u32>
    ensures { result ≡ value_behind_0 bytes.now }
{
    match bytes {
        [] => Some(0),
        [b'x' | b'X', digits @ ..] => digits_value(16, digits),
        [b'b' | b'B', digits @ ..] => digits_value(2, digits),
        _ => digits_value(8, bytes),
    }
}

/// The value of a number: decimal without a leading zero, `0`, `0` and octal digits, `0x` and hex
/// digits, `0b` and binary digits, or `$` and hex digits, the letters in either case. `None` comes exactly
/// where it has another form or a value of 2^32 or more. (MPW Rez.)
pub fn number_value(bytes: &[u8]) -> Option<u32>
    ensures { result ≡ number_value bytes.now }
{
    match bytes {
        [] => None,
        [b'$', digits @ ..] => digits_value(16, digits),
        [b'0', after @ ..] => value_behind_0(after),
        _ => digits_value(10, bytes),
    }
}
