//! The classes of bytes in a line: blanks, digits, letters, quote marks. They are defined in `specs/Classes`.

ghost use Rattle.std.specs.Prelude.{◌≡◌};
ghost use Rattle.rz_lex.specs.Classes.{is_blank, is_digit, is_hex_digit, is_letter, is_quote, is_word_byte};

/// Whether a byte is a blank within a line: 20, 09, 0B or 0C. (MPW Rez.)
pub fn is_blank(byte: u8) -> bool
    ensures { result ≡ is_blank byte }
{
    byte == b' ' || byte == b'\t' || byte == 0x0B || byte == 0x0C
}

/// Whether a byte is a decimal digit.
pub fn is_digit(byte: u8) -> bool
    ensures { result ≡ is_digit byte }
{
    byte >= b'0' && byte <= b'9'
}

/// Whether a byte is a letter, in either case.
pub fn is_letter(byte: u8) -> bool
    ensures { result ≡ is_letter byte }
{
    (byte >= b'a' && byte <= b'z') || (byte >= b'A' && byte <= b'Z')
}

/// Whether a byte is a hex digit, in either case.
pub fn is_hex_digit(byte: u8) -> bool
    ensures { result ≡ is_hex_digit byte }
{
    is_digit(byte) || (byte >= b'a' && byte <= b'f') || (byte >= b'A' && byte <= b'F')
}

/// Whether a byte may stand in a word after its first: a letter, `_` or a digit.
pub fn is_word_byte(byte: u8) -> bool
    ensures { result ≡ is_word_byte byte }
{
    is_letter(byte) || byte == b'_' || is_digit(byte)
}

/// Whether a byte is a quote mark, of a text or of a literal.
pub fn is_quote(byte: u8) -> bool
    ensures { result ≡ is_quote byte }
{
    byte == b'"' || byte == b'\''
}
