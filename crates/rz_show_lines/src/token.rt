//! The tokens of a line; changes with `specs/Written`.

ghost use Rattle.std.specs.Prelude.{◌≡◌, ◌<◌, ◌≤◌, ◌∷◌, ◌++◌, [], flat_map};
ghost use Rattle.rz_core.specs.Numbers.{be};
ghost use Rattle.rz_core.specs.Quoted.{hex_byte, hex_digit, quoted, shown_byte};
ghost use Rattle.rz_lex.specs.Spelled.{digits_of};
ghost use Rattle.rz_show_lines.specs.Cut.{cut};
ghost use Rattle.rz_show_lines.specs.Print.{piece_written, signed_written};
ghost use Rattle.rz_show_lines.specs.Written.{digit_count, group_gap, in_groups, line_text, octal_count, written_text};

use crate::line::Line;
use itoa::Buffer;

/// A digit of a base up to 16, in upper case.
fn digit(value: u32) -> u8
    requires { value < 16 }
    ensures { result ≡ hex_digit value }
{
    let value = value as u8;
    if value < 10 {
        b'0' + value
    } else {
        b'A' + (value - 10)
    }
}

/// How many octal digits a number has, where it has no more than so many; zero has none.
fn digit_count(most: u32, number: u32) -> u32
    ensures count { result ≡ digit_count most 8 number }
    ensures few { result ≤ most }
{
    if most == 0 || number == 0 {
        return 0;
    }
    1 + digit_count(most - 1, number / 8)
}

/// How many octal digits a number has; zero has none.
#[tactic(auto, unfolding(crate::specs::Written::octal_count))]
fn octal_count(number: u32) -> u32
    ensures { result ≡ octal_count number }
{
    digit_count(11, number)
}

#[tactic(auto, using(crate::proofs::Writes::writes))]
impl Line {
    /// Writes a number in decimal, with a minus sign where it is negative.
    #[tactic(auto, using(crate::proofs::Writes::signed_is))]
    pub fn decimal(&mut self, number: i64)
        ensures { self.new ≡ cut (self.old ++ line_text (signed_written number)) }
    {
        let mut buffer = Buffer::new();
        self.append(buffer.format(number).as_bytes());
    }

    /// Writes the lowest so many digits of a number in a base, the highest of them first.
    #[tactic(auto, using(crate::proofs::Writes::writes, crate::proofs::Writes::digits_more))]
    fn digits(&mut self, base: u32, count: u32, number: u32)
        requires base { (0 < base) × (base ≤ 16) }
        ensures { self.new ≡ cut (self.old ++ digits_of base count number) }
    {
        if count == 0 {
            self.append(b"");
            return;
        }
        self.digits(base, count - 1, number / base);
        self.push(digit(number % base));
    }

    /// Writes `0x` and the lowest so many hex digits of a number.
    pub fn hex(&mut self, digits: u32, number: u32)
        ensures { self.new ≡ cut (self.old ++ 48 ∷ 120 ∷ digits_of 16 digits number) }
    {
        self.append(b"0x");
        self.digits(16, digits, number);
    }

    /// Writes `0` and the octal digits of a number.
    pub fn octal(&mut self, number: u32)
        ensures { self.new ≡ cut (self.old ++ 48 ∷ digits_of 8 (octal_count number) number) }
    {
        self.push(b'0');
        self.digits(8, octal_count(number), number);
    }

    /// Writes `0B` and the lowest so many binary digits of a number.
    pub fn binary(&mut self, digits: u32, number: u32)
        ensures { self.new ≡ cut (self.old ++ 48 ∷ 66 ∷ digits_of 2 digits number) }
    {
        self.append(b"0B");
        self.digits(2, digits, number);
    }

    /// Writes a byte as two hex digits.
    pub fn hex_byte(&mut self, byte: u8)
        ensures { self.new ≡ cut (self.old ++ hex_byte byte) }
    {
        let byte = u32::from(byte);
        self.push(digit(byte / 16));
        self.push(digit(byte % 16));
    }

    /// Writes a literal of the lowest so many bytes of a number, the highest of them first.
    pub fn literal(&mut self, count: u32, number: u32)
        ensures { self.new ≡ cut (self.old ++ quoted 39 (be count number)) }
    {
        self.push(b'\'');
        self.literal_bytes(count, number);
        self.push(b'\'');
    }

    #[tactic(auto, using(crate::proofs::Writes::writes, crate::proofs::Writes::be_last, crate::proofs::Writes::be_none, std::proofs::lemmas::Grind::common_steps))]
    fn literal_bytes(&mut self, count: u32, number: u32)
        ensures { self.new ≡ cut (self.old ++ flat_map (shown_byte 39) (be count number)) }
    {
        if count == 0 {
            self.append(b"");
            return;
        }
        self.literal_bytes(count - 1, number / 256);
        self.shown((number % 256) as u8, b'\'');
    }

    /// Writes a byte as it is shown between such quote marks.
    pub fn shown(&mut self, byte: u8, quote: u8)
        ensures { self.new ≡ cut (self.old ++ shown_byte quote byte) }
    {
        if byte < 0x20 || byte > 0x7E {
            self.append(b"\\0x");
            self.hex_byte(byte);
        } else if byte == quote || byte == b'\\' {
            self.append(&[b'\\', byte]);
        } else {
            self.push(byte);
        }
    }

    /// Writes a text.
    pub fn text(&mut self, bytes: &[u8])
        ensures { self.new ≡ cut (self.old ++ quoted 34 bytes.now) }
    {
        self.push(b'"');
        for &byte in bytes {
            self.shown(byte, b'"');
        }
        self.push(b'"');
    }

    /// Writes a text in hexadecimal, in groups of two bytes.
    fn hex_text(&mut self, bytes: &[u8])
        ensures { self.new ≡ cut (self.old ++ 36 ∷ 34 ∷ (in_groups bytes.now ++ 34 ∷ [])) }
    {
        self.append(b"$\"");
        for k in 0..bytes.len() {
            self.gap(k);
            self.hex_byte(bytes[k]);
        }
        self.push(b'"');
    }

    /// Writes what stands before the byte at position `k`.
    fn gap(&mut self, k: usize)
        ensures { self.new ≡ cut (self.old ++ group_gap k) }
    {
        if k != 0 && k % 2 == 0 {
            self.push(b' ');
        } else {
            self.append(b"");
        }
    }

    /// Writes a piece of a text.
    pub fn piece(&mut self, bytes: &[u8], hex: bool)
        ensures { self.new ≡ cut (self.old ++ written_text (piece_written hex bytes.now)) }
    {
        if hex {
            self.hex_text(bytes);
        } else {
            self.text(bytes);
        }
    }
}
