//! What stands on one line; changes with `specs/Single` and `specs/Print`.

ghost use Rattle.std.specs.Prelude.{◌≡◌, ◌<◌, ◌≤◌, ◌++◌, map};
ghost use Rattle.rz_show_lines.specs.Cut.{cut};
ghost use Rattle.rz_show_lines.specs.Print.{group_rest, group_written, signed_number, single_written};
ghost use Rattle.rz_show_lines.specs.Single.{single_of};
ghost use Rattle.rz_show_lines.specs.Written.{line_text};

use crate::line::Line;

/// What stands on one line of a row.
#[derive(Drop)]
pub enum Single<'a> {
    /// A number in decimal.
    Decimal(i64),
    /// So many hex digits, and the number.
    Hex(u32, u32),
    /// A number in octal.
    Octal(u32),
    /// So many binary digits, and the number.
    Binary(u32, u32),
    /// A literal of so many bytes, and their number.
    Literal(u32, u32),
    /// A text of one byte.
    Text(u8),
    /// A word.
    Name(&'a [u8]),
    /// The numbers of a point or a rectangle, each of 16 bits in two's complement.
    Group(&'a [u16]),
}

/// The number that so many bits, 1 to 32, are in two's complement.
pub fn signed_number(width: u32, number: u32) -> i64
    requires { (0 < width) × (width ≤ 32) }
    ensures { result ≡ signed_number width number }
{
    let number = u64::from(number);
    if number < 2_u64.pow(width - 1) {
        return number as i64;
    }
    let below = 2_u64.pow(width).saturating_sub(number).saturating_sub(1);
    -1 - below as i64
}

#[tactic(auto, using(crate::proofs::Writes::writes))]
impl Line {
    /// Writes what stands on one line.
    pub fn single(&mut self, single: &Single<'_>)
        ensures { self.new ≡ cut (self.old ++ line_text (single_written (single_of single.now))) }
    {
        match single {
            Single::Decimal(number) => self.decimal(*number),
            Single::Hex(digits, number) => self.hex(*digits, *number),
            Single::Octal(number) => self.octal(*number),
            Single::Binary(digits, number) => self.binary(*digits, *number),
            Single::Literal(count, number) => self.literal(*count, *number),
            Single::Text(byte) => self.text(&[*byte]),
            Single::Name(name) => self.append(name),
            Single::Group(numbers) => self.group(numbers),
        }
    }

    /// Writes the numbers of a point or a rectangle, in braces.
    #[tactic(auto, using(crate::proofs::Writes::writes, std::proofs::lemmas::List::nil_from_length))]
    fn group(&mut self, numbers: &[u16])
        ensures { self.new ≡ cut (self.old ++ line_text (group_written (map (signed_number 16) numbers.now))) }
    {
        match numbers.split_first() {
            None => self.append(b"{}"),
            Some((first, others)) => {
                self.push(b'{');
                self.decimal(signed_number(16, u32::from(*first)));
                self.group_rest(others);
            }
        }
    }

    /// Writes the numbers after the first, each after a comma, and the brace.
    fn group_rest(&mut self, numbers: &[u16])
        ensures { self.new ≡ cut (self.old ++ line_text (group_rest (map (signed_number 16) numbers.now))) }
    {
        for number in numbers {
            self.append(b", ");
            self.decimal(signed_number(16, u32::from(*number)));
        }
        self.push(b'}');
    }
}
