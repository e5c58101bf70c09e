//! Number fields as they are shown, by symbol or by value; changes with `specs/Number`.

ghost use Rattle.std.specs.Prelude.{◌≡◌, ◌<◌, ◌≤◌, ◌/◌, length, option_map};
ghost use Rattle.std.specs.List.{AllByRecursion};
ghost use Rattle.rz_show.specs.Number.{by_decimal, by_literal, by_radix, by_truth, by_value, is_literal_width, number_shown};
ghost use Rattle.rz_show_lines.specs.Print.{signed_number};
ghost use Rattle.rz_show_lines.specs.Written.{IsName};
ghost use Rattle.rz_show.specs.Printable.{IsWidth};
ghost use Rattle.rz_show.specs.Hidden.{hides_in};
ghost use Rattle.rz_show_lines.specs.Single.{single_of};
ghost use Rattle.rz_types.specs.Field.{plain_number};

use crate::Hidden;
use rz_show_lines::{Single, signed_number};
use rz_types::{NumField, NumForm, Radix, Symbol};

/// How a number of a field is shown: by the first of its symbols that gives it, unless that is a live macro, and else by
/// its value. No macro hides a symbol where none are given.
pub fn number_shown<'a>(field: &'a NumField, number: u32, hidden: Option<&Hidden>) -> Single<'a>
    requires width { IsWidth field.now.width }
    requires names { AllByRecursion (λ symbol. IsName symbol.name.bytes) field.now.symbols }
    ensures { single_of result ≡ number_shown (hides_in (option_map (λ h. h.now) hidden.entry)) (plain_number field.now) number }
{
    if let Some(name) = field.symbols.name_for(field.width, number) {
        let name = name.bytes.as_slice();
        if !is_hidden(hidden, name) {
            return Single::Name(name);
        }
    }
    by_value(field, number)
}

/// Whether a name is that of a macro, where macros are given.
fn is_hidden(hidden: Option<&Hidden>, name: &[u8]) -> bool
    requires { length name.now ≤ 255 }
    ensures { result ≡ hides_in (option_map (λ h. h.now) hidden.entry) name.now }
{
    match hidden {
        Some(hidden) => hidden.has_short(name),
        None => false,
    }
}

/// A number by its value: a `char` as a text, a `boolean` as a word, and every other in its radix.
fn by_value(field: &NumField, number: u32) -> Single<'static>
    requires { IsWidth field.now.width }
    ensures { single_of result ≡ by_value (plain_number field.now) number }
{
    match field.form {
        NumForm::Char => Single::Text((number % 256) as u8),
        NumForm::Boolean => by_truth(field.symbols.as_slice(), number),
        _ => by_radix(field.radix, field.unsigned, field.width as u32, number),
    }
}

/// A `boolean`: `false` or `true`, or 0 or 1 where it has symbols.
fn by_truth(symbols: &[Symbol], number: u32) -> Single<'static>
    ensures { single_of result ≡ by_truth symbols.now number }
{
    if !symbols.is_empty() {
        Single::Decimal(i64::from(number))
    } else if number == 0 {
        Single::Name(b"false")
    } else {
        Single::Name(b"true")
    }
}

/// A number in its radix.
fn by_radix(radix: Radix, unsigned: bool, width: u32, number: u32) -> Single<'static>
    requires { (0 < width) × (width ≤ 32) }
    ensures { single_of result ≡ by_radix radix unsigned width number }
{
    match radix {
        Radix::Plain | Radix::Decimal => by_decimal(unsigned, width, number),
        Radix::Hex => Single::Hex((width + 3) / 4, number),
        Radix::Octal => Single::Octal(number),
        Radix::Binary => Single::Binary(width, number),
        Radix::Literal => by_literal(width, number),
    }
}

/// A number in decimal, with or without a sign.
fn by_decimal(unsigned: bool, width: u32, number: u32) -> Single<'static>
    requires { (0 < width) × (width ≤ 32) }
    ensures { single_of result ≡ by_decimal unsigned width number }
{
    if unsigned {
        Single::Decimal(i64::from(number))
    } else {
        Single::Decimal(signed_number(width, number))
    }
}

/// A literal of all bytes of a number of 8, 16 or 32 bits, and any other number in hexadecimal.
fn by_literal(width: u32, number: u32) -> Single<'static>
    requires { width ≤ 32 }
    ensures { single_of result ≡ by_literal width number }
{
    if is_literal_width(width) {
        Single::Literal(width / 8, number)
    } else {
        Single::Hex((width + 3) / 4, number)
    }
}

/// Whether it is the width of a literal: one, two or four bytes.
fn is_literal_width(width: u32) -> bool
    ensures { result ≡ is_literal_width width }
{
    width == 8 || width == 16 || width == 32
}
