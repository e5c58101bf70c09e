//! Laws of plain texts, of the number of arguments, and of digits. See `specs/Format`.

ghost use Rattle.std.specs.Prelude.{◌≡◌, ◌==◌, ◌^◌, ◌<◌, ℕ, [], false, List, Some, length, option_map, slice_index};
ghost use Rattle.std.specs.List.{list_any};
ghost use Rattle.std.specs.Fmt.{digits};
ghost use Rattle.std.specs.Str.Parse.{digits_value};
ghost use Rattle.rz_types_format.specs.Format.{conversions, formatted, pieces_of};
ghost use Rattle.rz_types_format.specs.declared.format.Argument.{Argument};

/// A law, with nothing to run: a text without a percent sign is given as it is, where there are no arguments.
pub fn plain_text_is_copied()
    ensures { (text : List ℕ) → list_any (λ byte. byte == 37) text ≡ false → formatted text [] ≡ Some text }
{}

/// A law, with nothing to run: a text that gives something has as many arguments as conversions; two percent signs are
/// none.
pub fn one_argument_a_conversion()
    ensures { (text bytes : List ℕ) (arguments : List Argument)
        → formatted text arguments ≡ Some bytes → option_map conversions (pieces_of text) ≡ Some (length arguments) }
{}

/// A law, with nothing to run: the digits of a number in hexadecimal and in octal have that number, and those of a
/// number above 0 begin with no zero.
pub fn digits_are_the_number()
    ensures hexadecimal { (number : ℕ) → number < 2 ^ 32 → digits_value 16 (digits 16 false number) ≡ number }
    ensures octal { (number : ℕ) → number < 2 ^ 32 → digits_value 8 (digits 8 false number) ≡ number }
    ensures hexadecimal_begins { (number : ℕ) → 0 < number → number < 2 ^ 32 → 48 < slice_index (digits 16 false number) 0 }
    ensures octal_begins { (number : ℕ) → 0 < number → number < 2 ^ 32 → 48 < slice_index (digits 8 false number) 0 }
{}
