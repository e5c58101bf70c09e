//! Which strings name a file. A new part that reads one is a case here and in `specs/Named`.

ghost use Rattle.std.specs.Prelude.{◌≡◌};
ghost use Rattle.rz_tools_values.specs.Named.{argument_names, arguments_name, part_names, texts_name};
ghost use Rattle.rz_types_fields.specs.Text.{arguments_of, plain_argument, plain_arguments, plain_part, plain_parts};

use rz_types_fields::{FormatArg, FormatArgs, TextPart, Texts};

/// Whether a text names a file, itself or in the arguments of its formats: then a part is a `$$Read` or a `$$Resource`.
/// (MPW Rez.)
#[cycle(named)]
pub fn names_file(texts: &Texts) -> bool
    ensures { result ≡ texts_name (plain_parts texts.now) }
{
    for part in texts.as_slice() {
        if part_names(part) {
            return true;
        }
    }
    false
}

/// Whether a part names a file.
#[cycle(named)]
fn part_names(part: &TextPart) -> bool
    ensures { result ≡ part_names (plain_part part.now) }
{
    match part {
        TextPart::FileBytes(_) | TextPart::FileResource(_) => true,
        TextPart::Format(format) => arguments_name(&format.arguments),
        TextPart::Plain(_)
        | TextPart::NameFact
        | TextPart::DateFact
        | TextPart::TimeFact
        | TextPart::VersionFact => false,
    }
}

/// Whether an argument of a format names a file.
#[cycle(named)]
fn arguments_name(arguments: &FormatArgs) -> bool
    ensures { result ≡ arguments_name (arguments_of (plain_arguments arguments.now)) }
{
    for argument in arguments.as_slice() {
        if argument_names(argument) {
            return true;
        }
    }
    false
}

/// Whether this argument does.
#[cycle(named)]
fn argument_names(argument: &FormatArg) -> bool
    ensures { result ≡ argument_names (plain_argument argument.now) }
{
    match argument {
        FormatArg::Number(_) => false,
        FormatArg::Text(texts) => names_file(texts),
    }
}
