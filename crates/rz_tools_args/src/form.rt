//! The names of the forms of files.

ghost use Rattle.std.specs.Prelude.{◌≡◌};
ghost use Rattle.rz_tools_args.specs.Command.{form_named};

use rz_bridge_files::Form;

/// The form that a word names.
pub fn form_named(word: &str) -> Option<Form>
    ensures { result ≡ form_named word.now }
{
    if word == "raw" {
        Some(Form::Raw)
    } else if word == "double" {
        Some(Form::AppleDouble)
    } else if word == "single" {
        Some(Form::AppleSingle)
    } else if word == "macbin" {
        Some(Form::MacBinary)
    } else if word == "hqx" {
        Some(Form::BinHex)
    } else {
        None
    }
}
