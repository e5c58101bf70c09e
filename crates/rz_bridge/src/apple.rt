//! The two forms of a file that begin with entries; changed only with `specs/Apple`.

ghost use Rattle.std.specs.Prelude.{◌≡◌};
ghost use Rattle.rz_bridge.specs.Apple.{magic_of};

/// A form of a file that begins with entries. (RFC 1740.)
#[derive(Clone, Copy)]
pub enum AppleForm {
    /// AppleDouble: the data fork is a file of its own, beside the header file.
    Double,
    /// AppleSingle: the data fork is an entry like the others.
    Single,
}

/// The first number of a form.
pub fn magic_of(form: AppleForm) -> u32
    ensures { result ≡ magic_of form }
{
    match form {
        AppleForm::Double => 0x0005_1607,
        AppleForm::Single => 0x0005_1600,
    }
}
