//! The five forms, and which of them bytes have; changed only with `specs/Forms`.

ghost use Rattle.std.specs.Prelude.{◌≡◌, ◌≤◌, length};
ghost use Rattle.rz_bridge_files.specs.Forms.{is_header, form_of};

use rz_core::u8_at;

/// How a file of the Macintosh is kept in the bytes of a file.
#[derive(Debug, Clone, Copy, PartialEq, Eq)]
pub enum Form {
    /// The resource fork alone.
    Raw,
    /// The header file of AppleDouble, beside which the data fork is a file of its own.
    AppleDouble,
    /// AppleSingle.
    AppleSingle,
    /// MacBinary III, which is written, and MacBinary II, which is read too.
    MacBinary,
    /// BinHex 4.0.
    BinHex,
}

/// The first bytes of AppleDouble.
const DOUBLE_MAGIC: &[u8] = &[0x00, 0x05, 0x16, 0x07];

/// The first bytes of AppleSingle.
const SINGLE_MAGIC: &[u8] = &[0x00, 0x05, 0x16, 0x00];

/// The length of a header of MacBinary.
const HEADER_LENGTH: usize = 128;

/// The form of a file's bytes. No bytes are raw; the first four bytes 00051607 are AppleDouble, and 00051600 are
/// AppleSingle; another first byte than 00 is BinHex; at least 128 bytes with byte 1 from 1 to 63, bytes 74 and 82
/// zero, and bytes 122 and 123 at least 129 are MacBinary; all else is raw. It takes no memory.
pub fn form_of(bytes: &[u8]) -> Form
    ensures { result ≡ form_of bytes.now }
{
    if bytes.is_empty() {
        return Form::Raw;
    }
    if bytes.starts_with(DOUBLE_MAGIC) {
        return Form::AppleDouble;
    }
    if bytes.starts_with(SINGLE_MAGIC) {
        return Form::AppleSingle;
    }
    if u8_at(bytes, 0) != 0 {
        return Form::BinHex;
    }
    if HEADER_LENGTH <= bytes.len() && is_header(bytes) {
        return Form::MacBinary;
    }
    Form::Raw
}

/// Whether the first 128 bytes are a header of MacBinary.
fn is_header(bytes: &[u8]) -> bool
    requires { 128 ≤ length bytes.now }
    ensures { result ≡ is_header bytes.now }
{
    let name_length = u8_at(bytes, 1);
    1 <= name_length
        && name_length <= 63
        && u8_at(bytes, 74) == 0
        && u8_at(bytes, 82) == 0
        && 129 <= u8_at(bytes, 122)
        && 129 <= u8_at(bytes, 123)
}
