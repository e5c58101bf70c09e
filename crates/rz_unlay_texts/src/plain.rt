//! The bytes of a text, taken from its stored form. Which they are is in `specs/Plain`.

ghost use Rattle.std.specs.Prelude.{◌≡◌, ◌<◌, ◌≤◌, ◌^◌, length, take, drop};
ghost use Rattle.rz_unlay_texts.specs.Plain.{one_byte_size, or_none, plain_text, trimmed, two_byte_size, up_to_zero};

use rz_types_fields::TextForm;

/// The only bytes of a text that can be stored so plainly.
pub fn plain_text(form: TextForm, size: Option<u32>, raw: &[u8]) -> &[u8]
    ensures { result.now ≡ plain_text form size raw.now }
{
    match form {
        TextForm::Open => match size {
            Some(_) => trimmed(raw),
            None => raw,
        },
        TextForm::Pascal => front(behind(raw, 1), one_byte_size(raw)),
        TextForm::WordLong => front(behind(raw, 2), two_byte_size(raw)),
        TextForm::Zero => before_zero_byte(raw),
    }
}

/// The first bytes, so many, or all of them.
pub fn front(bytes: &[u8], count: usize) -> &[u8]
    ensures { result.now ≡ take count bytes.now }
{
    if count < bytes.len() {
        bytes.split_at(count).0
    } else {
        bytes
    }
}

/// The bytes after so many.
pub fn behind(bytes: &[u8], count: usize) -> &[u8]
    ensures { result.now ≡ drop count bytes.now }
{
    if count < bytes.len() {
        bytes.split_at(count).1
    } else {
        bytes.split_at(bytes.len()).1
    }
}

/// The length that stands in the first byte.
fn one_byte_size(bytes: &[u8]) -> usize
    ensures { result ≡ one_byte_size bytes.now }
{
    if bytes.is_empty() {
        return 0;
    }
    usize::from(bytes[0])
}

/// The length that stands in the first two bytes.
fn two_byte_size(bytes: &[u8]) -> usize
    ensures { result ≡ two_byte_size bytes.now }
{
    if bytes.len() < 2 {
        return 0;
    }
    usize::from(bytes[0]) * 256 + usize::from(bytes[1])
}

/// The bytes before the first zero byte; none where there is no such byte.
fn before_zero_byte(bytes: &[u8]) -> &[u8]
    ensures { result.now ≡ or_none (up_to_zero bytes.now) }
{
    for (count, byte) in bytes.iter().enumerate() {
        if *byte == 0 {
            return front(bytes, count);
        }
    }
    front(bytes, 0)
}

/// The bytes without the zero bytes at the end.
fn trimmed(bytes: &[u8]) -> &[u8]
    ensures { result.now ≡ trimmed bytes.now }
{
    front(bytes, trimmed_len(bytes))
}

fn trimmed_len(bytes: &[u8]) -> usize
    ensures { take result bytes.now ≡ trimmed bytes.now }
{
    let mut len = bytes.len();
    while len > 0 && bytes[len - 1] == 0 {
        len -= 1;
    }
    len
}
