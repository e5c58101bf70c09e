//! Whether bytes are the stored form of a text, and how long that is. The counts are in `specs/Texts`.

ghost use Rattle.std.specs.Prelude.{◌≡◌, ◌-◌, ◌%◌, ◌<◌, ◌^◌, length, map, replicate};
ghost use Rattle.rz_types_fields.specs.declared.field.TextForm.TheVariants.{Pascal, WordLong, Zero};
ghost use Rattle.rz_types_fields.specs.Stored.{before_zero, in_size, sized, stored_text, to_size};
ghost use Rattle.rz_unlay_texts.specs.Plain.{same_bytes};
ghost use Rattle.rz_unlay_texts.specs.Texts.{sized_count, stored_count};

use crate::plain::{behind, front};
use rz_types_fields::TextForm;

/// Whether the stored form of a text of these bytes is this.
pub fn is_stored_text(form: TextForm, size: Option<u32>, text: &[u8], raw: &[u8]) -> bool
    ensures { result ≡ same_bytes (stored_text form size text.now) raw.now }
{
    match form {
        TextForm::Open => is_to_size(size, text, raw),
        TextForm::Pascal => is_pascal(size, text, raw),
        TextForm::WordLong => is_word_long(size, text, raw),
        TextForm::Zero => is_zero_ended(size, text, raw),
    }
}

/// Whether the stored form of a fixed text of these bytes is this.
pub fn is_stored_fixed(form: TextForm, size: Option<u32>, text: &[u8], raw: &[u8]) -> bool
    ensures { result ≡ same_bytes (stored_text form size (map (λ byte. byte % 256) text.now)) raw.now }
{
    is_stored_text(form, size, text, raw)
}

/// How many bytes the stored form of a text has.
pub fn stored_length(form: TextForm, size: Option<u32>, text: &[u8]) -> u64
    ensures { result ≡ stored_count form size (length text.now) }
{
    match form {
        TextForm::Open => count_to_size(size, text) as u64,
        TextForm::Pascal => 1 + count_to_size(size, text) as u64,
        TextForm::WordLong => 2 + count_to_size(size, text) as u64,
        TextForm::Zero => count_to_size(before_zero(size), text) as u64 + 1,
    }
}

fn is_pascal(size: Option<u32>, text: &[u8], raw: &[u8]) -> bool
    ensures { result ≡ same_bytes (stored_text Pascal size text.now) raw.now }
{
    if raw.is_empty() {
        return false;
    }
    count_in_size(size, text) == usize::from(raw[0]) && is_to_size(size, text, behind(raw, 1))
}

fn is_word_long(size: Option<u32>, text: &[u8], raw: &[u8]) -> bool
    ensures { result ≡ same_bytes (stored_text WordLong size text.now) raw.now }
{
    if raw.len() < 2 {
        return false;
    }
    let count = count_in_size(size, text);
    count / 256 == usize::from(raw[0])
        && count % 256 == usize::from(raw[1])
        && is_to_size(size, text, behind(raw, 2))
}

fn is_zero_ended(size: Option<u32>, text: &[u8], raw: &[u8]) -> bool
    ensures { result ≡ same_bytes (stored_text Zero size text.now) raw.now }
{
    let size = before_zero(size);
    let count = count_to_size(size, text);
    is_to_size(size, text, front(raw, count)) && is_zeros(behind(raw, count), 1)
}

/// How many bytes a text has that is cut or filled to a size, where it has one.
fn count_to_size(size: Option<u32>, text: &[u8]) -> usize
    ensures count { result ≡ sized_count size (length text.now) }
    ensures small { result < 2 ^ 63 }
{
    match size {
        Some(size) => size as usize,
        None => text.len(),
    }
}

/// A size without the zero byte at the end.
fn before_zero(size: Option<u32>) -> Option<u32>
    ensures { result ≡ before_zero size }
{
    match size {
        Some(size) => Some(size.saturating_sub(1)),
        None => None,
    }
}

/// How many bytes a size leaves of a text.
fn count_in_size(size: Option<u32>, text: &[u8]) -> usize
    ensures { result ≡ length (in_size size text.now) }
{
    match size {
        Some(size) => front(text, size as usize).len(),
        None => text.len(),
    }
}

/// Whether the bytes of a text, cut or filled to a size where it has one, are these.
fn is_to_size(size: Option<u32>, text: &[u8], raw: &[u8]) -> bool
    ensures { result ≡ same_bytes (to_size size text.now) raw.now }
{
    match size {
        Some(size) => is_sized(size as usize, text, raw),
        None => is_same(text, raw),
    }
}

fn is_sized(size: usize, text: &[u8], raw: &[u8]) -> bool
    ensures { result ≡ same_bytes (sized size text.now) raw.now }
{
    let cut = front(text, size);
    is_same(cut, front(raw, cut.len()))
        && is_zeros(behind(raw, cut.len()), size.saturating_sub(text.len()))
}

fn is_same(one: &[u8], other: &[u8]) -> bool
    ensures { result ≡ same_bytes one.now other.now }
{
    one == other
}

/// Whether these are so many zero bytes.
fn is_zeros(bytes: &[u8], count: usize) -> bool
    ensures { result ≡ same_bytes (replicate count 0) bytes.now }
{
    if bytes.len() != count {
        return false;
    }
    for byte in bytes {
        if *byte != 0 {
            return false;
        }
    }
    true
}
