//! The stored forms of texts, appended to the bits. How long they are is in `specs/Text`.

ghost use Rattle.std.specs.Prelude.{◌≡◌, ◌+◌, ◌*◌, ◌<◌, ◌^◌, ◌++◌, length, OnOk};
ghost use Rattle.rz_bits.specs.Bits.{bits_of};
ghost use Rattle.rz_layout.specs.Text.{sized_length, stored_length};
ghost use Rattle.rz_types.specs.Stored.{in_size, sized, stored_text, to_size};

use crate::text::before_zero;
use rz_bits::BitBuf;
use rz_core::NoMemory;
use rz_types::TextForm;

/// Appends the stored form of a text.
pub fn push_text(
    bits: &mut BitBuf,
    form: TextForm,
    size: Option<u32>,
    bytes: &[u8],
) -> Result<(), NoMemory>
    requires room { length bits.old + 8 * stored_length form size (length bytes.now) < 2 ^ 31 }
    ensures { OnOk result (bits.new ≡ bits.old ++ bits_of (stored_text form size bytes.now)) }
{
    match form {
        TextForm::Open => push_sized(bits, size, bytes),
        TextForm::Pascal => {
            bits.push(left_of(size, bytes), 8)?;
            push_sized(bits, size, bytes)
        }
        TextForm::WordLong => {
            let count = left_of(size, bytes);
            bits.push(count / 256, 8)?;
            bits.push(count % 256, 8)?;
            push_sized(bits, size, bytes)
        }
        TextForm::Zero => {
            push_sized(bits, before_zero(size), bytes)?;
            bits.push_bytes(&[0])
        }
    }
}

/// How many bytes a size leaves.
fn left_of(size: Option<u32>, bytes: &[u8]) -> u32
    requires { sized_length size (length bytes.now) < 2 ^ 32 }
    ensures { result ≡ length (in_size size bytes.now) }
{
    let count = bytes.len();
    match size {
        Some(size) => count.min(size as usize) as u32,
        None => count as u32,
    }
}

/// Appends bytes that are cut or filled to a size.
fn push_sized(bits: &mut BitBuf, size: Option<u32>, bytes: &[u8]) -> Result<(), NoMemory>
    requires room { length bits.old + 8 * sized_length size (length bytes.now) < 2 ^ 31 }
    ensures { OnOk result (bits.new ≡ bits.old ++ bits_of (to_size size bytes.now)) }
{
    match size {
        Some(size) => push_cut(bits, size as usize, bytes),
        None => bits.push_bytes(bytes),
    }
}

fn push_cut(bits: &mut BitBuf, size: usize, bytes: &[u8]) -> Result<(), NoMemory>
    requires room { length bits.old + 8 * size < 2 ^ 31 }
    ensures { OnOk result (bits.new ≡ bits.old ++ bits_of (sized size bytes.now)) }
{
    if size <= bytes.len() {
        return bits.push_bytes(bytes.split_at(size).0);
    }
    bits.push_bytes(bytes)?;
    bits.push_many(false, 8 * (size - bytes.len()) as u32)
}
