//! Texts at a place, with their sizes and fixed parts. They are defined in `specs/Texts`.

ghost use Rattle.std.specs.Prelude.{◌≡◌, ◌+◌, ◌-◌, ◌*◌, ◌/◌, ◌≤◌, length, IfOk, IfSome, option_and_then, option_map};
ghost use Rattle.std.specs.Result.{result_ok};
ghost use Rattle.rz_bits.specs.View.{bytes_at, seen};
ghost use Rattle.rz_expr.specs.Term.{term_of};
ghost use Rattle.rz_types_fields.specs.Field.{plain_text as plain_field_text};
ghost use Rattle.rz_types_fields.specs.Spells.{nowhere};
ghost use Rattle.rz_types_fields.specs.Stored.{stored_text};
ghost use Rattle.rz_types_fields.specs.Text.{bytes_seen, plain_parts};
ghost use Rattle.rz_unlay_texts.specs.Plain.{up_to_zero};
ghost use Rattle.rz_unlay_texts.specs.Texts.{came_value, size_read, stored_size, stored_value, text_size, text_value};

use crate::plain::plain_text;
use crate::stored::{is_stored_fixed, is_stored_text, stored_length};
use rz_bits::BitView;
use rz_core::{Bytes, Facts, Mark, NoMemory, Stop};
use rz_expr::{Env, Expr, value_in};
use rz_types_fields::{TextField, TextForm, Texts, may_be_size, sized_bytes, text_seen};
use std::alloc::Global;

/// What stands at a place as a text.
#[derive(Drop)]
pub enum TextCame {
    /// Its fixed parts.
    Fixed,
    /// A value of the row: its bytes.
    Value(Bytes),
}

/// The size of a text, where it has one. `None` where the text may not have it.
pub fn size_in<E: Env>(size: &Option<Expr>, form: TextForm, env: &E) -> Option<Option<u32>>
    ensures { result ≡ size_read form (option_map term_of size.now) (E.view env.now) }
{
    match size {
        Some(expr) => match value_in(expr, env) {
            Ok(size) => {
                if may_be_size(form, size) {
                    Some(Some(size.unsigned_abs()))
                } else {
                    None
                }
            }
            Err(_) => None,
        },
        None => Some(None),
    }
}

/// How many bytes the stored form of a text of this size has: that of its fixed parts, or what stands at a place, where an
/// open text without a size has this room.
pub fn text_size<E: Env>(
    alloc: Global,
    view: &BitView<'_>,
    facts: &Facts,
    env: &E,
    field: &TextField,
    size: Option<u32>,
    room: Option<u64>,
    at: u32,
) -> Result<Option<u64>, NoMemory>
    requires { at ≤ length (seen view.now) }
    ensures { IfOk result (λ count. count
        ≡ text_size facts.now (E.view env.now) (seen view.now) room field.now.form size (plain_field_text field.now).fixed at) }
{
    match &field.fixed {
        Some(parts) => fixed_size(alloc, field.form, size, parts, facts, env),
        None => Ok(stored_size(view, field.form, size, room, at)),
    }
}

/// How many bytes the stored form of fixed parts has.
fn fixed_size<E: Env>(
    alloc: Global,
    form: TextForm,
    size: Option<u32>,
    parts: &Texts,
    facts: &Facts,
    env: &E,
) -> Result<Option<u64>, NoMemory>
    ensures { IfOk result (λ count. count
        ≡ option_map (λ bytes. length (stored_text form size bytes)) (result_ok (bytes_seen nowhere facts.now (E.view env.now) (plain_parts parts.now)))) }
{
    match fixed_bytes(alloc, parts, facts, env)? {
        Some(bytes) => Ok(Some(stored_length(form, size, bytes.as_slice()))),
        None => Ok(None),
    }
}

/// How many bytes stand at a place as a text.
fn stored_size(
    view: &BitView<'_>,
    form: TextForm,
    size: Option<u32>,
    room: Option<u64>,
    at: u32,
) -> Option<u64>
    requires { at ≤ length (seen view.now) }
    ensures { result ≡ stored_size (seen view.now) room form size at }
{
    match size {
        Some(size) => Some(sized_bytes(form, size)),
        None => match form {
            TextForm::Open => room,
            TextForm::Pascal => match view.at(at, 8) {
                Some(count) => Some(1 + u64::from(count)),
                None => None,
            },
            TextForm::WordLong => match view.at(at, 16) {
                Some(count) => Some(2 + u64::from(count)),
                None => None,
            },
            TextForm::Zero => bytes_to_zero(view, at),
        },
    }
}

/// How many bytes stand from a place up to the first zero byte, with it.
fn bytes_to_zero(view: &BitView<'_>, at: u32) -> Option<u64>
    requires { at ≤ length (seen view.now) }
    ensures { result ≡ option_and_then (λ bytes. option_map (λ front. length front + 1) (up_to_zero bytes)) (bytes_at (seen view.now) at ((length (seen view.now) - at) / 8)) }
{
    let most = (view.len() - at) / 8;
    for count in 0..most {
        match view.at(at + 8 * count, 8) {
            Some(byte) => {
                if byte == 0 {
                    return Some(u64::from(count) + 1);
                }
            }
            None => return None,
        }
    }
    None
}

/// Reads a text whose stored form has so many bytes: those that stand at a place. `Ok(None)` where they aren't there or
/// aren't stored so.
pub fn read_bytes<E: Env>(
    alloc: Global,
    view: &BitView<'_>,
    facts: &Facts,
    env: &E,
    field: &TextField,
    size: Option<u32>,
    count: u64,
    at: u32,
) -> Result<Option<TextCame>, NoMemory>
    requires { at ≤ length (seen view.now) }
    ensures value { IfOk result (λ came. option_map came_value came
        ≡ text_value facts.now (E.view env.now) (seen view.now) (plain_field_text field.now) size count at) }
    ensures within { IfOk result (λ came. IfSome came (λ c. at + 8 * count ≤ length (seen view.now))) }
{
    if count > u64::from(view.len()) {
        return Ok(None);
    }
    if let Some(raw) = view.lent(at, count as u32) {
        return read_stored(alloc, facts, env, field, size, raw);
    }
    match view.bytes(alloc, at, count as u32)? {
        Some(raw) => read_stored(alloc, facts, env, field, size, raw.as_slice()),
        None => Ok(None),
    }
}

/// Reads a text that is stored as these bytes.
fn read_stored<E: Env>(
    alloc: Global,
    facts: &Facts,
    env: &E,
    field: &TextField,
    size: Option<u32>,
    raw: &[u8],
) -> Result<Option<TextCame>, NoMemory>
    ensures { IfOk result (λ came. option_map came_value came
        ≡ stored_value facts.now (E.view env.now) (plain_field_text field.now) size raw.now) }
{
    match &field.fixed {
        Some(parts) => match fixed_bytes(alloc, parts, facts, env)? {
            Some(bytes) => {
                if is_stored_fixed(field.form, size, bytes.as_slice(), raw) {
                    Ok(Some(TextCame::Fixed))
                } else {
                    Ok(None)
                }
            }
            None => Ok(None),
        },
        None => {
            let bytes = plain_text(field.form, size, raw);
            if is_stored_text(field.form, size, bytes, raw) {
                Ok(Some(TextCame::Value(Bytes::of(alloc, bytes)?)))
            } else {
                Ok(None)
            }
        }
    }
}

/// The bytes of the fixed parts of a text. `Ok(None)` where they have a fault.
fn fixed_bytes<E: Env>(
    alloc: Global,
    parts: &Texts,
    facts: &Facts,
    env: &E,
) -> Result<Option<Bytes>, NoMemory>
    ensures { IfOk result (λ bytes. bytes ≡ result_ok (bytes_seen nowhere facts.now (E.view env.now) (plain_parts parts.now))) }
{
    match text_seen(alloc, parts, Mark { file: 0, line: 0 }, facts, env) {
        Ok(bytes) => Ok(Some(bytes)),
        Err(Stop::Refused(_)) => Ok(None),
        Err(Stop::NoMemory) => Err(NoMemory),
    }
}
