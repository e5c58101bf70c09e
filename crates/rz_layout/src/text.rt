//! Texts laid as pieces, with their sizes and formats. How long they are is in `specs/Text`.

ghost use Rattle.std.specs.Prelude.{IfOk, ◌≡◌, ◌<◌, ◌^◌, length, nat_abs, option_map, None};
ghost use Rattle.rz_core.specs.Stop.{Gives, fault_seen, left};
ghost use Rattle.rz_expr.specs.Term.{term_of};
ghost use Rattle.rz_layout.specs.Laid.{draft_of, placed_put, sized_put, text_put, IsShort};
ghost use Rattle.rz_layout.specs.Fault.{refusal_of};
ghost use Rattle.rz_layout.specs.Text.{sized_length, stored_length};
ghost use Rattle.rz_types_fields.specs.Laid.{draft_sight, fixed_bytes, joined, lay, refusal, size_in, text_refusal};
ghost use Rattle.rz_types_fields.specs.Spells.{nowhere};
ghost use Rattle.rz_types_fields.specs.Field.{plain_text};
ghost use Rattle.rz_types_fields.specs.Piece.{OneText};
ghost use Rattle.rz_types_fields.specs.Stored.{before_zero};
ghost use Rattle.rz_types_fields.specs.Text.{bytes_seen, plain_parts};

use crate::LayFault;
use crate::laid::{Laid, one_more};
use crate::number::early_value;
use crate::push::push_text;
use crate::seen::bytes_behind;
use crate::valued::{later_in, unvalued_in};
use rz_core::{Bytes, Facts, Kept, Stop};
use rz_expr::Expr;
use rz_types::values::text_in;
use rz_types::{TextField, TextForm, Texts, is_too_long, may_be_size};
use rz_types_fields::Tree;
use std::alloc::Global;

/// Lays a text: the bytes of the row, or those of its fixed parts, in its stored form.
pub fn lay_text(
    alloc: Global,
    field: &TextField,
    value: Option<&Tree>,
    facts: &Facts,
    laid: &mut Laid<'_>,
) -> Result<(), Stop<LayFault>>
    requires short { IsShort laid.old }
    ensures laid { Gives (lay facts.now (draft_of laid.old) (OneText (plain_text field.now)) (option_map (λ v. v.now) value.entry)) (fault_seen refusal_of (left (draft_of laid.new) result)) }
    ensures short { IfOk result (λ _. IsShort laid.new) }
    ensures notes { IfOk result (λ _. laid.new.notes.items ≡ laid.old.notes.items) }
{
    let later = later_in(alloc, field, laid)?;
    match later {
        Some(fault) => Err(Stop::Refused(fault)),
        None => lay_placed(alloc, field, value, facts, laid),
    }
}

/// Lays a text whose expressions name no label that has no place yet.
fn lay_placed(
    alloc: Global,
    field: &TextField,
    value: Option<&Tree>,
    facts: &Facts,
    laid: &mut Laid<'_>,
) -> Result<(), Stop<LayFault>>
    requires short { IsShort laid.old }
    ensures laid { Gives (placed_put facts.now (draft_of laid.old) (plain_text field.now) (option_map (λ v. v.now) value.entry)) (fault_seen refusal_of (left (draft_of laid.new) result)) }
    ensures short { IfOk result (λ _. IsShort laid.new) }
    ensures notes { IfOk result (λ _. laid.new.notes.items ≡ laid.old.notes.items) }
{
    match size_in(&field.size, facts, laid) {
        Ok(size) => lay_sized(alloc, field, size, value, facts, laid),
        Err(stop) => Err(stop),
    }
}

/// Lays a text whose size is known.
fn lay_sized(
    alloc: Global,
    field: &TextField,
    size: Option<i32>,
    value: Option<&Tree>,
    facts: &Facts,
    laid: &mut Laid<'_>,
) -> Result<(), Stop<LayFault>>
    requires short { IsShort laid.old }
    ensures laid { Gives (sized_put facts.now (draft_of laid.old) (plain_text field.now) size (option_map (λ v. v.now) value.entry)) (fault_seen refusal_of (left (draft_of laid.new) result)) }
    ensures short { IfOk result (λ _. IsShort laid.new) }
    ensures notes { IfOk result (λ _. laid.new.notes.items ≡ laid.old.notes.items) }
{
    match &field.fixed {
        Some(parts) => match fixed_bytes(alloc, parts, facts, laid) {
            Ok(bytes) => put_text(field.form, size, bytes.as_slice(), laid),
            Err(stop) => Err(stop),
        },
        None => put_text(field.form, size, text_in(value), laid),
    }
}

/// The size of a text, where it has one.
fn size_in(
    size: &Option<Expr>,
    facts: &Facts,
    laid: &Laid<'_>,
) -> Result<Option<i32>, Stop<LayFault>>
    requires { IsShort laid.now }
    ensures { Gives (size_in facts.now (draft_of laid.now) (option_map term_of size.now)) (fault_seen refusal_of result) }
{
    match size {
        Some(expr) => match early_value(expr, facts, laid) {
            Ok(size) => Ok(Some(size)),
            Err(stop) => Err(stop),
        },
        None => Ok(None),
    }
}

/// The bytes of the fixed parts of a text, with the numbers in their formats. The numbers of all formats are
/// computed before a format is filled.
fn fixed_bytes(
    alloc: Global,
    parts: &Texts,
    facts: &Facts,
    laid: &Laid<'_>,
) -> Result<Bytes, Stop<LayFault>>
    requires { IsShort laid.now }
    ensures { Gives (fixed_bytes facts.now (draft_of laid.now) (plain_parts parts.now)) (fault_seen refusal_of result) }
{
    let unvalued = unvalued_in(alloc, parts, facts, laid)?;
    match unvalued {
        Some(fault) => Err(Stop::Refused(fault)),
        None => joined_bytes(alloc, parts, facts, laid),
    }
}

/// The bytes of parts, or their first fault.
fn joined_bytes(
    alloc: Global,
    parts: &Texts,
    facts: &Facts,
    laid: &Laid<'_>,
) -> Result<Bytes, Stop<LayFault>>
    ensures { Gives (joined laid.now.piece (bytes_seen nowhere facts.now (draft_sight facts.now (draft_of laid.now)) (plain_parts parts.now))) (fault_seen refusal_of result) }
{
    match bytes_behind(alloc, parts, facts, laid) {
        Ok(bytes) => Ok(bytes),
        Err(Stop::Refused(fault)) => {
            let value = match fault.kept {
                Kept::Number(number) => number,
                _ => 0,
            };
            Err(Stop::Refused(LayFault {
                number: fault.number,
                piece: laid.piece,
                value,
            }))
        }
        Err(Stop::NoMemory) => Err(Stop::NoMemory),
    }
}

/// Lays the stored form of bytes: 207 where the text may not have the size, 216 where it has none and its length
/// can't be said.
fn put_text(
    form: TextForm,
    size: Option<i32>,
    bytes: &[u8],
    laid: &mut Laid<'_>,
) -> Result<(), Stop<LayFault>>
    requires short { IsShort laid.old }
    ensures laid { Gives (text_put (draft_of laid.old) form size bytes.now) (fault_seen refusal_of (left (draft_of laid.new) result)) }
    ensures short { IfOk result (λ _. IsShort laid.new) }
    ensures notes { IfOk result (λ _. laid.new.notes.items ≡ laid.old.notes.items) }
{
    if let Some(fault) = text_refusal(form, size, bytes.len() as u64, laid.piece) {
        return Err(Stop::Refused(fault));
    }
    let size = unsigned(size);
    match laid.room(8 * stored_length(form, size, bytes.len() as u64) as u128) {
        Ok(()) => {}
        Err(stop) => return Err(stop),
    }
    push_text(&mut laid.bits, form, size, bytes)?;
    laid.piece = one_more(laid.piece);
    Ok(())
}

/// Why so many bytes have no stored form with this size.
fn text_refusal(form: TextForm, size: Option<i32>, count: u64, piece: u64) -> Option<LayFault>
    requires { count < 2 ^ 63 }
    ensures { option_map refusal_of result ≡ text_refusal piece form size count }
{
    match size {
        Some(size) => {
            if may_be_size(form, size) {
                None
            } else {
                Some(kept_fault(207, piece, i64::from(size)))
            }
        }
        None => {
            if is_too_long(form, count) {
                Some(kept_fault(216, piece, count as i64))
            } else {
                None
            }
        }
    }
}

fn kept_fault(number: u16, piece: u64, value: i64) -> LayFault
    ensures { refusal_of result ≡ refusal number piece value }
{
    LayFault {
        number,
        piece,
        value,
    }
}

/// A size without its sign.
fn unsigned(size: Option<i32>) -> Option<u32>
    ensures { result ≡ option_map nat_abs size }
{
    match size {
        Some(size) => Some(size.unsigned_abs()),
        None => None,
    }
}

/// How many bytes the stored form of so many bytes has.
fn stored_length(form: TextForm, size: Option<u32>, count: u64) -> u64
    requires { count < 2 ^ 63 }
    ensures length { result ≡ stored_length form size count }
    ensures small { result < 2 ^ 64 }
{
    match form {
        TextForm::Open => sized_length(size, count),
        TextForm::Pascal => sized_length(size, count) + 1,
        TextForm::WordLong => sized_length(size, count) + 2,
        TextForm::Zero => sized_length(before_zero(size), count) + 1,
    }
}

/// How many bytes a size leaves of so many, or fills them to.
fn sized_length(size: Option<u32>, count: u64) -> u64
    requires { count < 2 ^ 63 }
    ensures length { result ≡ sized_length size count }
    ensures small { result < 2 ^ 63 }
{
    match size {
        Some(size) => u64::from(size),
        None => count,
    }
}

/// A size without the zero byte at the end.
pub fn before_zero(size: Option<u32>) -> Option<u32>
    ensures { result ≡ before_zero size }
{
    match size {
        Some(size) => Some(size.saturating_sub(1)),
        None => None,
    }
}
