//! Labels that stand ahead: those at a known distance, and those whose place is told, where open texts end. They are defined
//! in `specs/Ahead`.

ghost use Rattle.std.specs.Prelude.{◌≡◌, ◌+◌, ◌≤◌, length, IfSome, option_map, pos};
ghost use Rattle.rz_bits.specs.BitBuf.{missing};
ghost use Rattle.rz_bits.specs.View.{seen};
ghost use Rattle.rz_expr.specs.Environment.{place_key};
ghost use Rattle.rz_types_fields.specs.Field.{plain_body, plain_field};
ghost use Rattle.rz_types_fields.specs.Known.{known};
ghost use Rattle.rz_types_fields.specs.Width.{capped, fixed_widths};
ghost use Rattle.rz_unlay_pieces.specs.Ahead.{bytes_before, bytes_left, label_place, near_place, open_size, place_within, told_label};
ghost use Rattle.rz_unlay_pieces.specs.Seen.{behind_capped, told_capped, told_of};

use crate::learnt::Learnt;
use crate::spot::Spot;
use rz_bits::{BitView, missing};
use rz_core::Word;
use rz_expr::Key;
use rz_types_fields::{Field, Notes, fixed_width, fixed_widths, is_label, value_noted};

/// One bit more than the most bits of a resource.
const TOO_MANY_BITS: u64 = 134_217_697;

/// A label that stands ahead, with its place, which is known.
#[derive(Clone, Copy)]
pub struct LabelAhead {
    /// Its place, in bits.
    pub place: u32,
    /// How many bits stand before it: at most one more than a resource can have.
    pub width: u64,
}

/// The first label after fields of fixed width of which the place is known, in a resource of so many bits. Each label on
/// the way is looked up, and each field is measured, with the fields of arrays within it.
pub fn told_label(rest: &[Field], notes: &Notes<'_>, len: u32) -> Option<LabelAhead>
    ensures within { IfSome result (λ label. label.place ≤ len) }
    ensures label { option_map told_of result ≡ option_map told_capped (told_label len (plain_body rest.now) (known notes.now.items)) }
{
    let mut width = 0;
    for field in rest {
        if let Some(place) = label_place(field, notes, len) {
            return Some(LabelAhead { place, width });
        }
        match fixed_width(field) {
            Some(own) => width = capped_sum(width, own),
            None => return None,
        }
    }
    None
}

/// The place that is known of the label that a field is.
fn label_place(field: &Field, notes: &Notes<'_>, len: u32) -> Option<u32>
    ensures within { IfSome result (λ p. p ≤ len) }
    ensures place { result ≡ label_place len (plain_field field.now) (known notes.now.items) }
{
    match field {
        Field::Label(name) => place_within(len, value_noted(notes, Key::Place(name))),
        _ => None,
    }
}

/// A place, where it lies in a resource of so many bits.
fn place_within(len: u32, place: Option<i128>) -> Option<u32>
    ensures within { IfSome result (λ p. p ≤ len) }
    ensures place { result ≡ place_within len place }
{
    match place {
        Some(place) => {
            if place >= 0 && place <= i128::from(len) {
                Some(place as u32)
            } else {
                None
            }
        }
        None => None,
    }
}

/// The sum of two widths, at most one more than a resource can have.
fn capped_sum(one: u64, other: u64) -> u64
    ensures { result ≡ capped (one + other) }
{
    one.saturating_add(other).min(TOO_MANY_BITS)
}

/// The place of a label of this name, in whatever case, that stands at a known distance in fields that begin at a place,
/// where it lies in a resource of so many bits. It looks through the fields, as far as they lie there.
pub fn near_place(fields: &[Field], first: u32, name: &Word, len: u32) -> Option<u32>
    requires { len ≤ 134217696 }
    ensures within { IfSome result (λ p. p ≤ len) }
    ensures place { result ≡ place_within len (option_map (λ p. pos p) (near_place (plain_body fields.now) first (place_key name.now.bytes))) }
{
    let mut at = first;
    for field in fields {
        if at > len {
            return None;
        }
        if is_label(field, Key::Place(name)) {
            return Some(at);
        }
        match behind_measured(field, at) {
            Some(next) => at = next,
            None => return None,
        }
    }
    None
}

/// The place after a field, where it is at a known distance.
fn behind_measured(field: &Field, at: u32) -> Option<u32>
    requires { at ≤ 134217696 }
    ensures { result ≡ behind_capped (plain_field field.now) at }
{
    match field {
        Field::Align(unit) => Some(aligned(at, *unit)),
        _ => match fixed_width(field) {
            Some(width) => Some(at + width as u32),
            None => None,
        },
    }
}

/// The next multiple of a unit; of no unit, the same place.
fn aligned(at: u32, unit: u8) -> u32
    requires { at ≤ 134217696 }
    ensures { result ≡ at + missing unit at }
{
    if unit == 0 {
        at
    } else {
        at + u32::from(missing(unit, at))
    }
}

/// How many bytes an open text has that stands at a place: those up to a told label, or as many as are left.
pub fn open_size(spot: &Spot<'_>, learnt: &Learnt<'_>, at: u32) -> Option<u64>
    requires { at ≤ length (seen spot.now.view.now) }
    ensures { result
        ≡ open_size (length (seen spot.now.view.now)) (told_label (length (seen spot.now.view.now)) (plain_body spot.now.rest.now) (known learnt.now.notes.items)) (fixed_widths (plain_body spot.now.rest.now)) at }
{
    match told_label(spot.rest, &learnt.notes, spot.view.len()) {
        Some(label) => bytes_before(label, at),
        None => bytes_left(spot.view, fixed_widths(spot.rest), at),
    }
}

/// How many whole bytes stand from a place up to just so many bits before a label.
fn bytes_before(label: LabelAhead, at: u32) -> Option<u64>
    ensures { result ≡ bytes_before (told_of label) at }
{
    let place = u64::from(label.place);
    let at = u64::from(at);
    if place < at || place - at < label.width {
        return None;
    }
    let room = place - at - label.width;
    if room % 8 == 0 { Some(room / 8) } else { None }
}

/// How many whole bytes stand from a place up to so many bits before the end.
fn bytes_left(view: &BitView<'_>, width: Option<u64>, at: u32) -> Option<u64>
    requires { at ≤ length (seen view.now) }
    ensures { result ≡ bytes_left (length (seen view.now)) width at }
{
    let room = u64::from(view.len() - at);
    match width {
        Some(width) => {
            if room < width {
                None
            } else {
                Some((room - width) / 8)
            }
        }
        None => None,
    }
}
