//! The pieces of one field, of whatever kind; a new kind of piece changes `specs/Pieces` too.

ghost use Rattle.std.specs.Prelude.{◌≡◌, ◌+◌, ◌≤◌, length, IfOk, IfSome, Some, option_map};
ghost use Rattle.rz_bits.specs.View.{seen};
ghost use Rattle.rz_expr.specs.Environment.{Environment};
ghost use Rattle.rz_types_fields.specs.Field.{plain_field};
ghost use Rattle.rz_types_fields.specs.Known.{known, met, Grew};
ghost use Rattle.rz_types_fields.specs.Sees.{marked, Late};
ghost use Rattle.rz_unlay.specs.Fits.{Fits};
ghost use Rattle.rz_unlay.specs.Pieces.{field_of_pieces, met_past};
ghost use Rattle.rz_unlay_pieces.specs.Came.{here_of, met_in, step_in, step_of};
ghost use Rattle.rz_unlay_pieces.specs.Few.{few, step_count, value_count};
ghost use Rattle.rz_unlay_pieces.specs.Pieces.{label_step};
ghost use Rattle.rz_unlay_pieces.specs.Seen.{met_placed};

use crate::points::read_points;
use crate::text::read_text;
use rz_core::{NoMemory, Word};
use rz_types_fields::Field;
use rz_unlay_pieces::{Came, Learnt, Met, Spot, claim_place, read_filler, read_number, read_zeros};
use std::alloc::Global;

/// Reads the pieces of a field at a place, which is in bits; a field with fields within it has no pieces of its own. What they
/// tell of names is noted, and so are the places of labels and the late bits. `Ok(None)` where they aren't there or aren't
/// stored so.
///
/// A name that isn't noted is looked for through the fields ahead in its body.
pub fn read_pieces<'a>(
    alloc: Global,
    spot: &Spot<'_>,
    field: &'a Field,
    learnt: &mut Learnt<'a>,
    at: u32,
) -> Result<Option<Came>, NoMemory>
    requires fits { Fits (plain_field field.now) }
    requires at { at ≤ length (seen spot.now.view.now) }
    requires marks { length learnt.old.marks ≤ at }
    ensures step { IfOk result (λ came. option_map (step_of learnt.new) came
        ≡ field_of_pieces (here_of spot.now (met learnt.old.notes.items)) (plain_field field.now) (known learnt.old.notes.items) at (marked at learnt.old.marks)) }
    ensures within { IfOk result (λ came. IfSome came (λ c. c.after ≤ length (seen spot.now.view.now))) }
    ensures met { IfOk result (λ came. IfSome came (λ c. met learnt.new.notes.items ≡ met_past (plain_field field.now) (met learnt.old.notes.items))) }
    ensures grew { IfOk result (λ came. Grew learnt.old.notes.items learnt.new.notes.items) }
    ensures marks { IfOk result (λ came. IfSome came (λ c. length learnt.new.marks ≤ c.after)) }
{
    match field {
        Field::Num(number) => read_number(spot, number, learnt, at),
        Field::Text(text) => read_text(alloc, spot, text, learnt, at),
        Field::Points(points) => read_points(alloc, spot, points, learnt, at),
        Field::Fill(unit, count) => {
            let bits = u64::from(*unit) * u64::from(count.unsigned_abs());
            Ok(read_zeros(spot.view, bits, at))
        }
        Field::Align(unit) => Ok(read_filler(spot.view, *unit, at)),
        Field::Label(name) => read_label(name, learnt, at),
        Field::Array(_) | Field::Switch(..) => Ok(Some(Came {
            value: None,
            after: at,
            cost: 0,
        })),
    }
}

/// Reads a label, which has no bits: its name has this place, unless another was told.
fn read_label<'a>(
    name: &'a Word,
    learnt: &mut Learnt<'a>,
    at: u32,
) -> Result<Option<Came>, NoMemory>
    requires at { at ≤ 134217696 }
    requires marks { length learnt.old.marks ≤ at }
    ensures step { IfOk result (λ came. option_map (step_of learnt.new) came ≡ label_step name.now (known learnt.old.notes.items) at (marked at learnt.old.marks)) }
    ensures met { IfOk result (λ came. IfSome came (λ c. met learnt.new.notes.items ≡ met_placed name.now (met learnt.old.notes.items))) }
    ensures grew { IfOk result (λ came. Grew learnt.old.notes.items learnt.new.notes.items) }
    ensures marks { IfOk result (λ came. learnt.new.marks ≡ learnt.old.marks) }
    ensures after { IfOk result (λ came. IfSome came (λ c. c.after ≡ at)) }
{
    if claim_place(name, at as i32, learnt)? {
        Ok(Some(Came {
            value: None,
            after: at,
            cost: 0,
        }))
    } else {
        Ok(None)
    }
}

/// What was read, if it has no more values than are left. `None` if it has more.
pub fn spend(came: Came, left: u32) -> Option<Met>
    ensures met { (names : Environment) (late : Late) → option_map (met_in names late) result ≡ few step_count left (Some (step_in names late came)) }
    ensures after { IfSome result (λ met. met.after ≡ came.after) }
    ensures left { IfSome result (λ met. met.left + value_count met.value ≡ left) }
{
    let Came { value, after, cost } = came;
    if cost > left {
        return None;
    }
    Some(Met {
        value,
        after,
        left: left - cost,
    })
}
