//! Texts at a place, with what is learnt of names. What is read is in `specs/Pieces`; bytes of texts are read in
//! `rz_unlay_texts`.

ghost use Rattle.std.specs.Prelude.{◌≡◌, ◌≤◌, length, IfOk, IfSome, option_map};
ghost use Rattle.rz_bits.specs.View.{seen};
ghost use Rattle.rz_types_fields.specs.Field.{plain_text};
ghost use Rattle.rz_types_fields.specs.Known.{known, met};
ghost use Rattle.rz_types_fields.specs.Sees.{marked};
ghost use Rattle.rz_unlay.specs.Pieces.{size_here, sized_text, text_step};
ghost use Rattle.rz_unlay_pieces.specs.Came.{here_of, step_of};
ghost use Rattle.rz_unlay_pieces.specs.Seen.{sight_at};
ghost use Rattle.rz_unlay_texts.specs.Texts.{came_value, text_size};

use rz_core::NoMemory;
use rz_types_fields::{TextField, TextForm, Tree};
use rz_unlay_pieces::{Came, Learnt, Spot, SpotEnv, is_late_text, open_size};
use rz_unlay_texts::{TextCame, read_bytes, size_in, text_size};
use std::alloc::Global;

/// Reads a text: its bytes are the value of the row, or those of its fixed parts. `Ok(None)` where they aren't there
/// or aren't stored so, or one of its expressions is late.
pub fn read_text(
    alloc: Global,
    spot: &Spot<'_>,
    field: &TextField,
    learnt: &Learnt<'_>,
    at: u32,
) -> Result<Option<Came>, NoMemory>
    requires at { at ≤ length (seen spot.now.view.now) }
    requires marks { length learnt.now.marks ≤ at }
    ensures step { IfOk result (λ came. option_map (step_of learnt.now) came
        ≡ text_step (here_of spot.now (met learnt.now.notes.items)) (plain_text field.now) (known learnt.now.notes.items) at (marked at learnt.now.marks)) }
    ensures after { IfOk result (λ came. IfSome came (λ c. at ≤ c.after)) }
    ensures within { IfOk result (λ came. IfSome came (λ c. c.after ≤ length (seen spot.now.view.now))) }
{
    if is_late_text(alloc, field, spot, learnt, at)? {
        return Ok(None);
    }
    let env = SpotEnv {
        spot,
        learnt,
        hides: false,
        at,
    };
    match size_in(&field.size, field.form, &env) {
        Some(size) => read_sized(alloc, spot, field, size, learnt, at),
        None => Ok(None),
    }
}

/// Reads a text of this size, none of whose expressions is late.
#[tactic(auto, using(rz_unlay_pieces::proofs::PieceSteps::seen_length))]
fn read_sized(
    alloc: Global,
    spot: &Spot<'_>,
    field: &TextField,
    size: Option<u32>,
    learnt: &Learnt<'_>,
    at: u32,
) -> Result<Option<Came>, NoMemory>
    requires at { at ≤ length (seen spot.now.view.now) }
    requires marks { length learnt.now.marks ≤ at }
    ensures step { IfOk result (λ came. option_map (step_of learnt.now) came
        ≡ sized_text (here_of spot.now (met learnt.now.notes.items)) (plain_text field.now) size (known learnt.now.notes.items) at (marked at learnt.now.marks)) }
    ensures after { IfOk result (λ came. IfSome came (λ c. at ≤ c.after)) }
    ensures within { IfOk result (λ came. IfSome came (λ c. c.after ≤ length (seen spot.now.view.now))) }
{
    let env = SpotEnv {
        spot,
        learnt,
        hides: false,
        at,
    };
    let room = room_for(spot, field, size, learnt, at);
    match text_size(alloc, spot.view, spot.facts, &env, field, size, room, at)? {
        Some(count) => {
            match read_bytes(alloc, spot.view, spot.facts, &env, field, size, count, at)? {
                Some(came) => Ok(Some(text_came(came, at + 8 * count as u32))),
                None => Ok(None),
            }
        }
        None => Ok(None),
    }
}

/// How many bytes an open text has there, where that is its size; the label where it ends is looked for only then.
fn room_for(
    spot: &Spot<'_>,
    field: &TextField,
    size: Option<u32>,
    learnt: &Learnt<'_>,
    at: u32,
) -> Option<u64>
    requires { at ≤ length (seen spot.now.view.now) }
    ensures { text_size spot.now.facts.now (sight_at spot.now learnt.now at) (seen spot.now.view.now) result field.now.form size (plain_text field.now).fixed at
        ≡ size_here (here_of spot.now (met learnt.now.notes.items)) (known learnt.now.notes.items) field.now.form size (plain_text field.now).fixed at }
{
    match &field.fixed {
        Some(_) => None,
        None => match size {
            Some(_) => None,
            None => match field.form {
                TextForm::Open => open_size(spot, learnt, at),
                TextForm::Pascal | TextForm::WordLong | TextForm::Zero => None,
            },
        },
    }
}

/// A text that ends at a place, as a piece.
#[tactic(auto, using(rz_unlay_pieces::proofs::Counts::count_text))]
fn text_came(came: TextCame, after: u32) -> Came
    ensures value { result.value ≡ came_value came }
    ensures after { result.after ≡ after }
{
    match came {
        TextCame::Fixed => Came {
            value: None,
            after,
            cost: 0,
        },
        TextCame::Value(bytes) => Came {
            value: Some(Tree::Text(bytes)),
            after,
            cost: 1,
        },
    }
}
