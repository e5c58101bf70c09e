//! What expressions see where a field is read. What they see is in `specs/Seen`.

ghost use Rattle.std.specs.Prelude.{◌≡◌, ◌≤◌, ◌&&◌, if◌then◌else◌, None, option_map, pos};
ghost use Rattle.rz_bits.specs.View.{seen};
ghost use Rattle.rz_expr.specs.NameKey.{key_of};
ghost use Rattle.rz_types_fields.specs.Known.{known};
ghost use Rattle.rz_types_fields.specs.Sees.{bits_before, hit};
ghost use Rattle.rz_unlay_pieces.specs.Seen.{env_sight, near_names, near_value};

use crate::ahead::near_place;
use crate::learnt::Learnt;
use crate::spot::Spot;
use rz_bits::{BitBuf, BitView};
use rz_expr::{Env, FactWord, Key};
use rz_types_fields::{fact_of, value_noted};

/// What an expression sees at a place of a field: what is noted of names, the labels ahead at a known distance, and the
/// bits before the place. A name that isn't noted is looked for through the fields ahead.
#[derive(Drop)]
pub struct SpotEnv<'a> {
    /// Where the field is read.
    pub spot: &'a Spot<'a>,
    /// What is learnt.
    pub learnt: &'a Learnt<'a>,
    /// Whether the late bits are hidden.
    pub hides: bool,
    /// The place before which the bits stand that are seen.
    pub at: u32,
}

impl Env for SpotEnv<'_> {
    ghost view = { λ env. env_sight env };

    fn give(&self, key: Key<'_>) -> Option<i128> {
        value_seen(key, self.spot, self.learnt)
    }

    fn bits(&self, first: i64, width: i32) -> Option<u32> {
        number_seen(
            self.spot.view,
            &self.learnt.marks,
            self.hides,
            self.at,
            first,
            width as u8,
        )
    }

    fn fact(&self, which: FactWord) -> i32 {
        fact_of(self.spot.facts, which)
    }
}

/// The value of a key: what is noted, or the place of a label ahead.
pub fn value_seen(key: Key<'_>, spot: &Spot<'_>, learnt: &Learnt<'_>) -> Option<i128>
    ensures { result ≡ (near_names spot.now (known learnt.now.notes.items)).give (key_of key.entry) }
{
    match value_noted(&learnt.notes, key) {
        Some(value) => Some(value),
        None => value_near(key, spot),
    }
}

/// The place of the label that the key names, where the label stands ahead at a known distance.
#[tactic(auto, using(crate::proofs::Labels::count_far, crate::proofs::Labels::rows_far, crate::proofs::Labels::place_in_far, crate::proofs::Labels::row_far))]
fn value_near(key: Key<'_>, spot: &Spot<'_>) -> Option<i128>
    ensures { result ≡ near_value spot.now (key_of key.entry) }
{
    match key {
        Key::Place(name) => match near_place(spot.fields, spot.first, name, spot.view.len()) {
            Some(place) => Some(i128::from(place)),
            None => None,
        },
        Key::Count(_) | Key::Rows(_) | Key::PlaceIn(..) | Key::Row(_) => None,
    }
}

/// The number in so many bits from a bit on, where they all stand before a place, and none of them is late, where the late
/// ones are hidden.
fn number_seen(
    view: &BitView<'_>,
    marks: &BitBuf,
    hides: bool,
    at: u32,
    first: i64,
    width: u8,
) -> Option<u32>
    requires { width ≤ 32 }
    ensures { option_map (λ n. pos n) result ≡ (if hides && hit marks.now first (pos width) then None else bits_before (seen view.now) at first (pos width)) }
{
    if hides && is_hit(marks, first, width) {
        return None;
    }
    number_before(view, at, first, width)
}

/// The number in so many bits from a bit on, where they all stand before a place.
fn number_before(view: &BitView<'_>, at: u32, first: i64, width: u8) -> Option<u32>
    requires { width ≤ 32 }
    ensures { option_map (λ n. pos n) result ≡ bits_before (seen view.now) at first (pos width) }
{
    if first < 0 || first > i64::from(at) {
        return None;
    }
    if first + i64::from(width) > i64::from(at) {
        return None;
    }
    view.at(first as u32, width)
}

/// Whether one of so many bits from a bit on is late.
fn is_hit(marks: &BitBuf, first: i64, width: u8) -> bool
    requires { width ≤ 32 }
    ensures { result ≡ hit marks.now first (pos width) }
{
    if first < 0 || first > i64::from(marks.len()) {
        return false;
    }
    marks.any(first as u32, width)
}
