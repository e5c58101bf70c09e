//! Laws of templates. See `specs/Body` and `specs/Closed`.

ghost use Rattle.std.specs.Prelude.{◌≡◌, ◌+◌, ◌<◌, ◌≤◌, ◌^◌, ℕ, true, false, length, List, Ok, Err};
ghost use Rattle.std.specs.declared.result.Result.{Result};
ghost use Rattle.rz_tmpl.specs.Faults.{IsSayable};
ghost use Rattle.rz_tmpl.specs.Items.{is_kept, waits, Items};
ghost use Rattle.rz_tmpl.specs.declared.fault.TmplFault.{TmplFault};
ghost use Rattle.rz_tmpl.specs.Body.{lists_of, tmpl_body};
ghost use Rattle.rz_tmpl.specs.Closed.{is_closed};
ghost use Rattle.rz_tmpl.specs.Template.{HasBody};
ghost use Rattle.rz_types.specs.Readable.{is_readable};
ghost use Rattle.rz_types.specs.Rules.{keeps_rules};
ghost use Rattle.rz_types_fields.specs.Field.{PlainBody};
ghost use Rattle.rz_types_fields.specs.Shape.{is_well_shaped};

use crate::{every_tmpl_is_cut, one_cut, tmpl_faults_are_sayable};
use rz_types::first_broken_rule;

/// A law, with nothing to run: the fields of entries without a fault have the shape of a declaration and keep the rules
/// of declarations.
pub fn tmpl_bodies_are_templates()
    ensures shaped { (items : Items) → is_kept 60 false items ≡ true → 1 + lists_of items ≤ 2 ^ 64 → is_well_shaped (tmpl_body items) ≡ true }
    ensures kept { (items : Items) → is_kept 60 false items ≡ true → waits false items ≡ false → 1 + lists_of items ≤ 2 ^ 64 → keeps_rules (tmpl_body items) ≡ true }
{
    first_broken_rule();
}

/// A law, with nothing to run: the fields of entries without a fault can be read exactly where the template is closed.
pub fn closed_templates_are_readable()
    ensures { (items : Items) → is_kept 60 false items ≡ true → waits false items ≡ false → is_readable (tmpl_body items) ≡ is_closed items }
{}

/// A law, with nothing to run: bytes have the fields of one template at most, or one fault.
pub fn one_body()
    ensures { (bytes : List ℕ) (one other : Result PlainBody TmplFault) → HasBody bytes one → HasBody bytes other → one ≡ other }
{
    one_cut();
}

/// A law, with nothing to run: all bytes have the fields of a template, or a fault.
pub fn every_tmpl_has_a_body()
    ensures { (bytes : List ℕ) → (answer : Result PlainBody TmplFault) × HasBody bytes answer }
{
    every_tmpl_is_cut();
}

/// A law, with nothing to run: the fields that bytes have as a template, fewer than 2^64, have the shape of a
/// declaration and keep the rules of declarations. Their fault has one of the numbers 451 to 456, and its offset isn't
/// after their end.
pub fn tmpl_types_are_templates()
    ensures shaped { (bytes : List ℕ) (body : PlainBody) → length bytes < 2 ^ 64 → HasBody bytes (Ok body) → is_well_shaped body ≡ true }
    ensures kept { (bytes : List ℕ) (body : PlainBody) → length bytes < 2 ^ 64 → HasBody bytes (Ok body) → keeps_rules body ≡ true }
    ensures sayable { (bytes : List ℕ) (fault : TmplFault) → HasBody bytes (Err fault) → IsSayable fault }
    ensures within { (bytes : List ℕ) (fault : TmplFault) → HasBody bytes (Err fault) → fault.offset ≤ length bytes }
{
    tmpl_bodies_are_templates();
    tmpl_faults_are_sayable();
}
