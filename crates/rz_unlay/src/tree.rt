//! What the bytes of a resource tell under the template that is declared for it, if there is one. It is defined in
//! `specs/Reading`.

ghost use Rattle.std.specs.Prelude.{◌≡◌, ℕ, IfOk, List, Option, Some, option_map};
ghost use Rattle.rz_core.specs.Decided.{Decided};
ghost use Rattle.rz_core.specs.declared.facts.Facts.{Facts};
ghost use Rattle.rz_types.specs.Field.{PlainBody};
ghost use Rattle.rz_types.specs.Template.{template_of};
ghost use Rattle.rz_types_fields.specs.declared.tree.Tree.{Tree};
ghost use Rattle.rz_unlay.specs.Reading.{IsTree};

use crate::found::{one_plain_row, told_rows_are_decided};
use crate::resource::{Reading, read};
use rz_core::{Facts, NoMemory};
use rz_types::Template;
use rz_types_fields::Row;
use std::alloc::Global;

/// The row that bytes tell under the template that is declared for them, of a resource of which so much is known.
/// `None` comes exactly where no template is declared, or the bytes tell no row of it ([`read`]).
pub fn tree_under(
    alloc: Global,
    template: Option<&Template>,
    bytes: &[u8],
    facts: &Facts,
) -> Result<Option<Row>, NoMemory>
    ensures told { IfOk result (Decided (λ row. (body : PlainBody) × IsTree (option_map (λ one. template_of one.now) template.entry) facts.now bytes.now body row)) }
    ensures every { (body : PlainBody) (row : List Tree) → IsTree (option_map (λ one. template_of one.now) template.entry) facts.now bytes.now body row
        → IfOk result (λ found. found ≡ Some row) }
{
    match template {
        Some(template) => row_under(alloc, template, bytes, facts),
        None => Ok(None),
    }
}

/// The row that bytes tell under a template.
fn row_under(
    alloc: Global,
    template: &Template,
    bytes: &[u8],
    facts: &Facts,
) -> Result<Option<Row>, NoMemory>
    ensures told { IfOk result (Decided (λ row. (body : PlainBody) × IsTree (Some (template_of template.now)) facts.now bytes.now body row)) }
    ensures every { (body : PlainBody) (row : List Tree) → IsTree (Some (template_of template.now)) facts.now bytes.now body row
        → IfOk result (λ found. found ≡ Some row) }
{
    match read(alloc, template, bytes, facts)? {
        Reading::Tree(row) => Ok(Some(row)),
        Reading::NoTree => Ok(None),
    }
}

/// A law, with nothing to run: where fields may be declared, it is decided of all bytes which row they tell as a tree: there
/// is one that they tell, or none.
pub fn trees_are_decided()
    ensures { (fields : Option PlainBody) (known : Facts) (bytes : List ℕ)
        → (answer : Option (List Tree)) × Decided (λ row. (body : PlainBody) × IsTree fields known bytes body row) answer }
{
    told_rows_are_decided();
}

/// A law, with nothing to run: bytes tell one row at most as a tree, and it is one of the fields that are declared.
pub fn one_tree()
    ensures { (fields : Option PlainBody) (known : Facts) (bytes : List ℕ) (body another : PlainBody) (row other : List Tree)
        → IsTree fields known bytes body row → IsTree fields known bytes another other → (body ≡ another) × (row ≡ other) }
{
    one_plain_row();
}
