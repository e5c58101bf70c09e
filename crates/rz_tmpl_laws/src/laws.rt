//! Laws of what is said. See `specs/Says`.

ghost use Rattle.std.specs.Prelude.{◌≡◌, ◌↔◌, ◌+◌, ◌<◌, ◌≤◌, ◌^◌, ℕ, length, List, true, false, Ok};
ghost use Rattle.rz_core.specs.declared.facts.Facts.{Facts};
ghost use Rattle.rz_tmpl.specs.Body.{lists_of, tmpl_body};
ghost use Rattle.rz_tmpl.specs.Closed.{is_closed};
ghost use Rattle.rz_tmpl.specs.Cut.{IsCut};
ghost use Rattle.rz_tmpl.specs.Items.{is_kept, waits, Items};
ghost use Rattle.rz_tmpl_laws.specs.Says.{Says};
ghost use Rattle.rz_types.specs.Readable.{is_readable};
ghost use Rattle.rz_types_fields.specs.Spells.{SpellsPlainly};
ghost use Rattle.rz_types_fields.specs.declared.tree.Tree.{Tree};

use rz_tmpl::closed_templates_are_readable;
use rz_unlay::spelled_bytes_are_few;

/// A law, with nothing to run: under the fields of entries without a fault, whether they can be read or not, a row
/// spells bytes plainly exactly where the bytes say it.
pub fn said_rows_are_plain()
    ensures { (known : Facts) (items : Items) (row : List Tree) (bytes : List ℕ) → is_kept 60 false items ≡ true → waits false items ≡ false
        → 1 + lists_of items ≤ 2 ^ 64 → SpellsPlainly known (tmpl_body items) row bytes ↔ Says items row bytes }
{
    spelled_bytes_are_few();
}

/// A law, with nothing to run: where bytes, fewer than 2^64, are cut into entries, their template is readable exactly
/// if the entries are closed, and a row spells bytes plainly under it exactly if the bytes say it.
pub fn cut_bytes_say_their_rows()
    ensures { (tmpl : List ℕ) (items : Items) → length tmpl < 2 ^ 64 → IsCut tmpl (Ok items)
        → (is_readable (tmpl_body items) ≡ is_closed items)
        × ((known : Facts) (row : List Tree) (bytes : List ℕ) → SpellsPlainly known (tmpl_body items) row bytes ↔ Says items row bytes) }
{
    said_rows_are_plain();
    closed_templates_are_readable();
}
