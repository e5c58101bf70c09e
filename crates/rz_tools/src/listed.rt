//! The catalogue of a fork as text, where its resources lie. What it is is in `specs/Strings`.

ghost use Rattle.std.specs.Prelude.{◌≡◌, ◌++◌, List, Option, option_map, IfOk, OnOk};
ghost use Rattle.rz_catalog.specs.Catalogue.{entries_of, IsCatalogue};
ghost use Rattle.rz_catalog.specs.Stock.{texts_in, HasTree};
ghost use Rattle.rz_catalog_text.specs.declared.entry.Entry.{Entry};
ghost use Rattle.rz_catalog_text.specs.Text.{entries_text};
ghost use Rattle.rz_core.specs.Decided.{Decided};
ghost use Rattle.rz_fork.specs.View.{lent};
ghost use Rattle.rz_types_fields.specs.declared.tree.Tree.{Tree};
ghost use Rattle.rz_types.specs.Template.{template_of};
ghost use Rattle.rz_types_table.specs.Table.{declared_for};
ghost use Rattle.rz_types_table.specs.TypeTable.{table_of};

use rz_catalog::{entries_under, every_catalogue};
use rz_catalog_text::{Entries, entries_go_on, write_entry};
use rz_core::{Bytes, Moment, NoMemory};
use rz_fork::{ForkView, ResView};
use rz_tools_text::facts_of;
use rz_types::Template;
use rz_types_table::TypeTable;
use std::alloc::Global;

/// The catalogue of a fork's resources as text, under these types. `NoMemory` is the only refusal. Of the resources one
/// at a time is read, and its entries are held.
pub fn listed(
    alloc: Global,
    fork: &ForkView<'_>,
    types: &TypeTable,
    moment: Moment,
) -> Result<Bytes, NoMemory>
    ensures { IfOk result (λ text. (entries : List Entry) × IsCatalogue (table_of types.now) moment fork.now.list entries × (text ≡ entries_text entries)) }
{
    every_catalogue();
    let mut text = Bytes::new(alloc);
    let mut walk = fork.walk();
    while let Some(one) = walk.next() {
        append_one(alloc, &one, types, moment, &mut text)?;
    }
    Ok(text)
}

/// Appends the entries of a resource.
fn append_one(
    alloc: Global,
    view: &ResView<'_>,
    types: &TypeTable,
    moment: Moment,
    text: &mut Bytes,
) -> Result<(), NoMemory>
    ensures { OnOk result ((row : Option (List Tree)) → Decided (HasTree (table_of types.now) moment (lent view.now)) row
        → text.new ≡ text.old ++ entries_text (entries_of view.now.kind view.now.id (texts_in row))) }
{
    let facts = facts_of(alloc, view, moment)?;
    let entries = entries_under(alloc, template_for(types, view), &facts, view.bytes)?;
    append_text(&entries, text)
}

/// The template that is declared for a resource that is lent.
fn template_for<'a>(types: &'a TypeTable, view: &ResView<'_>) -> Option<&'a Template>
    ensures { option_map (λ template. template_of template.now) result ≡ declared_for (table_of types.now) (lent view.now) }
{
    types.find(view.kind, view.id)
}

/// Appends the text of entries.
fn append_text(entries: &Entries, text: &mut Bytes) -> Result<(), NoMemory>
    ensures { OnOk result (text.new ≡ text.old ++ entries_text entries.now) }
{
    entries_go_on();
    for entry in entries.as_slice() {
        write_entry(entry, text)?;
    }
    Ok(())
}
