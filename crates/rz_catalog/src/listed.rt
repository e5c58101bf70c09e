//! The catalogue of a list of resources. See `specs/Catalogue`.

ghost use Rattle.std.specs.Prelude.{◌≡◌, ◌≤◌, ◌++◌, length, IfOk, List, OnOk, Option, option_map};
ghost use Rattle.rz_core.specs.Decided.{Decided};
ghost use Rattle.rz_types.specs.Field.{PlainBody};
ghost use Rattle.rz_types.specs.Template.{template_of};
ghost use Rattle.rz_types_fields.specs.declared.tree.Tree.{Tree};
ghost use Rattle.rz_types_table.specs.Table.{declared_for};
ghost use Rattle.rz_types_table.specs.TypeTable.{table_of};
ghost use Rattle.rz_unlay.specs.Reading.{facts_of, IsTree};
ghost use Rattle.rz_catalog.specs.Catalogue.{catalogue, entries_of, IsCatalogue};
ghost use Rattle.rz_catalog.specs.Stock.{texts_in, AreStocked, Stocked};

use crate::leaves::texts_of;
use rz_catalog_text::{Entries, Entry};
use rz_core::{Bytes, Facts, Listing, Mark, Moment, NoMemory, OsType, Resource, Resources};
use rz_types::Template;
use rz_types_table::TypeTable;
use rz_unlay::{one_tree, tree_under, trees_are_decided};
use std::alloc::Global;

/// The place of an entry that no file has.
const NOWHERE: Mark = Mark { file: 0, line: 0 };

/// The entries for all texts of the resources of a list, under the types that are declared: resources in order, and the
/// texts of each one as they stand in its row, depth first, numbered from 0. A resource has texts where a template is declared
/// for it and a plain row spells its bytes ([`rz_unlay::read`]). The entries are marked as of line 0 of file 0. `NoMemory` is
/// the only refusal. It takes the time that reading takes, and the memory of one row beside the entries.
pub fn catalogue(
    alloc: Global,
    types: &TypeTable,
    list: &Resources,
    moment: Moment,
) -> Result<Entries, NoMemory>
    ensures { IfOk result (IsCatalogue (table_of types.now) moment list.now) }
{
    trees_are_decided();
    let mut entries = Entries::new(alloc);
    append_all(alloc, types, list, moment, &mut entries)?;
    Ok(entries)
}

/// Appends the entries of each resource of a list.
fn append_all(
    alloc: Global,
    types: &TypeTable,
    list: &Resources,
    moment: Moment,
    into: &mut Entries,
) -> Result<(), NoMemory>
    ensures { OnOk result ((stock : List Stocked) → AreStocked (table_of types.now) moment list.now stock → into.new ≡ into.old ++ catalogue stock) }
{
    let mut k = 0;
    while k < list.len() {
        append_resource(alloc, types, list.at(k), moment, into)?;
        k += 1;
    }
    Ok(())
}

/// Appends the entries of a resource.
fn append_resource(
    alloc: Global,
    types: &TypeTable,
    resource: &Resource,
    moment: Moment,
    into: &mut Entries,
) -> Result<(), NoMemory>
    ensures { OnOk result ((row : Option (List Tree)) → Decided (λ row. (body : PlainBody) × IsTree (declared_for (table_of types.now) resource.now) (facts_of moment resource.now) resource.now.bytes body row) row
        → into.new ≡ into.old ++ entries_of resource.now.kind resource.now.id (texts_in row)) }
{
    let facts = facts_of(alloc, resource, moment)?;
    append_entries(
        alloc,
        template_for(types, resource),
        &facts,
        resource.bytes.as_slice(),
        into,
    )
}

/// The template that is declared for a resource.
pub fn template_for<'a>(types: &'a TypeTable, resource: &Resource) -> Option<&'a Template>
    ensures { option_map (λ template. template_of template.now) result ≡ declared_for (table_of types.now) resource.now }
{
    types.find(resource.kind, resource.id)
}

/// What is known of a resource beside its bytes.
pub fn facts_of(alloc: Global, resource: &Resource, moment: Moment) -> Result<Facts, NoMemory>
    ensures { IfOk result (λ facts. facts ≡ facts_of moment resource.now) }
{
    Ok(Facts {
        kind: resource.kind,
        id: resource.id,
        name: Bytes::of(alloc, resource.name.as_slice())?,
        attr: resource.attr,
        moment,
    })
}

/// The entries for the texts of one resource, of which so much is known, where this template is declared for it, as
/// [`catalogue`] gives them. So resources that are lent can be listed too. `NoMemory` is the only refusal.
pub fn entries_under(
    alloc: Global,
    template: Option<&Template>,
    facts: &Facts,
    bytes: &[u8],
) -> Result<Entries, NoMemory>
    ensures { (row : Option (List Tree)) → Decided (λ row. (body : PlainBody) × IsTree (option_map (λ one. template_of one.now) template.entry) facts.now bytes.now body row) row
        → IfOk result (λ entries. entries ≡ entries_of facts.now.kind facts.now.id (texts_in row)) }
{
    let mut entries = Entries::new(alloc);
    append_entries(alloc, template, facts, bytes, &mut entries)?;
    Ok(entries)
}

/// Appends the entries for the texts of one resource, of which so much is known, where this template is declared for it.
fn append_entries(
    alloc: Global,
    template: Option<&Template>,
    facts: &Facts,
    bytes: &[u8],
    into: &mut Entries,
) -> Result<(), NoMemory>
    ensures { OnOk result ((row : Option (List Tree)) → Decided (λ row. (body : PlainBody) × IsTree (option_map (λ one. template_of one.now) template.entry) facts.now bytes.now body row) row
        → into.new ≡ into.old ++ entries_of facts.now.kind facts.now.id (texts_in row)) }
{
    let texts = texts_under(alloc, template, facts, bytes)?;
    append_texts(facts.kind, facts.id, texts, into)
}

/// The texts of one resource, in order. They are no more than a plain row has values.
pub fn texts_under(
    alloc: Global,
    template: Option<&Template>,
    facts: &Facts,
    bytes: &[u8],
) -> Result<Listing<Bytes>, NoMemory>
    ensures few { IfOk result (λ texts. length texts ≤ 1048576) }
    ensures texts { (row : Option (List Tree)) → Decided (λ row. (body : PlainBody) × IsTree (option_map (λ one. template_of one.now) template.entry) facts.now bytes.now body row) row
        → IfOk result (λ texts. texts ≡ texts_in row) }
{
    one_tree();
    match tree_under(alloc, template, bytes, facts)? {
        Some(row) => texts_of(alloc, &row),
        None => Ok(Listing::new(alloc)),
    }
}

/// Appends an entry for each of these texts.
fn append_texts(
    kind: OsType,
    id: i16,
    texts: Listing<Bytes>,
    into: &mut Entries,
) -> Result<(), NoMemory>
    requires { length texts ≤ 1048576 }
    ensures { OnOk result (into.new ≡ into.old ++ entries_of kind id texts) }
{
    let mut leaf: u32 = 0;
    for text in texts.into_vec() {
        into.push(Entry {
            kind,
            id,
            leaf,
            text,
            mark: NOWHERE,
        })?;
        leaf += 1;
    }
    Ok(())
}
