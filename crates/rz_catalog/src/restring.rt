//! One resource with the texts of entries in place. See `specs/Apply`.

ghost use Rattle.std.specs.Prelude.{◌≡◌, ◌≤◌, ◌∷◌, filter, IfOk, length, List, map, Option, Some};
ghost use Rattle.rz_core.specs.Decided.{Decided};
ghost use Rattle.rz_core.specs.Stop.{Meets};
ghost use Rattle.rz_types.specs.Field.{PlainBody};
ghost use Rattle.rz_types.specs.Template.{template_of};
ghost use Rattle.rz_types_fields.specs.Row.{IsRow};
ghost use Rattle.rz_types_fields.specs.declared.tree.Tree.{Tree};
ghost use Rattle.rz_types_table.specs.TypeTable.{table_of};
ghost use Rattle.rz_unlay.specs.Reading.{IsTree};
ghost use Rattle.rz_catalog_text.specs.declared.entry.Entry.{Entry};
ghost use Rattle.rz_core.specs.declared.resource.Resource.{Resource};
ghost use Rattle.rz_catalog.specs.Apply.{is_entry_for, placed, text_for, with_bytes, IsPut};
ghost use Rattle.rz_catalog.specs.Held.{entry_key, key_eq, leaf_eq, leaf_key, resource_key, AreFirst, IsChangedUnder, IsPutUnder};
ghost use Rattle.rz_catalog.specs.Leaves.{leaves};
ghost use Rattle.rz_catalog.specs.Stock.{HasTree};

use crate::check::{Noted, fault_of};
use crate::held::{LeafKey, LeafPlaces, resource_key};
use crate::leaves::texts_of;
use crate::listed::{facts_of, template_for};
use crate::put::put_row;
use crate::same::same_row;
use rz_catalog_text::{Entries, Entry};
use rz_core::{Bytes, Facts, Fault, Listing, Moment, NoMemory, Resource, Stop};
use rz_layout::lay_row;
use rz_types::Template;
use rz_types_fields::Row;
use rz_types_table::TypeTable;
use rz_unlay::{one_tree, plain_rows_are_spelled, spelled_rows_are_rows, tree_under};
use std::alloc::Global;

/// A resource with the texts of its entries in place of its leaves, where the first entries stand so: a copy where it has no
/// entry. 464 comes where the changed row has no bytes that tell it again (kept: the type and the id of its first entry, and
/// marked with it).
pub fn restring(
    alloc: Global,
    types: &TypeTable,
    resource: &Resource,
    entries: &Entries,
    noted: &Noted,
    moment: Moment,
) -> Result<Resource, Stop<Fault>>
    requires firsts { AreFirst key_eq (map entry_key entries.now) noted.now.firsts }
    requires leaves { AreFirst leaf_eq (map leaf_key entries.now) noted.now.leaves }
    ensures { (row : Option (List Tree)) → Decided (HasTree (table_of types.now) moment resource.now) row
        → Meets result (IsPut (table_of types.now) moment resource.now row (filter (is_entry_for resource.now) entries.now)) }
{
    match noted.firsts.get(&resource_key(resource)) {
        Some(first) => {
            let first = entries.at(*first as u64);
            change(
                alloc,
                types,
                resource,
                entries,
                first,
                &noted.leaves,
                moment,
            )
        }
        None => Ok(with_bytes(alloc, resource, resource.bytes.as_slice())?),
    }
}

/// The same, where there is an entry, and this is the first one.
fn change(
    alloc: Global,
    types: &TypeTable,
    resource: &Resource,
    entries: &Entries,
    first: &Entry,
    places: &LeafPlaces,
    moment: Moment,
) -> Result<Resource, Stop<Fault>>
    requires { AreFirst leaf_eq (map leaf_key entries.now) places.now }
    ensures { (row : Option (List Tree)) (others : List Entry) → Decided (HasTree (table_of types.now) moment resource.now) row
        → filter (is_entry_for resource.now) entries.now ≡ first.now ∷ others
        → Meets result (IsPut (table_of types.now) moment resource.now row (first.now ∷ others)) }
{
    one_tree();
    let facts = facts_of(alloc, resource, moment)?;
    match template_for(types, resource) {
        Some(template) => put_texts(alloc, template, &facts, resource, entries, first, places),
        None => Ok(with_bytes(alloc, resource, resource.bytes.as_slice())?),
    }
}

/// The same under the template that is declared for the resource, of which so much is known.
fn put_texts(
    alloc: Global,
    template: &Template,
    facts: &Facts,
    resource: &Resource,
    entries: &Entries,
    first: &Entry,
    places: &LeafPlaces,
) -> Result<Resource, Stop<Fault>>
    requires { AreFirst leaf_eq (map leaf_key entries.now) places.now }
    ensures { (row : Option (List Tree)) (others : List Entry) → Decided (λ row. (body : PlainBody) × IsTree (Some (template_of template.now)) facts.now resource.now.bytes body row) row
        → filter (is_entry_for resource.now) entries.now ≡ first.now ∷ others
        → Meets result (IsPutUnder (Some (template_of template.now)) facts.now resource.now row (first.now ∷ others)) }
{
    one_tree();
    spelled_rows_are_rows();
    match tree_under(alloc, Some(template), resource.bytes.as_slice(), facts)? {
        Some(row) => change_row(
            alloc, template, facts, resource, &row, entries, first, places,
        ),
        None => Ok(with_bytes(alloc, resource, resource.bytes.as_slice())?),
    }
}

/// The same, where the bytes of the resource tell this row.
fn change_row(
    alloc: Global,
    template: &Template,
    facts: &Facts,
    resource: &Resource,
    row: &Row,
    entries: &Entries,
    first: &Entry,
    places: &LeafPlaces,
) -> Result<Resource, Stop<Fault>>
    requires row { IsRow (template_of template.now) row.now }
    requires few { length (leaves row.now) ≤ 1048576 }
    requires places { AreFirst leaf_eq (map leaf_key entries.now) places.now }
    ensures { (others : List Entry) → filter (is_entry_for resource.now) entries.now ≡ first.now ∷ others
        → Meets result (IsChangedUnder (Some (template_of template.now)) facts.now resource.now row.now (first.now ∷ others) first.now) }
{
    let texts = placed_texts(alloc, resource, row, entries, places)?;
    let put = put_row(alloc, row, texts.as_slice())?;
    let told = bytes_telling(alloc, template, &put.row, facts);
    drop(put);
    drop(texts);
    match told? {
        Some(bytes) => Ok(with_bytes(alloc, resource, bytes.as_slice())?),
        None => Err(Stop::Refused(fault_of(464, first))),
    }
}

/// A copy of a resource with these bytes in place of its own.
fn with_bytes(alloc: Global, resource: &Resource, bytes: &[u8]) -> Result<Resource, NoMemory>
    ensures { IfOk result (λ copy. copy ≡ with_bytes resource.now bytes.now) }
{
    Ok(Resource {
        kind: resource.kind,
        id: resource.id,
        name: Bytes::of(alloc, resource.name.as_slice())?,
        attr: resource.attr,
        bytes: Bytes::of(alloc, bytes)?,
    })
}

/// The leaves of a row of a resource, with the texts of entries in place, where the first entry for each leaf stands so.
fn placed_texts(
    alloc: Global,
    resource: &Resource,
    row: &Row,
    entries: &Entries,
    places: &LeafPlaces,
) -> Result<Listing<Bytes>, NoMemory>
    requires few { length (leaves row.now) ≤ 1048576 }
    requires places { AreFirst leaf_eq (map leaf_key entries.now) places.now }
    ensures { IfOk result (λ texts. texts ≡ placed (filter (is_entry_for resource.now) entries.now) (leaves row.now)) }
{
    let own = texts_of(alloc, row)?;
    let (kind, id) = resource_key(resource);
    let mut texts = Listing::new(alloc);
    let mut leaf: u32 = 0;
    for text in own.into_vec() {
        texts.push(text_for(alloc, (kind, id, leaf), text, entries, places)?)?;
        leaf += 1;
    }
    Ok(texts)
}

/// The text of the first entry for a leaf, or else its own.
fn text_for(
    alloc: Global,
    key: LeafKey,
    own: Bytes,
    entries: &Entries,
    places: &LeafPlaces,
) -> Result<Bytes, NoMemory>
    requires { AreFirst leaf_eq (map leaf_key entries.now) places.now }
    ensures { (r : Resource) → resource_key r ≡ (key.0, key.1) → IfOk result (λ text. text ≡ text_for (filter (is_entry_for r) entries.now) key.2 own) }
{
    match places.get(&key) {
        Some(place) => Bytes::of(alloc, entries.at(*place as u64).text.as_slice()),
        None => Ok(own),
    }
}

/// The bytes that tell a row as a tree under a template. `None` comes exactly where there are none: where the row is refused
/// ([`lay_row`]), or its bytes tell another row, or none.
fn bytes_telling(
    alloc: Global,
    template: &Template,
    row: &Row,
    facts: &Facts,
) -> Result<Option<Bytes>, NoMemory>
    requires { IsRow (template_of template.now) row.now }
    ensures { IfOk result (Decided (λ bytes. (body : PlainBody) × IsTree (Some (template_of template.now)) facts.now bytes body row.now)) }
{
    plain_rows_are_spelled();
    let bytes = match lay_row(alloc, template, row, facts) {
        Ok(bytes) => bytes,
        Err(Stop::Refused(_)) => return Ok(None),
        Err(Stop::NoMemory) => return Err(NoMemory),
    };
    match tree_under(alloc, Some(template), bytes.as_slice(), facts)? {
        Some(again) => {
            if same_row(&again, row) {
                Ok(Some(bytes))
            } else {
                Ok(None)
            }
        }
        None => Ok(None),
    }
}
