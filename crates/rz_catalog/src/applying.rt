//! A list of resources with the texts of entries in place. See `specs/Apply`.

ghost use Rattle.std.specs.Prelude.{List, map};
ghost use Rattle.rz_core.specs.Stop.{Meets};
ghost use Rattle.rz_types_table.specs.TypeTable.{table_of};
ghost use Rattle.rz_catalog.specs.Apply.{Applied, IsRestrung};
ghost use Rattle.rz_catalog_text.specs.InOrder.{EachInOrder};
ghost use Rattle.rz_catalog.specs.Held.{entry_key, key_eq, leaf_eq, leaf_key, AreFirst};
ghost use Rattle.rz_catalog.specs.Stock.{AreStocked, Stocked};

use crate::check::{Noted, note_entries};
use crate::restring::restring;
use crate::stock::Stock;
use rz_catalog_text::Entries;
use rz_core::{Fault, Moment, Resources, Stop};
use rz_types_table::TypeTable;
use rz_unlay::trees_are_decided;
use std::alloc::Global;

/// The resources of a list with the texts of entries in place of their leaves, under the types that are declared. Each
/// resource with an entry gets the bytes that its row spells with these texts, so that counts and labels are solved again;
/// the others keep theirs.
///
/// Otherwise the fault is the first of the first refused entry, with its mark: 462 where no resource has such a leaf, 219
/// where the resource is protected and `over` isn't set, 463 where an entry before is for the same leaf. After these comes
/// 464, in the order of the list, where a changed row spells no bytes that tell it again, with the mark of the resource's
/// first entry. Each keeps the type and the id. Its time is in proportion to the entries and to what is read and spelled; it
/// takes the memory of one row beside the list, and of a key for each resource and entry.
pub fn apply(
    alloc: Global,
    types: &TypeTable,
    list: &Resources,
    entries: &Entries,
    moment: Moment,
    over: bool,
) -> Result<Resources, Stop<Fault>>
    ensures { Meets result (Applied (table_of types.now) moment over list.now entries.now) }
{
    trees_are_decided();
    let held = Stock::of(alloc, types, list, moment)?;
    match note_entries(alloc, &held, entries, over) {
        Ok(noted) => restring_all(alloc, types, list, entries, &noted, moment),
        Err(stop) => Err(stop),
    }
}

/// Each resource of a list with the texts of its entries in place, where the first entries stand so.
fn restring_all(
    alloc: Global,
    types: &TypeTable,
    list: &Resources,
    entries: &Entries,
    noted: &Noted,
    moment: Moment,
) -> Result<Resources, Stop<Fault>>
    requires firsts { AreFirst key_eq (map entry_key entries.now) noted.now.firsts }
    requires leaves { AreFirst leaf_eq (map leaf_key entries.now) noted.now.leaves }
    ensures { (stock : List Stocked) → AreStocked (table_of types.now) moment list.now stock
        → Meets result (EachInOrder (IsRestrung (table_of types.now) moment entries.now) stock) }
{
    let mut news = Resources::new(alloc);
    let mut k = 0;
    while k < list.len() {
        match restring(alloc, types, list.at(k), entries, noted, moment) {
            Ok(resource) => news.push(resource)?,
            Err(stop) => return Err(stop),
        }
        k += 1;
    }
    Ok(news)
}
