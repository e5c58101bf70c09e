//! What is held of the resources of a list while entries are checked. See `specs/Held`.

ghost use Rattle.std.specs.Prelude.{◌≡◌, IfOk, List, Option, option_map, slice_get};
ghost use Rattle.rz_core.specs.Decided.{Decided};
ghost use Rattle.rz_types_fields.specs.declared.tree.Tree.{Tree};
ghost use Rattle.rz_types_table.specs.TypeTable.{table_of};
ghost use Rattle.rz_catalog.specs.Apply.{first_such, is_entry_for};
ghost use Rattle.rz_catalog.specs.Held.{held_of, IsHeld};
ghost use Rattle.rz_catalog.specs.Stock.{AreStocked, HasTree, Stocked};

use crate::held::{Places, entry_key, note, resource_key};
use crate::listed::{facts_of, template_for, texts_under};
use rz_catalog_text::Entry;
use rz_core::{Listing, Moment, NoMemory, Resource, Resources};
use rz_types_table::TypeTable;
use std::alloc::Global;

/// What is held of a resource.
#[derive(Clone, Copy, Debug, Drop)]
pub struct Held {
    /// The number of its leaves.
    pub leaves: u64,
    /// Whether it is protected.
    pub protected: bool,
}

/// What is held of the resources of a list, and where the first one with each key stands.
#[derive(Drop)]
pub struct Stock {
    places: Places,
    each: Listing<Held>,
}

impl Stock {
    /// What is held of a list under the types that are declared. Each resource is read once.
    pub fn of(
        alloc: Global,
        types: &TypeTable,
        list: &Resources,
        moment: Moment,
    ) -> Result<Stock, NoMemory>
        ensures { (stock : List Stocked) → AreStocked (table_of types.now) moment list.now stock → IfOk result (IsHeld stock) }
    {
        let mut places = Places::new(alloc);
        let mut each = Listing::new(alloc);
        let mut k = 0;
        while k < list.len() {
            let resource = list.at(k);
            note(&mut places, resource_key(resource), k as usize)?;
            each.push(held_of(alloc, types, resource, moment)?)?;
            k += 1;
        }
        Ok(Stock { places, each })
    }

    /// What is held of the first resource that an entry is for, if there is one.
    pub fn find(&self, entry: &Entry) -> Option<Held>
        ensures { (stock : List Stocked) → IsHeld stock self.now → result ≡ option_map held_of (first_such (λ s. is_entry_for s.resource entry.now) stock) }
    {
        match self.places.get(&entry_key(entry)) {
            Some(place) => held_at(&self.each, *place as u64),
            None => None,
        }
    }
}

/// What is held at a place, if it is one.
#[tactic(auto, using(crate::proofs::Firsts::none_past))]
fn held_at(each: &Listing<Held>, place: u64) -> Option<Held>
    ensures { result ≡ slice_get each.now place }
{
    if place < each.len() {
        Some(*each.at(place))
    } else {
        None
    }
}

/// What is held of a resource.
fn held_of(
    alloc: Global,
    types: &TypeTable,
    resource: &Resource,
    moment: Moment,
) -> Result<Held, NoMemory>
    ensures { (row : Option (List Tree)) → Decided (HasTree (table_of types.now) moment resource.now) row
        → IfOk result (λ held. held ≡ held_of (record { resource = resource.now; tree = row })) }
{
    let facts = facts_of(alloc, resource, moment)?;
    let texts = texts_under(
        alloc,
        template_for(types, resource),
        &facts,
        resource.bytes.as_slice(),
    )?;
    Ok(Held {
        leaves: texts.len(),
        protected: resource.is_protected(),
    })
}
