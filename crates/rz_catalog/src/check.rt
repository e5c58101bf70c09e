//! Entries that are checked, one after the other. Their faults are in `specs/Apply`.

ghost use Rattle.std.specs.Prelude.{◌≡◌, IfOk, List, map, None, Option, option_map, Some};
ghost use Rattle.rz_core.specs.Stop.{OnFault};
ghost use Rattle.rz_catalog.specs.Apply.{fault_for, fault_of, first_refused};
ghost use Rattle.rz_catalog.specs.Held.{entry_key, held_of, key_eq, leaf_eq, leaf_key, AreFirst, IsHeld};
ghost use Rattle.rz_catalog.specs.Stock.{Stocked};

use crate::held::{LeafPlaces, Places, entry_key, leaf_key, note, note_leaf};
use crate::stock::{Held, Stock};
use rz_catalog_text::{Entries, Entry};
use rz_core::{Fault, Kept, Stop};
use std::alloc::Global;

/// Where the first entry for each resource, and the one for each leaf, stands.
#[derive(Drop)]
pub struct Noted {
    /// The first entry for each resource.
    pub firsts: Places,
    /// The first entry for each leaf.
    pub leaves: LeafPlaces,
}

/// Where entries stand, if none of them is refused. The first fault of the first refused one is the answer: 462 where there
/// is no such leaf, 219 for a protected resource without `over`, 463 for a leaf of an entry before (kept: the type and the
/// id). Its time is in proportion to the entries.
pub fn note_entries(
    alloc: Global,
    held: &Stock,
    entries: &Entries,
    over: bool,
) -> Result<Noted, Stop<Fault>>
    ensures ok { (stock : List Stocked) → IsHeld stock held.now → IfOk result (λ noted. first_refused over stock entries.now ≡ None) }
    ensures fault { (stock : List Stocked) → IsHeld stock held.now → OnFault result (λ fault. first_refused over stock entries.now ≡ Some fault) }
    ensures firsts { IfOk result (λ noted. AreFirst key_eq (map entry_key entries.now) noted.firsts) }
    ensures leaves { IfOk result (λ noted. AreFirst leaf_eq (map leaf_key entries.now) noted.leaves) }
{
    let mut firsts = Places::new(alloc);
    let mut leaves = LeafPlaces::new(alloc);
    let mut k = 0;
    while k < entries.len() {
        let entry = entries.at(k);
        let twice = leaves.contains_key(&leaf_key(entry));
        match entry_fault(held.find(entry), twice, over, entry) {
            Some(fault) => return Err(Stop::Refused(fault)),
            None => {}
        }
        note(&mut firsts, entry_key(entry), k as usize)?;
        note_leaf(&mut leaves, leaf_key(entry), k as usize)?;
        k += 1;
    }
    Ok(Noted { firsts, leaves })
}

/// The fault of an entry for a resource of which so much is held, or for none, where one before it is for its leaf or not.
fn entry_fault(found: Option<Held>, twice: bool, over: bool, entry: &Entry) -> Option<Fault>
    ensures { (s : Option Stocked) → found ≡ option_map held_of s → result ≡ fault_for over s twice entry.now }
{
    match found {
        Some(held) if u64::from(entry.leaf) < held.leaves => {
            if !over && held.protected {
                Some(fault_of(219, entry))
            } else if twice {
                Some(fault_of(463, entry))
            } else {
                None
            }
        }
        _ => Some(fault_of(462, entry)),
    }
}

/// A fault of an entry.
pub fn fault_of(number: u16, entry: &Entry) -> Fault
    ensures { result ≡ fault_of number entry.now }
{
    Fault {
        number,
        mark: Some(entry.mark),
        kept: Kept::Key(entry.kind, i32::from(entry.id)),
    }
}
