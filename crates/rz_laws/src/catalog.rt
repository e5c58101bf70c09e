//! Laws of two catalogues, and of the order of entries. See `rz_catalog`, `specs/Apply`.

ghost use Rattle.std.specs.Prelude.{◌≡◌, ◌↔◌, ◌++◌, Bool, IsPermutation, List, Ok, Err};
ghost use Rattle.std.specs.declared.result.Result.{Result};
ghost use Rattle.rz_core.specs.declared.fault.Fault.{Fault};
ghost use Rattle.rz_core.specs.declared.moment.Moment.{Moment};
ghost use Rattle.rz_core.specs.declared.resource.Resource.{Resource};
ghost use Rattle.rz_catalog.specs.Apply.{Applied};
ghost use Rattle.rz_catalog_text.specs.declared.entry.Entry.{Entry};
ghost use Rattle.rz_laws.specs.Apart.{AreApart};
ghost use Rattle.rz_types_table.specs.Table.{Declaration};

use rz_catalog::one_application;
use rz_unlay::{one_tree, trees_are_decided};

/// A law, with nothing to run: entries for some resources and then entries for others give exactly the list that all of
/// them give at once.
pub fn apart_catalogues_are_both_at_once()
    ensures { (types : List Declaration) (moment : Moment) (over : Bool) (list new : List Resource) (entries others : List Entry)
        → AreApart entries others
        → Applied types moment over list (entries ++ others) (Ok new)
        ↔ ((middle : List Resource) × Applied types moment over list entries (Ok middle) × Applied types moment over middle others (Ok new)) }
{
    one_tree();
    trees_are_decided();
}

/// A law, with nothing to run: the same entries in another order give the same list, or are refused too, though maybe
/// by another fault.
pub fn order_plays_no_part()
    ensures list { (types : List Declaration) (moment : Moment) (over : Bool) (list new : List Resource) (entries others : List Entry)
        → IsPermutation entries others → Applied types moment over list entries (Ok new) → Applied types moment over list others (Ok new) }
    ensures refused { (types : List Declaration) (moment : Moment) (over : Bool) (list : List Resource) (entries others : List Entry)
        (fault : Fault) (answer : Result (List Resource) Fault)
        → IsPermutation entries others → Applied types moment over list entries (Err fault) → Applied types moment over list others answer
        → (another : Fault) × (answer ≡ Err another) }
{
    one_application();
}
