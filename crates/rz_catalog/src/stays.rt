//! Laws of what entries leave as it is, and of where their faults stand, with nothing to run.

ghost use Rattle.std.specs.Prelude.{◌≡◌, ℕ, Bool, List, map, Ok, Err};
ghost use Rattle.rz_core.specs.Message.{IsNameable};
ghost use Rattle.rz_core.specs.declared.fault.Fault.{Fault};
ghost use Rattle.rz_core.specs.declared.moment.Moment.{Moment};
ghost use Rattle.rz_core.specs.declared.resource.Resource.{Resource};
ghost use Rattle.rz_catalog.specs.Apply.{Applied};
ghost use Rattle.rz_catalog.specs.Stays.{bare};
ghost use Rattle.rz_catalog_text.specs.Stored.{AreEntriesIn};
ghost use Rattle.rz_catalog_text.specs.declared.entry.Entry.{Entry};
ghost use Rattle.rz_types_table.specs.Table.{Declaration};

/// A law, with nothing to run: after entries a list has the same resources in the same order, each with its type, its id, its
/// name and its attributes.
pub fn resources_stay()
    ensures { (types : List Declaration) (moment : Moment) (over : Bool) (list new : List Resource) (entries : List Entry)
        → Applied types moment over list entries (Ok new) → map bare new ≡ map bare list }
{}

/// A law, with nothing to run: each fault of entries has a number of the table of faults, and stands where one of them does.
pub fn entry_faults_are_told()
    ensures { (types : List Declaration) (moment : Moment) (over : Bool) (list : List Resource) (entries : List Entry) (fault : Fault) (files : ℕ)
        → Applied types moment over list entries (Err fault) → AreEntriesIn files entries → IsNameable files fault }
{}
