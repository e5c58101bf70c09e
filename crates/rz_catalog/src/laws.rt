//! Laws of catalogues, with nothing to run: a list of resources has one catalogue, whose entries can be stored, and entries are
//! applied to it in one way; and what becomes of rows, of resources and of their catalogue where texts are changed.

ghost use Rattle.std.specs.Prelude.{◌≡◌, ◌↔◌, ℕ, Bool, List, [], length, map, Ok};
ghost use Rattle.std.specs.List.{AllByRecursion};
ghost use Rattle.std.specs.declared.result.Result.{Result};
ghost use Rattle.rz_core.specs.Resources.{KeysDiffer};
ghost use Rattle.rz_core.specs.declared.fault.Fault.{Fault};
ghost use Rattle.rz_core.specs.declared.moment.Moment.{Moment};
ghost use Rattle.rz_core.specs.declared.resource.Resource.{Resource};
ghost use Rattle.rz_types_fields.specs.Field.{PlainBody};
ghost use Rattle.rz_types_fields.specs.Row.{IsRow};
ghost use Rattle.rz_types_fields.specs.declared.tree.Tree.{Tree};
ghost use Rattle.rz_types_table.specs.Table.{Declaration};
ghost use Rattle.rz_catalog_text.specs.Stored.{unmarked, IsStored};
ghost use Rattle.rz_catalog_text.specs.declared.entry.Entry.{Entry};
ghost use Rattle.rz_catalog.specs.Apply.{Applied};
ghost use Rattle.rz_catalog.specs.Became.{with_text, BecameEach};
ghost use Rattle.rz_catalog.specs.Catalogue.{HasKey, IsCatalogue};
ghost use Rattle.rz_catalog.specs.Leaves.{leaves, HasTexts};
ghost use Rattle.rz_catalog.specs.Own.{own_answer};

use rz_layout::one_spelling;
use rz_unlay::{one_tree, plain_rows_are_spelled, spelled_rows_are_rows, trees_are_decided};

/// A law, with nothing to run: a list of resources has one catalogue at most.
pub fn one_catalogue()
    ensures { (types : List Declaration) (moment : Moment) (list : List Resource) (entries others : List Entry)
        → IsCatalogue types moment list entries → IsCatalogue types moment list others → entries ≡ others }
{
    one_tree();
}

/// A law, with nothing to run: each list of resources has a catalogue; [`one_catalogue`] says that it has no other.
pub fn every_catalogue()
    ensures { (types : List Declaration) (moment : Moment) (list : List Resource) → (entries : List Entry) × IsCatalogue types moment list entries }
{
    trees_are_decided();
}

/// A law, with nothing to run: the entries of a catalogue have what every entry has, so that they can be written and read
/// again: each place is below 2^32, and each text is bytes.
pub fn catalogues_are_stored()
    ensures { (types : List Declaration) (moment : Moment) (list : List Resource) (entries : List Entry) → AllByRecursion HasKey list
        → IsCatalogue types moment list entries → AllByRecursion IsStored entries }
{}

/// A law, with nothing to run: entries that are applied to a list of resources have one answer at most, a list or a fault.
pub fn one_application()
    ensures { (types : List Declaration) (moment : Moment) (over : Bool) (list : List Resource) (entries : List Entry)
        (answer other : Result (List Resource) Fault)
        → Applied types moment over list entries answer → Applied types moment over list entries other → answer ≡ other }
{
    one_tree();
    one_spelling();
    plain_rows_are_spelled();
}

/// A law, with nothing to run: whatever entries are applied to whatever list of resources, there is an answer;
/// [`one_application`] says that there is no other.
pub fn every_application()
    ensures { (types : List Declaration) (moment : Moment) (over : Bool) (list : List Resource) (entries : List Entry)
        → (answer : Result (List Resource) Fault) × Applied types moment over list entries answer }
{
    one_tree();
    trees_are_decided();
    one_spelling();
    plain_rows_are_spelled();
    spelled_rows_are_rows();
}

/// A law, with nothing to run: where no two resources of a list have the same type and id, the entries of its own catalogue,
/// wherever they were read, give the list again. Only where protected resources may not be changed, the first entry of
/// such a resource is refused (219).
pub fn own_catalogue()
    ensures { (types : List Declaration) (moment : Moment) (over : Bool) (list : List Resource) (entries : List Entry) → KeysDiffer [] list
        → IsCatalogue types moment list (map unmarked entries) → Applied types moment over list entries (own_answer over list entries) }
{}

/// A law, with nothing to run: the catalogue of the list to which entries were applied is the old one with their texts in place.
pub fn changed_catalogue()
    ensures { (types : List Declaration) (moment : Moment) (over : Bool) (list new : List Resource) (entries own : List Entry)
        → Applied types moment over list entries (Ok new) → IsCatalogue types moment list own
        → IsCatalogue types moment new (map (with_text entries) own) }
{
    one_tree();
}

/// A law, with nothing to run: where entries were applied, each resource stays in its place and keeps its type, id, name and
/// attributes; one that has a tree has the same row with the texts in place as its tree; and one without an entry, or
/// without a tree, is the same resource.
pub fn others_stay()
    ensures { (types : List Declaration) (moment : Moment) (over : Bool) (list new : List Resource) (entries : List Entry)
        → Applied types moment over list entries (Ok new) → BecameEach types moment entries list new }
{
    one_tree();
}

/// A law, with nothing to run: a row of a type with other texts is a row of that type.
pub fn changed_rows_are_rows()
    ensures { (body : PlainBody) (texts : List (List ℕ)) (old new : List Tree) → IsRow body old → HasTexts texts old new → IsRow body new }
{}

/// A law, with nothing to run: a row has one row at most that differs from it by these texts alone.
pub fn one_changed_row()
    ensures { (texts : List (List ℕ)) (old new other : List Tree) → HasTexts texts old new → HasTexts texts old other → new ≡ other }
{}

/// A law, with nothing to run: where there are as many texts as the row has leaves, there is such a row.
pub fn every_changed_row()
    ensures { (texts : List (List ℕ)) (old : List Tree) → length texts ≡ length (leaves old) → (new : List Tree) × HasTexts texts old new }
{}

/// A law, with nothing to run: with its own texts a row is itself, and no other row.
pub fn own_texts_change_nothing()
    ensures { (old new : List Tree) → HasTexts (leaves old) old new ↔ (new ≡ old) }
{}
