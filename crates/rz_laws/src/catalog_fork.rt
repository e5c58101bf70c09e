//! Laws of forks whose resources have the texts of entries in place. See `rz_catalog`, `specs/Apply`, and `rz_fork`,
//! `specs/Image` and `specs/Admit`.

ghost use Rattle.std.specs.Prelude.{◌≡◌, ◌<◌, ℕ, map, Bool, List, Ok};
ghost use Rattle.std.specs.List.{AllByRecursion};
ghost use Rattle.rz_core.specs.declared.moment.Moment.{Moment};
ghost use Rattle.rz_core.specs.declared.resource.Resource.{Resource};
ghost use Rattle.rz_catalog.specs.Apply.{Applied};
ghost use Rattle.rz_catalog.specs.Became.{with_text};
ghost use Rattle.rz_catalog.specs.Catalogue.{IsCatalogue};
ghost use Rattle.rz_catalog_text.specs.declared.entry.Entry.{Entry};
ghost use Rattle.rz_fork.specs.Admit.{admitted};
ghost use Rattle.rz_fork.specs.Contents.{Fork};
ghost use Rattle.rz_fork.specs.Image.{fork_of};
ghost use Rattle.rz_laws.specs.Kept.{AreBytes};
ghost use Rattle.rz_types_table.specs.Table.{Declaration};

use crate::{
    admitted_lists_are_grouped, written_forks_are_bytes, written_forks_are_of_their_lists,
};
use rz_catalog::{changed_catalogue, others_stay};
use rz_fork::admitted_forks_fit;
use rz_unlay::trees_are_decided;

/// A law, with nothing to run: where entries were applied to the resources of an admitted fork, the fork that is
/// written of the changed ones, with the same attributes and reserved bytes, is bytes that are admitted as these, in their
/// order; and its catalogue is that of the old fork with the texts of the entries.
pub fn changed_forks_have_the_texts()
    ensures { (types : List Declaration) (moment : Moment) (over : Bool) (bytes output : List ℕ) (fork : Fork) (entries own : List Entry) (new : List Resource)
        → AllByRecursion (λ b. b < 256) bytes → admitted bytes ≡ Ok fork → Applied types moment over fork.list entries (Ok new)
        → fork_of new fork.attributes fork.reserved ≡ Ok output → IsCatalogue types moment fork.list own
        → (again : Fork) × (admitted output ≡ Ok again) × (again.list ≡ new) × IsCatalogue types moment again.list (map (with_text entries) own) × AreBytes output }
{
    admitted_forks_fit();
    admitted_lists_are_grouped();
    written_forks_are_of_their_lists();
    written_forks_are_bytes();
    trees_are_decided();
    others_stay();
    changed_catalogue();
}
