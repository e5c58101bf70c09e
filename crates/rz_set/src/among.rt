//! What a pick chooses in a list, by id or by name; changed only with `specs/Choice`.

ghost use Rattle.std.specs.Prelude.{◌≡◌};
ghost use Rattle.std.specs.Option.{option_copied, option_map};
ghost use Rattle.rz_set.specs.Choice.{found_name, key_pair, picked, the_choice};
ghost use Rattle.rz_set.specs.ResSet.{found};

use crate::pick::{Choice, Pick};
use rz_core::{OsType, Resource};

/// The type and the id of the resource that the pick by id or name of a choice finds in a list, if there is one.
pub fn chosen_in(list: &[Resource], choice: &Choice) -> Option<(OsType, i16)>
    ensures { result ≡ option_map key_pair (the_choice choice.now list.now) }
{
    match choice {
        Choice::All | Choice::Except(_) => None,
        Choice::Chosen(kind, pick) => pair_of(picked_in(list, *kind, pick)),
    }
}

/// The type and the id of a resource, if it is there.
pub fn pair_of(one: Option<&Resource>) -> Option<(OsType, i16)>
    ensures { result ≡ option_map key_pair (option_copied one.entry) }
{
    match one {
        Some(one) => Some((one.kind, one.id)),
        None => None,
    }
}

/// The resource that a pick by id or name finds in a list.
fn picked_in<'a>(list: &'a [Resource], kind: OsType, pick: &Pick) -> Option<&'a Resource>
    ensures { option_copied result ≡ picked kind pick.now list.now }
{
    match pick {
        Pick::Id(id) => find_in(list, kind, *id),
        Pick::Name(name) => find_name_in(list, kind, name.as_slice()),
        Pick::All | Pick::Range(..) => None,
    }
}

/// The first resource of a list that has a type and an id, or nothing where there is none. It goes over the list once.
fn find_in(list: &[Resource], kind: OsType, id: i16) -> Option<&Resource>
    ensures { option_copied result ≡ found kind id list.now }
{
    for resource in list {
        if kind.code == resource.kind.code && id.cast_unsigned() == resource.id.cast_unsigned() {
            return Some(resource);
        }
    }
    None
}

/// The first resource of a list that is of a type and has exactly this name, or nothing where there is none. It goes
/// over the list once.
fn find_name_in<'a>(list: &'a [Resource], kind: OsType, name: &[u8]) -> Option<&'a Resource>
    ensures { option_copied result ≡ found_name kind name.now list.now }
{
    for resource in list {
        if kind.code == resource.kind.code && name == resource.name.as_slice() {
            return Some(resource);
        }
    }
    None
}
