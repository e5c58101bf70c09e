//! The one resource of a fork that a type and an id or a name find, lent where it stands in the bytes of the fork.

ghost use Rattle.std.specs.Prelude.{◌≡◌};
ghost use Rattle.rz_set.specs.Choice.{found_name, picked};
ghost use Rattle.rz_set.specs.ResSet.{found};
ghost use Rattle.rz_tools_values.specs.Lent.{lent_one};

use rz_core::OsType;
use rz_fork::{ForkView, ResView};
use rz_set::Pick;

/// The resource of a fork that a pick by id or name finds, or nothing where it finds none. Other picks are for no one
/// resource.
pub fn picked_in<'a>(fork: &ForkView<'a>, kind: OsType, pick: &Pick) -> Option<ResView<'a>>
    ensures { lent_one result ≡ picked kind pick.now fork.now.list }
{
    match pick {
        Pick::Id(id) => found_in(fork, kind, *id),
        Pick::Name(name) => found_name_in(fork, kind, name.as_slice()),
        Pick::All | Pick::Range(..) => None,
    }
}

/// The first resource of a fork that has a type and an id, or nothing where there is none. It goes over the map once, and
/// copies nothing.
pub fn found_in<'a>(fork: &ForkView<'a>, kind: OsType, id: i16) -> Option<ResView<'a>>
    ensures { lent_one result ≡ found kind id fork.now.list }
{
    let mut walk = fork.walk();
    while let Some(one) = walk.next() {
        if kind.code == one.kind.code && id.cast_unsigned() == one.id.cast_unsigned() {
            return Some(one);
        }
    }
    None
}

/// The first resource of a fork that is of a type and has exactly this name, or nothing where there is none. It goes over
/// the map once, and copies nothing.
pub fn found_name_in<'a>(fork: &ForkView<'a>, kind: OsType, name: &[u8]) -> Option<ResView<'a>>
    ensures { lent_one result ≡ found_name kind name.now fork.now.list }
{
    let mut walk = fork.walk();
    while let Some(one) = walk.next() {
        if kind.code == one.kind.code && name == one.name {
            return Some(one);
        }
    }
    None
}
