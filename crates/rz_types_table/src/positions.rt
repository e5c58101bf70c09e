//! In which slots the declarations of each group stand. What is held is in `specs/Positions`.

ghost use Rattle.std.specs.Prelude.{◌≡◌, ◌<◌, ℕ, ℤ, [], ◌∷◌, ◌++◌, length, if◌then◌else◌, slice_get, OnErr, OnOk, Option};
ghost use Rattle.std.specs.List.{remove};
ghost use Rattle.rz_types_table.specs.Positions.{group_of, held, id_of, same_group};

use crate::table::Scope;
use rz_core::{NoMemory, OsType};
use std::alloc::Global;
use std::collections::HashMap;

/// Declarations that are looked through together: the code of a type and an id for those of the type for this very id, and
/// without an id those of the type for ranges and for any id.
pub type Group = (u32, Option<i16>);

/// The positions of the slots of declarations, from 0 and ascending, by their groups.
pub type Places = HashMap<Group, Vec<usize>>;

/// The group of the declarations of a type for a scope.
pub fn group_of(kind: OsType, scope: Scope) -> Group
    ensures { result ≡ group_of kind scope }
{
    (kind.code, id_of(scope))
}

/// The id that a scope is for, where it is for one alone.
fn id_of(scope: Scope) -> Option<i16>
    ensures { result ≡ id_of scope }
{
    match scope {
        Scope::Id(own) => Some(own),
        Scope::Range(..) | Scope::Any => None,
    }
}

/// The positions that are held for a group. Its time is constant on average.
pub fn held(places: &Places, group: Group) -> &[usize]
    ensures { result.now ≡ held group places.now }
{
    match places.get(&group) {
        Some(own) => own,
        None => &[],
    }
}

/// Adds a position after those of its group.
pub fn add(
    alloc: Global,
    places: &mut Places,
    group: Group,
    position: usize,
) -> Result<(), NoMemory>
    ensures ok { OnOk result ((other : ℕ × Option ℤ) → held other places.new ≡ held other places.old ++ (if same_group group other then position ∷ [] else [])) }
    ensures err { OnErr result ((other : ℕ × Option ℤ) → held other places.new ≡ held other places.old) }
{
    match places.get_mut(&group) {
        Some(own) => {
            own.push(position)?;
            Ok(())
        }
        None => {
            places.insert(group, vec![in alloc; position]?)?;
            Ok(())
        }
    }
}

/// Takes the position at this index out of those of its group, and gives it.
pub fn take_position(places: &mut Places, group: Group, index: usize) -> Option<usize>
    requires { index < length (held group places.old) }
    ensures position { result ≡ slice_get (held group places.old) index }
    ensures places { (other : ℕ × Option ℤ) → held other places.new ≡ (if same_group group other then remove (held other places.old) index else held other places.old) }
{
    match places.get_mut(&group) {
        Some(own) => Some(own.remove(index)),
        None => None,
    }
}
