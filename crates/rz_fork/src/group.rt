//! Resources by type, the types in the order of their first resources; changed only with `specs/Groups`.

ghost use Rattle.std.specs.Prelude.{◌≡◌, [], IfOk};
ghost use Rattle.std.specs.List.{flat_map};
ghost use Rattle.rz_fork.specs.Groups.{shown, members_of, AreGroups};

use indexmap::IndexSet;
use rz_core::{NoMemory, Resource};
use std::alloc::Global;

/// The resources of one type, in their order.
#[derive(Drop)]
pub struct Group<'a> {
    /// The type's 4 bytes as a number.
    pub code: u32,
    /// The resources, in their order.
    pub members: Vec<&'a Resource>,
}

/// The resources by type, the types in the order of their first resources. The time is linear in the
/// number of resources.
pub fn groups_in<'a>(alloc: Global, list: &'a [Resource]) -> Result<Vec<Group<'a>>, NoMemory>
    ensures { IfOk result (λ groups. AreGroups list.now groups.items) }
{
    let mut kinds = IndexSet::new(alloc);
    let mut groups = Vec::new(alloc);
    let ended = put_groups(alloc, list, &mut kinds, &mut groups);
    drop(kinds);
    match ended {
        Ok(()) => Ok(groups),
        Err(NoMemory) => {
            drop(groups);
            Err(NoMemory)
        }
    }
}

/// Puts each resource into its group; there is none yet, and no type was met.
fn put_groups<'a>(
    alloc: Global,
    list: &'a [Resource],
    kinds: &mut IndexSet<u32>,
    groups: &mut Vec<Group<'a>>,
) -> Result<(), NoMemory>
    requires kinds { kinds.old.keys ≡ [] }
    requires groups { groups.old.items ≡ [] }
    ensures { IfOk result (λ done. AreGroups list.now groups.new.items) }
{
    for resource in list {
        let code = resource.kind.code;
        let (place, added) = kinds.insert_full(code)?;
        if added {
            groups.push(Group {
                code,
                members: Vec::new(alloc),
            })?;
        }
        groups[place].members.push(resource)?;
    }
    Ok(())
}

/// The resources of all groups, one group after the other.
pub fn in_order<'a>(alloc: Global, groups: &[Group<'a>]) -> Result<Vec<&'a Resource>, NoMemory>
    ensures { IfOk result (λ order. shown order.items ≡ flat_map members_of groups.now) }
{
    let mut order = Vec::new(alloc);
    for group in groups {
        order.extend_from_slice(&group.members)?;
    }
    Ok(order)
}
