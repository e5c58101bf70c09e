//! What a change makes of a resource, and a resource under a head. See `specs/Fates` and `specs/After`.

ghost use Rattle.std.specs.Prelude.{◌≡◌, IfOk};
ghost use Rattle.rz_set.specs.After.{under_head};
ghost use Rattle.rz_set.specs.Fates.{keeps_key, left};

use crate::pick::Head;
use rz_core::{Bytes, NoMemory, OsType, Resource};
use std::alloc::Global;

/// What a change makes of a resource of a set.
#[derive(Drop)]
pub enum Fate {
    /// It stays as it is.
    Stays,
    /// It is taken out, since a changed one has its type and id.
    GivesWay,
    /// It comes under this head.
    ComesUnder(Head),
}

/// A copy of a head.
pub fn copy_head(alloc: Global, head: &Head) -> Result<Head, NoMemory>
    ensures { IfOk result (λ copy. copy ≡ head.now) }
{
    let name = match &head.name {
        Some(name) => Some(Bytes::of(alloc, name.as_slice())?),
        None => None,
    };
    Ok(Head {
        kind: head.kind,
        id: head.id,
        name,
        attr: head.attr,
    })
}

/// Whether a head leaves a resource with this type and this id both of them.
pub fn keeps_key(head: &Head, kind: OsType, id: i16) -> bool
    ensures { result ≡ keeps_key head.now kind id }
{
    head.kind.code == kind.code && head.id.unwrap_or(id).cast_unsigned() == id.cast_unsigned()
}

/// The resource as its fate leaves it, if it does.
pub fn left(resource: Resource, fate: Fate) -> Option<Resource>
    ensures { result ≡ left fate resource }
{
    match fate {
        Fate::Stays => Some(resource),
        Fate::GivesWay => None,
        Fate::ComesUnder(head) => {
            let mut changed = resource;
            come_under(&mut changed, head);
            Some(changed)
        }
    }
}

/// Gives a resource what a head has in place of its own.
pub fn come_under(resource: &mut Resource, head: Head)
    ensures { resource.new ≡ under_head head resource.old }
{
    let Head {
        kind,
        id,
        name,
        attr,
    } = head;
    resource.kind = kind;
    if let Some(id) = id {
        resource.id = id;
    }
    if let Some(name) = name {
        resource.name = name;
    }
    if let Some(attr) = attr {
        resource.attr = attr;
    }
}
