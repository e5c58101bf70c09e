//! A map of resources by type and id, and how resources get into it. See `specs/ResSet`.

ghost use Rattle.std.specs.Prelude.{◌≡◌, ◌+◌, ◌<◌, ◌≤◌, length};
ghost use Rattle.rz_core.specs.Resources.{put, put_all};
ghost use Rattle.rz_set.specs.Fates.{all_left};
ghost use Rattle.rz_set.specs.ResSet.{key_of, values_of, AreKeyed, AreNamed};
ghost use Rattle.indexmap.specs.IndexMap.{spare};

use crate::change::{Fate, left};
use indexmap::IndexMap;
use rz_core::Resource;

/// What tells a resource of a list from the others: its type and the 16 bits of its id.
pub type Key = (u32, u16);

/// The key of a resource.
pub fn key_of(resource: &Resource) -> Key
    ensures { result ≡ key_of resource.now.kind resource.now.id }
{
    (resource.kind.code, resource.id.cast_unsigned())
}

/// Puts a resource into a map that has room for it.
fn insert(map: &mut IndexMap<Key, Resource>, resource: Resource)
    requires named { length resource.name < 256 }
    requires keyed { AreKeyed map.old.entries }
    requires room { 0 < spare map.old }
    ensures keyed { AreKeyed map.new.entries }
    ensures values { values_of map.new.entries ≡ put (values_of map.old.entries) resource }
    ensures room { spare map.old ≤ spare map.new + 1 }
{
    let key = key_of(&resource);
    match map.insert(key, resource) {
        Ok(_) => {}
        Err(_) => unreachable!(),
    }
}

/// Puts all of these into a map that has room for them, in order.
pub fn insert_all(map: &mut IndexMap<Key, Resource>, news: Vec<Resource>)
    requires named { AreNamed news.items }
    requires keyed { AreKeyed map.old.entries }
    requires room { length news.items ≤ spare map.old }
    ensures keyed { AreKeyed map.new.entries }
    ensures values { values_of map.new.entries ≡ put_all (values_of map.old.entries) news.items }
{
    for resource in news {
        insert(map, resource);
    }
}

/// Puts the resources of another map, each as its fate leaves it, into a map that has room for them, in order.
pub fn insert_left(
    map: &mut IndexMap<Key, Resource>,
    old: IndexMap<Key, Resource>,
    fates: Vec<Fate>,
)
    requires named { AreNamed (all_left fates.items (values_of old.entries)) }
    requires keyed { AreKeyed map.old.entries }
    requires room { length old.entries ≤ spare map.old }
    ensures keyed { AreKeyed map.new.entries }
    ensures values { values_of map.new.entries ≡ put_all (values_of map.old.entries) (all_left fates.items (values_of old.entries)) }
{
    let mut in_order = fates.into_iter();
    for resource in old.into_values() {
        let fate = in_order.next().unwrap_or(Fate::Stays);
        if let Some(resource) = left(resource, fate) {
            insert(map, resource);
        }
    }
}
