//! The set of resources: what it holds and what is found in it. Its changes and refusals are in the modules below, and
//! what they leave in `specs/After` and `specs/Change`.

ghost use Rattle.std.specs.Prelude.{◌≡◌, ◌<◌, [], length, slice_get, None, Some, IfOk, IfErr};
ghost use Rattle.std.specs.Option.{option_copied};
ghost use Rattle.rz_core.specs.Resources.{KeysDiffer};
ghost use Rattle.rz_set.specs.Choice.{chooses, found_name, missing, picked};
ghost use Rattle.rz_set.specs.ResSet.{found, AreNamed};
ghost use Rattle.rz_set.specs.Wanted.{is_wanted};

mod changing;
mod putting;
mod removing;

use crate::among::pair_of;
use crate::entries::{Key, insert_all};
use crate::pick::{Pick, SetFault};
use crate::wanted::{Wanted, wanted_as};
use indexmap::IndexMap;
use rz_core::{NoMemory, OsType, Resource, Resources};
use std::alloc::Global;
use std::marker::Model;

/// The resources of a program while its statements are read: at most one of each type and id, in the order
/// in which their types and ids were first put. Contracts see it as the list of the resources. (Inside
/// Macintosh: More Macintosh Toolbox, Resource Manager.)
#[derive(Drop)]
pub struct ResSet {
    map: IndexMap<Key, Resource>,
}

impl Model for ResSet {
    ghost use Rattle.std.specs.Prelude.{List};
    ghost use Rattle.rz_core.specs.declared.resource.Resource.{Resource};
    ghost use Rattle.rz_set.specs.ResSet.{values_of, AreKeyed};

    ghost Value = { List Resource };

    ghost view = { λ set. values_of set.map.entries };

    ghost invariant = { λ set. AreKeyed set.map.entries };
}

impl ResSet {
    /// The set without resources. It takes no memory.
    pub fn new(alloc: Global) -> ResSet
        ensures { result ≡ [] }
    {
        ResSet {
            map: IndexMap::new(alloc),
        }
    }

    /// The set of the resources of a list whose types and ids differ, in order. No resource is copied; where
    /// memory is refused, all are dropped. Its time is linear in the list on average.
    pub fn of_list(alloc: Global, list: Resources) -> Result<ResSet, NoMemory>
        requires keys { KeysDiffer [] list }
        requires named { AreNamed list }
        ensures { IfOk result (λ set. set ≡ list) }
    {
        let news = list.into_vec();
        let mut map = IndexMap::with_capacity(alloc, news.len())?;
        insert_all(&mut map, news);
        Ok(ResSet { map })
    }

    /// The number of resources.
    pub fn len(&self) -> u64
        ensures { result ≡ length self.now }
    {
        self.map.len() as u64
    }

    /// The resource at a position, from 0.
    pub fn at(&self, k: u64) -> &Resource
        requires { k < length self.now }
        ensures { slice_get self.now k ≡ Some result.now }
    {
        &self.map[k as usize]
    }

    /// The resource that has a type and an id, or nothing where there is none. Its time is constant on
    /// average, whatever the set holds.
    pub fn find(&self, kind: OsType, id: i16) -> Option<&Resource>
        ensures { option_copied result ≡ found kind id self.now }
    {
        self.map.get(&(kind.code, id.cast_unsigned()))
    }

    /// The first resource of a type that has exactly this name, or nothing where there is none. It goes over
    /// the set once.
    pub fn find_name(&self, kind: OsType, name: &[u8]) -> Option<&Resource>
        ensures { option_copied result ≡ found_name kind name.now self.now }
    {
        for resource in self.map.values() {
            if kind.code == resource.kind.code && name == resource.name.as_slice() {
                return Some(resource);
            }
        }
        None
    }

    /// What a pick chooses by type and id, or that there is no such resource.
    fn wanted(&self, kind: OsType, pick: &Pick) -> Result<Wanted, SetFault>
        ensures chooses { IfOk result (λ wanted. is_wanted wanted ≡ chooses kind pick.now self.now) }
        ensures there { IfOk result (λ wanted. missing kind pick.now self.now ≡ None) }
        ensures missing { IfErr result (λ fault. missing kind pick.now self.now ≡ Some fault) }
    {
        wanted_as(kind, pick, pair_of(self.picked(kind, pick)))
    }

    /// The resource that a pick by id or name finds.
    fn picked(&self, kind: OsType, pick: &Pick) -> Option<&Resource>
        ensures { option_copied result ≡ picked kind pick.now self.now }
    {
        match pick {
            Pick::Id(id) => self.find(kind, *id),
            Pick::Name(name) => self.find_name(kind, name.as_slice()),
            Pick::All | Pick::Range(..) => None,
        }
    }

    /// The resources as a list, in order. No resource is copied; where memory is refused for the list, all
    /// are dropped.
    pub fn into_list(self, alloc: Global) -> Result<Resources, NoMemory>
        ensures list { IfOk result (λ list. list ≡ self) }
        ensures keys { IfOk result (KeysDiffer []) }
        ensures named { IfOk result AreNamed }
    {
        let ResSet { map } = self;
        let mut list = Resources::new(alloc);
        for resource in map.into_values() {
            list.push(resource)?;
        }
        Ok(list)
    }

    /// The pairs of type and id differ, with nothing to run.
    pub fn keys_differ(&self)
        ensures { KeysDiffer [] self.now }
    {
        let _ = &self.map;
    }

    /// Each name has fewer than 256 bytes, with nothing to run.
    pub fn names_are_short(&self)
        ensures { AreNamed self.now }
    {
        let _ = &self.map;
    }
}
