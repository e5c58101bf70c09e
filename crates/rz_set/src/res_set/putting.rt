//! Resources are put into a set. What each call leaves is in `specs/After`.

ghost use Rattle.std.specs.Prelude.{◌≡◌, ◌<◌, length, OnOk, OnErr};
ghost use Rattle.std.specs.List.{flat_map};
ghost use Rattle.std.specs.Option.{option_copied};
ghost use Rattle.rz_core.specs.Resources.{put, put_all};
ghost use Rattle.rz_set.specs.After.{after_include, after_put, after_put_each, as_list, forbidden, replaced, HasShortName, Leaves};
ghost use Rattle.rz_set.specs.ResSet.{found, AreNamed};

use crate::entries::{insert_all, key_of};
use crate::include::{copy_all, included_by};
use crate::pick::{Choice, Head, SetFault};
use crate::protection::forbidden;
use crate::res_set::ResSet;
use rz_core::{NoMemory, OsType, Resource, Resources, Stop};

impl ResSet {
    /// Puts a resource into the set: in the place of the one that has its type and id, else at the end. The
    /// one whose place it takes is dropped. A protected one isn't replaced where `over` isn't set: then the call
    /// is refused. After a refusal, and where memory is refused, the set is unchanged, and the resource is
    /// dropped. Its time is constant on average, whatever the set holds. (MPW Rez, option -ov.)
    pub fn put(&mut self, resource: Resource, over: bool) -> Result<(), Stop<SetFault>>
        requires { length resource.name < 256 }
        ensures { Leaves self.old (after_put over resource self.old) result self.new }
    {
        if let Some(fault) = self.forbidden_at(resource.kind, resource.id, over) {
            return Err(Stop::Refused(fault));
        }
        match self.put_in_place(resource) {
            Ok(()) => Ok(()),
            Err(NoMemory) => Err(Stop::NoMemory),
        }
    }

    /// Puts all of these into the set, in order, each in the place of the one that has its type and id, else at the
    /// end. If one of them would replace a protected resource of the set and `over` isn't set, the call is refused,
    /// with the first such resource. After a refusal, and where memory is refused, the set is unchanged and the
    /// resources are dropped. It takes constant time on average for each of them. (MPW Rez, option -ov.)
    pub fn put_each(&mut self, news: Vec<Resource>, over: bool) -> Result<(), Stop<SetFault>>
        requires { AreNamed news.items }
        ensures { Leaves self.old (after_put_each over news.items self.old) result self.new }
    {
        match self.forbidden_by(&news, over) {
            Some(fault) => Err(Stop::Refused(fault)),
            None => match self.put_all(news) {
                Ok(()) => Ok(()),
                Err(NoMemory) => Err(Stop::NoMemory),
            },
        }
    }

    /// Puts copies of the chosen resources of another list, in order, each with the type, id, name and
    /// attributes of a head in place of its own, where the head has them. A pick by id or name that chooses none
    /// is refused, and so is one by which a protected resource of the set would be replaced, if `over` isn't
    /// set. After a refusal, and where memory is refused, the set is unchanged. It goes over the other list a
    /// few times, and takes constant time on average for each resource that is put.
    pub fn include(
        &mut self,
        source: &Resources,
        choice: &Choice,
        head: Option<&Head>,
        over: bool,
    ) -> Result<(), Stop<SetFault>>
        requires named { AreNamed source.now }
        requires head { HasShortName (option_copied head) }
        ensures { Leaves self.old (after_include source.now choice.now (option_copied head.entry) over self.old) result self.new }
    {
        let alloc = *self.map.allocator();
        let included = match included_by(source.as_slice(), choice) {
            Ok(included) => included,
            Err(fault) => return Err(Stop::Refused(fault)),
        };
        let news = match copy_all(alloc, source.as_slice(), included, head) {
            Ok(news) => news,
            Err(NoMemory) => return Err(Stop::NoMemory),
        };
        self.put_each(news, over)
    }

    /// The fault of the resource of the set that has this type and id, if there is one, it is protected and `over`
    /// isn't set: a put of a resource with this type and id would be refused with it. Its time is constant on average,
    /// whatever the set holds.
    pub fn forbidden_at(&self, kind: OsType, id: i16, over: bool) -> Option<SetFault>
        ensures { result ≡ forbidden over (as_list (found kind id self.now)) }
    {
        forbidden(self.find(kind, id), over)
    }

    /// The first protected resource that one of these would replace, if it may not be.
    fn forbidden_by(&self, news: &[Resource], over: bool) -> Option<SetFault>
        ensures { result ≡ forbidden over (flat_map (replaced self.now) news.now) }
    {
        for resource in news {
            if let Some(fault) = self.forbidden_at(resource.kind, resource.id, over) {
                return Some(fault);
            }
        }
        None
    }

    /// Puts a resource into the set: in the place of the one that has its type and id, else at the end. The
    /// one whose place it takes is dropped. Where memory is refused the set is unchanged, and the resource
    /// is dropped. Its time is constant on average, whatever the set holds.
    fn put_in_place(&mut self, resource: Resource) -> Result<(), NoMemory>
        requires { length resource.name < 256 }
        ensures ok { OnOk result (self.new ≡ put self.old resource) }
        ensures err { OnErr result (self.new ≡ self.old) }
    {
        let key = key_of(&resource);
        self.map.insert(key, resource)?;
        Ok(())
    }

    /// Puts all of these in order. Where memory is refused the set is unchanged.
    fn put_all(&mut self, news: Vec<Resource>) -> Result<(), NoMemory>
        requires { AreNamed news.items }
        ensures ok { OnOk result (self.new ≡ put_all self.old news.items) }
        ensures err { OnErr result (self.new ≡ self.old) }
    {
        self.map.reserve(news.len())?;
        insert_all(&mut self.map, news);
        Ok(())
    }
}
