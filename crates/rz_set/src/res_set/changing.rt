//! Resources of a set come under a head. What is left is in `specs/Change`, and the fates of resources in
//! `specs/Fates`.

ghost use Rattle.std.specs.Prelude.{◌≡◌, true, filter, map, Some, IfOk, OnOk, OnErr};
ghost use Rattle.std.specs.List.{flat_map};
ghost use Rattle.std.specs.Option.{option_copied};
ghost use Rattle.rz_set.specs.After.{forbidden, HasShortName, Leaves};
ghost use Rattle.rz_set.specs.Change.{after_change, changed, is_taken, other, with_other, MayHaveId};
ghost use Rattle.rz_set.specs.Fates.{fate_of, keeps_key, IsForOne, StayApart};
ghost use Rattle.rz_set.specs.ResSet.{has_key};
ghost use Rattle.rz_set.specs.Wanted.{is_wanted};

use crate::change::{Fate, come_under, copy_head, keeps_key};
use crate::entries::insert_left;
use crate::pick::{Head, Pick, SetFault};
use crate::protection::forbidden;
use crate::res_set::ResSet;
use crate::wanted::{Ids, Wanted};
use indexmap::IndexMap;
use rz_core::{NoMemory, OsType, Resource, Stop};
use std::mem;

impl ResSet {
    /// Gives the chosen resources the type, id, name and attributes of a head in place of their own, where the
    /// head has them. Each keeps its place and its contents, and another resource that has the type and id of a
    /// changed one is taken out. A pick by id or name that chooses none is refused, and so is a change of a
    /// protected resource, or one by which a protected resource would be taken out, if `over` isn't set. The
    /// refusal names the first of these in the order of the changes, a chosen one before the one that is taken
    /// out for it. After a refusal, and where memory is refused, the set is unchanged. A resource that a pick by id
    /// chooses is found by one look-up, and one that keeps its type and id is changed where it stands; else the call
    /// goes over the set a few times, and takes constant time on average for each resource.
    pub fn change(
        &mut self,
        kind: OsType,
        pick: &Pick,
        head: &Head,
        over: bool,
    ) -> Result<(), Stop<SetFault>>
        requires name { HasShortName (Some head.now) }
        requires id { MayHaveId pick.now head.now }
        ensures { Leaves self.old (after_change kind pick.now head.now over self.old) result self.new }
    {
        let wanted = match self.wanted(kind, pick) {
            Ok(wanted) => wanted,
            Err(fault) => return Err(Stop::Refused(fault)),
        };
        match self.forbidden_by_change(wanted, head, over) {
            Some(fault) => Err(Stop::Refused(fault)),
            None => match self.change_wanted(wanted, head) {
                Ok(()) => Ok(()),
                Err(NoMemory) => Err(Stop::NoMemory),
            },
        }
    }

    /// The first protected resource that would be changed or taken out, if it may not be.
    fn forbidden_by_change(&self, wanted: Wanted, head: &Head, over: bool) -> Option<SetFault>
        ensures { result ≡ forbidden over (flat_map (with_other head.now self.now) (filter (is_wanted wanted) self.now)) }
    {
        self.keys_differ();
        match wanted.ids {
            Ids::One(id) => match self.find(wanted.kind, id) {
                Some(one) => self.forbidden_by_one(one, head, over),
                None => None,
            },
            Ids::All | Ids::Range(..) => self.forbidden_by_all(wanted, head, over),
        }
    }

    /// The same by a look at each resource of the set.
    fn forbidden_by_all(&self, wanted: Wanted, head: &Head, over: bool) -> Option<SetFault>
        ensures { result ≡ forbidden over (flat_map (with_other head.now self.now) (filter (is_wanted wanted) self.now)) }
    {
        for resource in self.map.values() {
            if wanted.holds(resource.kind, resource.id) {
                if let Some(fault) = self.forbidden_by_one(resource, head, over) {
                    return Some(fault);
                }
            }
        }
        None
    }

    /// The same where one resource is changed.
    fn forbidden_by_one(&self, resource: &Resource, head: &Head, over: bool) -> Option<SetFault>
        ensures { result ≡ forbidden over (with_other head.now self.now resource.now) }
    {
        match forbidden(Some(resource), over) {
            Some(fault) => Some(fault),
            None => forbidden(self.other(resource, head), over),
        }
    }

    /// The other resource that has the type and id of one that comes under a head, if there is one.
    fn other(&self, resource: &Resource, head: &Head) -> Option<&Resource>
        ensures { option_copied result ≡ other head.now self.now resource.now }
    {
        let id = head.id.unwrap_or(resource.id);
        if head.kind.code == resource.kind.code
            && id.cast_unsigned() == resource.id.cast_unsigned()
        {
            return None;
        }
        self.find(head.kind, id)
    }

    /// Changes the wanted resources. Where memory is refused the set is unchanged.
    fn change_wanted(&mut self, wanted: Wanted, head: &Head) -> Result<(), NoMemory>
        requires name { HasShortName (Some head.now) }
        requires id { IsForOne (is_wanted wanted) self.old head.now.id }
        requires apart { StayApart (is_wanted wanted) head.now }
        ensures ok { OnOk result (self.new ≡ changed (is_wanted wanted) head.now self.old) }
        ensures err { OnErr result (self.new ≡ self.old) }
    {
        match wanted.ids {
            Ids::One(id) if keeps_key(head, wanted.kind, id) => {
                let head = copy_head(*self.map.allocator(), head)?;
                self.change_where_it_stands(wanted.kind, id, head);
                Ok(())
            }
            _ => self.change_all(wanted, head),
        }
    }

    /// Puts the resource with a type and an id under a head that leaves it both, if it is there.
    fn change_where_it_stands(&mut self, kind: OsType, id: i16, head: Head)
        requires name { HasShortName (Some head) }
        requires key { keeps_key head kind id ≡ true }
        ensures { self.new ≡ changed (has_key kind id) head self.old }
    {
        let Some(one) = self.map.get_mut(&(kind.code, id.cast_unsigned())) else {
            return;
        };
        come_under(one, head);
    }

    /// Changes the wanted resources by a look at each resource of the set, into a new map. Where memory is refused the
    /// set is unchanged.
    fn change_all(&mut self, wanted: Wanted, head: &Head) -> Result<(), NoMemory>
        requires name { HasShortName (Some head.now) }
        requires id { IsForOne (is_wanted wanted) self.old head.now.id }
        requires apart { StayApart (is_wanted wanted) head.now }
        ensures ok { OnOk result (self.new ≡ changed (is_wanted wanted) head.now self.old) }
        ensures err { OnErr result (self.new ≡ self.old) }
    {
        let fates = self.fates(wanted, head)?;
        let room = IndexMap::with_capacity(*self.map.allocator(), self.map.len())?;
        let old = mem::replace(&mut self.map, room);
        insert_left(&mut self.map, old, fates);
        Ok(())
    }

    /// What a change of the wanted resources makes of each, in order.
    fn fates(&self, wanted: Wanted, head: &Head) -> Result<Vec<Fate>, NoMemory>
        requires { IsForOne (is_wanted wanted) self.now head.now.id }
        ensures { IfOk result (λ fates. fates.items ≡ map (fate_of (is_wanted wanted) head.now self.now) self.now) }
    {
        let mut fates = Vec::with_capacity(*self.map.allocator(), self.map.len())?;
        for resource in self.map.values() {
            fates.push(self.fate(wanted, head, resource)?)?;
        }
        Ok(fates)
    }

    /// What a change of the wanted resources makes of one resource.
    fn fate(&self, wanted: Wanted, head: &Head, resource: &Resource) -> Result<Fate, NoMemory>
        requires { IsForOne (is_wanted wanted) self.now head.now.id }
        ensures { IfOk result (λ fate. fate ≡ fate_of (is_wanted wanted) head.now self.now resource.now) }
    {
        if wanted.holds(resource.kind, resource.id) {
            return Ok(Fate::ComesUnder(copy_head(*self.map.allocator(), head)?));
        }
        if self.is_taken(wanted, head, resource) {
            return Ok(Fate::GivesWay);
        }
        Ok(Fate::Stays)
    }

    /// Whether a wanted resource has the type and id of this one when it has come under a head.
    fn is_taken(&self, wanted: Wanted, head: &Head, resource: &Resource) -> bool
        requires { IsForOne (is_wanted wanted) self.now head.now.id }
        ensures { result ≡ is_taken (is_wanted wanted) head.now self.now resource.now }
    {
        self.keys_differ();
        head.kind.code == resource.kind.code
            && match head.id {
                Some(id) => id.cast_unsigned() == resource.id.cast_unsigned(),
                None => match self.find(wanted.kind, resource.id) {
                    Some(one) => wanted.holds(one.kind, one.id),
                    None => false,
                },
            }
    }
}
