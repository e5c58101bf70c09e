//! Resources are taken out of a set. What is left is in `specs/After`.

ghost use Rattle.std.specs.Prelude.{◌≡◌, filter, not};
ghost use Rattle.rz_set.specs.After.{after_remove, forbidden, Leaves};
ghost use Rattle.rz_set.specs.ResSet.{has_key};
ghost use Rattle.rz_set.specs.Wanted.{is_wanted};

use crate::entries::Key;
use crate::pick::{Pick, SetFault};
use crate::res_set::ResSet;
use crate::wanted::{Ids, Wanted};
use rz_core::{OsType, Resource, Stop};

impl ResSet {
    /// Takes the chosen resources out; the others stay in order. A pick by id or name that chooses none is
    /// refused, and so is one that chooses a protected resource, if `over` isn't set. After a refusal the set
    /// is unchanged. It takes no memory. By id, one look-up finds the resource, and those after it close up; by name,
    /// it is looked for first; else the call goes over the set twice.
    pub fn remove(&mut self, kind: OsType, pick: &Pick, over: bool) -> Result<(), Stop<SetFault>>
        ensures { Leaves self.old (after_remove kind pick.now over self.old) result self.new }
    {
        let wanted = match self.wanted(kind, pick) {
            Ok(wanted) => wanted,
            Err(fault) => return Err(Stop::Refused(fault)),
        };
        match self.forbidden_among(wanted, over) {
            Some(fault) => Err(Stop::Refused(fault)),
            None => {
                self.take_out(wanted);
                Ok(())
            }
        }
    }

    /// The first protected resource among the wanted ones, if it may not be touched.
    fn forbidden_among(&self, wanted: Wanted, over: bool) -> Option<SetFault>
        ensures { result ≡ forbidden over (filter (is_wanted wanted) self.now) }
    {
        self.keys_differ();
        match wanted.ids {
            Ids::One(id) => self.forbidden_at(wanted.kind, id, over),
            Ids::All | Ids::Range(..) => self.forbidden_among_all(wanted, over),
        }
    }

    /// The same by a look at each resource of the set.
    fn forbidden_among_all(&self, wanted: Wanted, over: bool) -> Option<SetFault>
        ensures { result ≡ forbidden over (filter (is_wanted wanted) self.now) }
    {
        if over {
            return None;
        }
        for resource in self.map.values() {
            if wanted.holds(resource.kind, resource.id) && resource.is_protected() {
                return Some(SetFault::Protected(resource.kind, resource.id));
            }
        }
        None
    }

    /// Takes the wanted resources out.
    fn take_out(&mut self, wanted: Wanted)
        ensures { self.new ≡ filter (λ r. not (is_wanted wanted r)) self.old }
    {
        match wanted.ids {
            Ids::One(id) => self.take_one_out(wanted.kind, id),
            Ids::All | Ids::Range(..) => self.take_all_out(wanted),
        }
    }

    /// Takes the resource with a type and an id out, if it is there.
    fn take_one_out(&mut self, kind: OsType, id: i16)
        ensures { self.new ≡ filter (λ r. not (has_key kind id r)) self.old }
    {
        self.map.shift_remove(&(kind.code, id.cast_unsigned()));
    }

    /// Takes the wanted resources out by a look at each resource of the set.
    fn take_all_out(&mut self, wanted: Wanted)
        ensures { self.new ≡ filter (λ r. not (is_wanted wanted r)) self.old }
    {
        self.map.retain(
            |_key: &Key, resource: &mut Resource| -> bool
                ensures { (result ≡ not (is_wanted wanted resource.old)) × (resource.new ≡ resource.old) }
            { !wanted.holds(resource.kind, resource.id) },
        );
    }
}
