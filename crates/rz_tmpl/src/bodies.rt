//! What stands open between two entries, and the next entry with its fault; changed only with `specs/Cut` and
//! `specs/Bodies`.

ghost use Rattle.std.specs.Prelude.{◌≡◌, ◌<◌, ◌≤◌, ◌||◌, ◌++◌, ◌∷◌, [], length, true, false, MatchResult};
ghost use Rattle.rz_tmpl.specs.Entry.{takes};
ghost use Rattle.rz_tmpl.specs.Items.{at, none, waits_behind, Place};
ghost use Rattle.rz_tmpl.specs.Bodies.{behind, fault_at, fault_of, GoesOn, Shows};

use crate::entry::{Entry, ListForm, Plain, entry_of};
use arrayvec::ArrayVec;
use rz_core::rest_at;

/// So many lists may be open in one another.
const MOST_OPEN: usize = 60;

/// What stands open between two entries.
#[derive(Drop)]
pub struct Bodies {
    /// Whether a count waits in the innermost body.
    pub waiting: bool,
    /// Whether a row of that body has a value.
    pub valued: bool,
    /// For each open list, from the outermost on, whether a count will wait after it.
    pub outside: ArrayVec<bool, MOST_OPEN>,
}

/// The next entry, and how many bytes it has.
#[derive(Clone, Copy)]
pub struct Next {
    /// The entry.
    pub entry: Entry,
    /// How many bytes it has.
    pub length: usize,
}

impl Bodies {
    /// What stands open before the first entry.
    pub fn new() -> Bodies
        ensures { Shows (at none) result }
    {
        Bodies {
            waiting: false,
            valued: false,
            outside: ArrayVec::new(),
        }
    }

    /// The next entry of bytes, or the number of its fault or of that at the end.
    pub fn next(&self, bytes: &[u8]) -> Result<Option<Next>, u16>
        ensures { MatchResult result (λ next. GoesOn self.now bytes.now next) (λ number. fault_at self.now bytes.now ≡ Some number) }
    {
        if bytes.is_empty() {
            return match self.end_fault() {
                Some(number) => Err(number),
                None => Ok(None),
            };
        }
        let label = usize::from(bytes[0]);
        let rest = rest_at(bytes, 1);
        if rest.len() < label + 4 {
            return Err(451);
        }
        let Some(entry) = entry_of(rest_at(rest, label).split_at(4).0) else {
            return Err(452);
        };
        match self.fault(entry) {
            Some(number) => Err(number),
            None => Ok(Some(Next {
                entry,
                length: label + 5,
            })),
        }
    }

    /// The number of the fault at the end of the bytes.
    fn end_fault(&self) -> Option<u16>
        ensures { result ≡ fault_at self.now [] }
    {
        if !self.outside.is_empty() {
            Some(453)
        } else if self.waiting {
            Some(454)
        } else {
            None
        }
    }

    /// The number of the fault of an entry.
    fn fault(&self, entry: Entry) -> Option<u16>
        ensures { result ≡ fault_of self.now entry }
    {
        match entry {
            Entry::One(_) => None,
            Entry::Count(_) => { if self.waiting { Some(454) } else { None } }
            Entry::Start(form) => self.start_fault(form),
            Entry::End => self.stop_fault(),
        }
    }

    fn start_fault(&self, form: ListForm) -> Option<u16>
        ensures { result ≡ fault_of self.now (Entry.Start form) }
    {
        if !form.may_start(self.waiting) {
            Some(454)
        } else if self.outside.len() == MOST_OPEN {
            Some(456)
        } else {
            None
        }
    }

    fn stop_fault(&self) -> Option<u16>
        ensures { result ≡ fault_of self.now Entry.End }
    {
        if self.outside.is_empty() {
            Some(453)
        } else if self.waiting {
            Some(454)
        } else if self.valued {
            None
        } else {
            Some(455)
        }
    }

    /// Goes after an entry without a fault.
    pub fn take(&mut self, entry: Entry)
        requires sound { fault_of self.old entry ≡ None }
        requires few { length self.old.outside.items ≤ 60 }
        ensures { (place next : Place) → Shows place self.old → behind place entry ≡ Some next → Shows next self.new }
    {
        match entry {
            Entry::One(plain) => self.add(plain),
            Entry::Count(_) => self.waiting = true,
            Entry::Start(form) => self.enter(form),
            Entry::End => self.leave(),
        }
    }

    /// Goes after an entry that is a field by itself.
    fn add(&mut self, plain: Plain)
        ensures valued { self.new.valued ≡ (self.old.valued || takes plain) }
        ensures waiting { self.new.waiting ≡ self.old.waiting }
        ensures outside { self.new.outside.items ≡ self.old.outside.items }
    {
        if plain.takes() {
            self.valued = true;
        }
    }

    /// Goes into a list.
    fn enter(&mut self, form: ListForm)
        requires { length self.old.outside.items < 60 }
        ensures outside { self.new.outside.items ≡ self.old.outside.items ++ waits_behind form self.old.waiting ∷ [] }
        ensures waiting { self.new.waiting ≡ false }
        ensures valued { self.new.valued ≡ false }
    {
        self.outside.push(form.waits_behind(self.waiting));
        self.waiting = false;
        self.valued = false;
    }

    /// Goes out of the innermost list.
    fn leave(&mut self)
        ensures outside { 0 < length self.old.outside.items → self.old.outside.items ≡ self.new.outside.items ++ self.new.waiting ∷ [] }
        ensures valued { self.new.valued ≡ true }
    {
        if let Some(waiting) = self.outside.pop() {
            self.waiting = waiting;
        }
        self.valued = true;
    }
}
