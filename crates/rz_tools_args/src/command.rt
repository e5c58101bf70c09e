//! What arguments ask for: a command and its items, and what the items say. What that is is in `specs/Items`.

ghost use Rattle.std.specs.Prelude.{◌≡◌, ◌<◌, ◌^◌, ◌∷◌, ◌||◌, ℕ, [], IfOk, List, option_map};
ghost use Rattle.rz_core.specs.Decimal.{decimal_of};
ghost use Rattle.rz_tools_args.specs.Command.{places_of};
ghost use Rattle.rz_tools_args.specs.Held.{item, items_of};
ghost use Rattle.rz_tools_args.specs.Items.{defs_of, forms_of, has, kinds_of, last, names_of};
ghost use Rattle.rz_tools_args.specs.Told.{Tells};

use crate::flag::{Flag, Switch};
use crate::item::{Item, Value};
use crate::name::CommandName;
use crate::number::number_told;
use rz_bridge_files::Form;
use rz_core::{FileNames, Listing, NoMemory, OsType};
use rz_pre::Defs;
use std::alloc::Global;

/// A list of resource types.
pub type Kinds = Listing<OsType>;

/// A list of items.
pub type Items<'a> = Listing<Item<'a>>;

/// What arguments ask for.
#[derive(Drop)]
pub struct Command<'a> {
    /// Its name.
    pub name: CommandName,
    /// Its items, in the order of the words.
    pub items: Items<'a>,
}

impl<'a> Command<'a> {
    /// The words outside options.
    pub fn files(&self, alloc: Global) -> Result<FileNames, NoMemory>
        ensures { IfOk result (λ files. files ≡ places_of (items_of self.now)) }
    {
        let mut files = FileNames::new(alloc);
        for one in self.items.as_slice() {
            if let Some(word) = one.place() {
                files.push(word)?;
            }
        }
        Ok(files)
    }

    /// The names that an option says.
    pub fn names(&self, alloc: Global, flag: Flag) -> Result<FileNames, NoMemory>
        ensures { IfOk result (λ names. names ≡ names_of flag (items_of self.now)) }
    {
        let mut names = FileNames::new(alloc);
        for one in self.items.as_slice() {
            if let Some(name) = one.name(flag) {
                names.push(name)?;
            }
        }
        Ok(names)
    }

    /// The types that an option says.
    pub fn kinds(&self, alloc: Global, flag: Flag) -> Result<Kinds, NoMemory>
        ensures { IfOk result (λ kinds. kinds ≡ kinds_of flag (items_of self.now)) }
    {
        let mut kinds = Kinds::new(alloc);
        for one in self.items.as_slice() {
            if let Some(kind) = one.kind(flag) {
                kinds.push(kind)?;
            }
        }
        Ok(kinds)
    }

    /// The last name that an option says.
    pub fn name(&self, flag: Flag) -> Option<&'a str>
        ensures { option_map (λ name. name.now) result ≡ last (names_of flag (items_of self.now)) }
    {
        let mut latest = None;
        for one in self.items.as_slice() {
            latest = one.name(flag).or(latest);
        }
        latest
    }

    /// The last type that an option says.
    pub fn kind(&self, flag: Flag) -> Option<OsType>
        ensures { result ≡ last (kinds_of flag (items_of self.now)) }
    {
        let mut latest = None;
        for one in self.items.as_slice() {
            latest = one.kind(flag).or(latest);
        }
        latest
    }

    /// The last form that an option says.
    pub fn form(&self, flag: Flag) -> Option<Form>
        ensures { result ≡ last (forms_of flag (items_of self.now)) }
    {
        let mut latest = None;
        for one in self.items.as_slice() {
            latest = one.form(flag).or(latest);
        }
        latest
    }

    /// Whether an option without a value stands there.
    pub fn has(&self, switch: Switch) -> bool
        ensures { result ≡ has switch (items_of self.now) }
    {
        for one in self.items.as_slice() {
            if one.is_on(switch) {
                return true;
            }
        }
        false
    }

    /// The number that alone stands outside options.
    pub fn number(&self) -> u32
        requires { (number : ℕ) × (number < 2 ^ 32) × (places_of (items_of self.now) ≡ decimal_of number ∷ []) }
        ensures { places_of (items_of self.now) ≡ decimal_of result ∷ [] }
    {
        for one in self.items.as_slice() {
            if let Some(word) = one.place() {
                return number_told(word).unwrap();
            }
        }
        unreachable!()
    }

    /// The definitions of all options; the rest is given up.
    pub fn into_defs(self, alloc: Global) -> Result<Defs, NoMemory>
        ensures { IfOk result (λ defs. defs ≡ defs_of (items_of self.entry)) }
    {
        let Command { items, .. } = self;
        let mut defs = Defs::new(alloc);
        for one in items.into_vec() {
            if let Item::Valued(_, Value::Define(def)) = one {
                defs.push(def)?;
            }
        }
        Ok(defs)
    }
}

impl<'a> Item<'a> {
    /// The word, where it stands outside options.
    fn place(&self) -> Option<&'a str>
        ensures { Tells places_of (item self.now) (option_map (λ word. word.now) result) }
    {
        match self {
            Item::Place(word) => Some(*word),
            _ => None,
        }
    }

    /// The name, where this option says one.
    fn name(&self, flag: Flag) -> Option<&'a str>
        ensures { Tells (names_of flag) (item self.now) (option_map (λ name. name.now) result) }
    {
        match self {
            Item::Valued(own, Value::Name(name)) if flag == *own => Some(*name),
            _ => None,
        }
    }

    /// The type, where this option says one.
    fn kind(&self, flag: Flag) -> Option<OsType>
        ensures { Tells (kinds_of flag) (item self.now) result }
    {
        match self {
            Item::Valued(own, Value::Kind(kind)) if flag == *own => Some(*kind),
            _ => None,
        }
    }

    /// The form, where this option says one.
    fn form(&self, flag: Flag) -> Option<Form>
        ensures { Tells (forms_of flag) (item self.now) result }
    {
        match self {
            Item::Valued(own, Value::Form(form)) if flag == *own => Some(*form),
            _ => None,
        }
    }

    /// Whether it is this option without a value.
    fn is_on(&self, switch: Switch) -> bool
        ensures { (behind : List _) → has switch (item self.now ∷ behind) ≡ (result || has switch behind) }
    {
        match self {
            Item::On(own) => switch == *own,
            _ => false,
        }
    }
}
