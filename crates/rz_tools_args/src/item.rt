//! One item of a command: a word outside options, or an option, at the front of arguments. What it is is in `specs/Command`.

ghost use Rattle.std.specs.Prelude.{◌≡◌, ◌↔◌, IfOk, IsTrue, [], ◌∷◌, length, map, option_map};
ghost use Rattle.std.specs.String.{string_bytes};
ghost use Rattle.rz_core.specs.Decided.{Decided};
ghost use Rattle.rz_core.specs.Stop.{OnFault};
ghost use Rattle.rz_tools_args.specs.Command.{is_place, places_of, IsValue};
ghost use Rattle.rz_tools_args.specs.Held.{item, says, size_of, syntax, value, BeginsWith, IsStuck, MayFollow};

use crate::definition::{define, undefine};
use crate::flag::{Flag, Sort, Switch};
use crate::form::form_named;
use crate::kind::kind_in;
use crate::syntax::{Places, Syntax, named};
use rz_bridge_files::Form;
use rz_core::{NoMemory, OsType, Stop};
use rz_lex::cut_back;
use rz_pre::Def;
use std::alloc::Global;

/// What an option says.
#[derive(Drop)]
pub enum Value<'a> {
    /// A name of a file, or a path.
    Name(&'a str),
    /// A definition.
    Define(Def),
    /// A type or creator.
    Kind(OsType),
    /// A form.
    Form(Form),
}

/// A word outside options, an option with its value, or an option without one.
#[derive(Drop)]
pub enum Item<'a> {
    /// A word that stands outside options.
    Place(&'a str),
    /// An option, and what it says.
    Valued(Flag, Value<'a>),
    /// An option without a value.
    On(Switch),
}

impl Item<'_> {
    /// How many words it is.
    pub fn size(&self) -> usize
        ensures { result ≡ size_of (item self.now) }
    {
        match self {
            Item::Place(_) | Item::On(_) => 1,
            Item::Valued(_, _) => 2,
        }
    }

    /// How many words outside options it is.
    pub fn places(&self) -> u64
        ensures { result ≡ length (places_of (item self.now ∷ [])) }
    {
        match self {
            Item::Place(_) => 1,
            Item::Valued(_, _) | Item::On(_) => 0,
        }
    }

    /// Whether it may stand after so many words outside options.
    pub fn may_follow(&self, places: Places, count: u64) -> bool
        ensures { IsTrue result ↔ MayFollow places count (item self.now) }
    {
        match self {
            Item::Place(word) => places.may_stand(count, word),
            Item::Valued(_, _) | Item::On(_) => true,
        }
    }

    /// Whether it is this option.
    pub fn says(&self, flag: Flag) -> bool
        ensures { result ≡ says flag (item self.now) }
    {
        match self {
            Item::Valued(other, _) => flag == *other,
            Item::Place(_) | Item::On(_) => false,
        }
    }
}

/// No item stands at the front of some words.
#[derive(Clone, Copy, Debug, Drop)]
pub struct Misfit {
    /// How many of these words an item can begin with.
    pub fitting: u64,
}

/// The item of a command at the front of words, or how many of them can begin one. They are a first one and those
/// after.
pub fn read_item<'a>(
    alloc: Global,
    takes: Syntax,
    first: &'a str,
    behind: &'a [String],
) -> Result<Item<'a>, Stop<Misfit>>
    ensures item { IfOk result (λ one. BeginsWith (syntax takes) (first.now ∷ map string_bytes behind.now) (item one)) }
    ensures stuck { OnFault result (λ misfit. IsStuck (syntax takes) (first.now ∷ map string_bytes behind.now) misfit.fitting) }
{
    cut_back();
    if is_place(first) {
        return Ok(Item::Place(first));
    }
    if let Some(switch) = named(takes.switches, first) {
        return Ok(Item::On(switch));
    }
    let Some(flag) = named(takes.flags, first) else {
        return Err(Stop::Refused(Misfit { fitting: 0 }));
    };
    let Some((value, _)) = behind.split_first() else {
        return Err(Stop::Refused(Misfit { fitting: 1 }));
    };
    match read_value(alloc, flag.sort(), value.as_str())? {
        Some(value) => Ok(Item::Valued(flag, value)),
        None => Err(Stop::Refused(Misfit { fitting: 1 })),
    }
}

/// What a word says as a value of a sort.
fn read_value<'a>(alloc: Global, sort: Sort, word: &'a str) -> Result<Option<Value<'a>>, NoMemory>
    ensures { IfOk result (λ found. Decided (IsValue sort word.now) (option_map value found)) }
{
    match sort {
        Sort::Name => Ok(Some(Value::Name(word))),
        Sort::Definition => match define(alloc, word)? {
            Some(def) => Ok(Some(Value::Define(def))),
            None => Ok(None),
        },
        Sort::Undefinition => match undefine(alloc, word)? {
            Some(def) => Ok(Some(Value::Define(def))),
            None => Ok(None),
        },
        Sort::Kind => match kind_in(alloc, word)? {
            Some(kind) => Ok(Some(Value::Kind(kind))),
            None => Ok(None),
        },
        Sort::Form => match form_named(word) {
            Some(form) => Ok(Some(Value::Form(form))),
            None => Ok(None),
        },
    }
}

/// Whether a word may stand outside options: it doesn't begin with `-`.
fn is_place(word: &str) -> bool
    ensures { result ≡ is_place word.now }
{
    match word.as_bytes() {
        [first, ..] => *first != b'-',
        [] => true,
    }
}
