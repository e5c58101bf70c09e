//! Which resources are wanted or included, by type and id alone; changed only with `specs/Wanted`.

ghost use Rattle.std.specs.Prelude.{◌≡◌, filter, List, None, Some, IfOk, IfErr};
ghost use Rattle.std.specs.Option.{option_map};
ghost use Rattle.rz_core.specs.declared.resource.Resource.{Resource};
ghost use Rattle.rz_set.specs.Choice.{chooses, included, key_pair, missing, missing_choice, picked, the_choice};
ghost use Rattle.rz_set.specs.Wanted.{is_included, is_wanted};

use crate::pick::{Choice, Pick, SetFault};
use rz_core::OsType;

/// The ids that resources are wanted by.
#[derive(Clone, Copy)]
pub enum Ids {
    /// All.
    All,
    /// One.
    One(i16),
    /// Those from the first to the second, both of them too.
    Range(i16, i16),
}

/// Which resources are wanted, by their types and ids alone.
#[derive(Clone, Copy)]
pub struct Wanted {
    /// The type.
    pub kind: OsType,
    /// The ids.
    pub ids: Ids,
}

impl Wanted {
    /// Whether a resource with this type and this id is wanted.
    pub fn holds(self, kind: OsType, id: i16) -> bool
        ensures { (r : Resource) → r.kind ≡ kind → r.id ≡ id → result ≡ is_wanted self r }
    {
        self.kind.code == kind.code
            && match self.ids {
                Ids::All => true,
                Ids::One(one) => one.cast_unsigned() == id.cast_unsigned(),
                Ids::Range(first, last) => first <= id && id <= last,
            }
    }
}

/// What a pick chooses in a list, by types and ids alone. `one` is the type and the id of the resource that a pick by
/// id or name finds in that list, if there is one; where there is none, such a pick is refused, with its type.
pub fn wanted_as(kind: OsType, pick: &Pick, one: Option<(OsType, i16)>) -> Result<Wanted, SetFault>
    ensures chooses { (list : List Resource) → option_map key_pair (picked kind pick.now list) ≡ one
        → IfOk result (λ wanted. is_wanted wanted ≡ chooses kind pick.now list) }
    ensures there { (list : List Resource) → option_map key_pair (picked kind pick.now list) ≡ one
        → IfOk result (λ wanted. missing kind pick.now list ≡ None) }
    ensures missing { (list : List Resource) → option_map key_pair (picked kind pick.now list) ≡ one
        → IfErr result (λ fault. missing kind pick.now list ≡ Some fault) }
{
    match pick {
        Pick::All => Ok(Wanted {
            kind,
            ids: Ids::All,
        }),
        Pick::Range(first, last) => Ok(Wanted {
            kind,
            ids: Ids::Range(*first, *last),
        }),
        Pick::Id(_) | Pick::Name(_) => match one {
            Some((kind, id)) => Ok(Wanted {
                kind,
                ids: Ids::One(id),
            }),
            None => Err(SetFault::NoSuchResource(kind)),
        },
    }
}

/// Which resources of a list are included, by their types and ids alone.
#[derive(Clone, Copy)]
pub enum Included {
    /// All.
    All,
    /// Those of all other types.
    Except(OsType),
    /// The wanted ones.
    These(Wanted),
}

impl Included {
    /// Whether a resource with this type and this id is included.
    pub fn holds(self, kind: OsType, id: i16) -> bool
        ensures { (r : Resource) → r.kind ≡ kind → r.id ≡ id → result ≡ is_included self r }
    {
        match self {
            Included::All => true,
            Included::Except(left_out) => left_out.code != kind.code,
            Included::These(wanted) => wanted.holds(kind, id),
        }
    }
}

/// Which resources of a list a choice includes, by types and ids alone, so that a list that is read in place needs no
/// copy. `one` is the type and the id of the resource that the choice's pick by id or name finds in that list, if there
/// is one; where there is none, such a choice is refused, with its type. (MPW Rez.)
pub fn included_as(choice: &Choice, one: Option<(OsType, i16)>) -> Result<Included, SetFault>
    ensures included { (list : List Resource) → option_map key_pair (the_choice choice.now list) ≡ one
        → IfOk result (λ test. filter (is_included test) list ≡ included choice.now list) }
    ensures there { (list : List Resource) → option_map key_pair (the_choice choice.now list) ≡ one
        → IfOk result (λ test. missing_choice choice.now list ≡ None) }
    ensures missing { (list : List Resource) → option_map key_pair (the_choice choice.now list) ≡ one
        → IfErr result (λ fault. missing_choice choice.now list ≡ Some fault) }
{
    match choice {
        Choice::All => Ok(Included::All),
        Choice::Except(kind) => Ok(Included::Except(*kind)),
        Choice::Chosen(kind, pick) => match wanted_as(*kind, pick, one) {
            Ok(wanted) => Ok(Included::These(wanted)),
            Err(fault) => Err(fault),
        },
    }
}
