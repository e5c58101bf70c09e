//! The one resource that an id or a name is for, or 218, as `specs/Chosen` says.

ghost use Rattle.std.specs.Prelude.{◌≡◌, ◌<◌, ℕ, IfOk, Some};
ghost use Rattle.rz_core.specs.Message.{IsNameable};
ghost use Rattle.rz_core.specs.Stop.{Gives, OnFault, seen};
ghost use Rattle.rz_expr.specs.Term.{term_of};
ghost use Rattle.rz_set.specs.Choice.{is_for_one};
ghost use Rattle.rz_tools_values.specs.Lent.{lent_one};
ghost use Rattle.rz_tools_values.specs.Chosen.{id_said, no_resource, sought_by, chosen_one, the_one};
ghost use Rattle.std.specs.Option.{option_copied};

use crate::head::id_of;
use crate::lent::picked_in;
use rz_core::{Bytes, Facts, Fault, Kept, Mark, NoMemory, OsType, Resource, Stop};
use rz_expr::Expr;
use rz_fork::{ForkView, ResView};
use rz_set::{Pick, ResSet};
use rz_types::number_of;
use std::alloc::Global;

/// The resource of a fork that a pick by id or name is for, lent: 218 on this line where there is none (kept: the type
/// and the id, or the name). Other picks are for no one resource. (MPW Rez.)
pub fn chosen_in_fork<'a>(
    alloc: Global,
    fork: &ForkView<'a>,
    kind: OsType,
    pick: &Pick,
    mark: Mark,
) -> Result<Option<ResView<'a>>, Stop<Fault>>
    ensures chosen { Gives (chosen_one mark kind pick.now fork.now.list) (seen lent_one result) }
    ensures nameable { (files : ℕ) → mark.file < files → OnFault result (IsNameable files) }
{
    let one = picked_in(fork, kind, pick);
    if one.is_none() && is_for_one(pick) {
        return Err(Stop::Refused(no_resource(alloc, kind, pick, mark)?));
    }
    Ok(one)
}

/// Whether the pick is for one resource.
fn is_for_one(pick: &Pick) -> bool
    ensures { result ≡ is_for_one pick.now }
{
    matches!(pick, Pick::Id(_) | Pick::Name(_))
}

/// The resource of a program that a pick by id or name chooses, as [`chosen_in_fork`] says it of a fork.
pub fn chosen_in_set<'a>(
    alloc: Global,
    set: &'a ResSet,
    kind: OsType,
    pick: &Pick,
    mark: Mark,
) -> Result<Option<&'a Resource>, Stop<Fault>>
    ensures chosen { Gives (chosen_one mark kind pick.now set.now) (seen option_copied result) }
    ensures nameable { (files : ℕ) → mark.file < files → OnFault result (IsNameable files) }
{
    match pick {
        Pick::Id(id) => the_one(alloc, set.find(kind, *id), kind, pick, mark),
        Pick::Name(name) => {
            let one = set.find_name(kind, name.as_slice());
            the_one(alloc, one, kind, pick, mark)
        }
        Pick::All | Pick::Range(..) => Ok(None),
    }
}

/// The resource that was looked for, or 218.
fn the_one<'a>(
    alloc: Global,
    one: Option<&'a Resource>,
    kind: OsType,
    pick: &Pick,
    mark: Mark,
) -> Result<Option<&'a Resource>, Stop<Fault>>
    ensures one { Gives (the_one mark kind pick.now (option_copied one.entry)) (seen option_copied result) }
    ensures nameable { (files : ℕ) → mark.file < files → OnFault result (IsNameable files) }
{
    match one {
        Some(resource) => Ok(Some(resource)),
        None => Err(Stop::Refused(no_resource(alloc, kind, pick, mark)?)),
    }
}

/// The id that an expression says.
pub fn id_said(alloc: Global, id: &Expr, mark: Mark, known: &Facts) -> Result<i16, Stop<Fault>>
    ensures id { Gives (id_said mark known.now (term_of id.now)) result }
    ensures nameable { (files : ℕ) → mark.file < files → OnFault result (IsNameable files) }
{
    let value = number_of(alloc, id, mark, known)?;
    id_of(value, mark)
}

/// 218 on this line for a pick by id or name that chooses none: it keeps what the pick looks for.
pub fn no_resource(alloc: Global, kind: OsType, pick: &Pick, mark: Mark) -> Result<Fault, NoMemory>
    ensures fault { IfOk result (λ fault. fault ≡ no_resource mark kind pick.now) }
    ensures nameable { (files : ℕ) → mark.file < files → IfOk result (IsNameable files) }
{
    let kept = sought_by(alloc, kind, pick)?;
    Ok(Fault {
        number: 218,
        mark: Some(mark),
        kept,
    })
}

/// What a pick looks for, as a fault keeps it: the type and the id, or the name, and nothing of all or of a range.
pub fn sought_by(alloc: Global, kind: OsType, pick: &Pick) -> Result<Kept, NoMemory>
    ensures { IfOk result (λ kept. kept ≡ sought_by kind pick.now) }
{
    match pick {
        Pick::Id(id) => Ok(Kept::Key(kind, i32::from(*id))),
        Pick::Name(name) => Ok(Kept::Name(Bytes::of(alloc, name.as_slice())?)),
        Pick::All | Pick::Range(..) => Ok(Kept::Nothing),
    }
}
