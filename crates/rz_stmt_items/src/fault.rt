//! The faults of items that don't fit the fields of a type; changes with `specs/Unfit`.

ghost use Rattle.std.specs.Prelude.{◌≡◌, ◌<◌, ◌^◌, IfOk};
ghost use Rattle.rz_core.specs.declared.stop.Stop.TheVariants.{Refused};
ghost use Rattle.rz_stmt_items.specs.Item.{plain_item, plain_items};
ghost use Rattle.rz_stmt_items.specs.Unfit.{keeps, mark_of, no_case, other_count, out_of_range, too_few, too_long, too_many, wrong_kind};

use crate::Item;
use rz_core::{Fault, Kept, Mark, NoMemory, Stop, Word};
use std::alloc::Global;

/// The place of an item's first token.
pub(crate) fn mark_of(item: &Item) -> Mark
    ensures { result ≡ mark_of (plain_item item.now) }
{
    match item {
        Item::Number(_, mark) => *mark,
        Item::Text(_, mark) => *mark,
        Item::List(_, mark) => *mark,
        Item::Named(_, _, mark) => *mark,
    }
}

/// An item of another kind, at this position in its list, from 1.
pub(crate) fn wrong_kind(position: u64, mark: Mark) -> Stop<Fault>
    requires { position < 2 ^ 63 }
    ensures { result ≡ Refused (wrong_kind position mark) }
{
    Stop::Refused(keeps(206, mark, position as i64))
}

/// A value that isn't in the range of its field.
pub(crate) fn out_of_range(mark: Mark, value: i32) -> Stop<Fault>
    ensures { result ≡ Refused (out_of_range mark value) }
{
    Stop::Refused(keeps(207, mark, i64::from(value)))
}

/// No item for a field, in a list of these items at this place.
pub(crate) fn too_few(place: Mark, items: &[Item]) -> Stop<Fault>
    ensures { result ≡ Refused (too_few place (plain_items items.now)) }
{
    Stop::Refused(keeps(208, place, items.len() as i64))
}

/// No field for an item of these.
pub(crate) fn too_many(item: &Item, items: &[Item]) -> Stop<Fault>
    ensures { result ≡ Refused (too_many (plain_item item.now) (plain_items items.now)) }
{
    Stop::Refused(keeps(209, mark_of(item), items.len() as i64))
}

/// No case of this name.
pub(crate) fn no_case(alloc: Global, mark: Mark, name: &Word) -> Result<Fault, NoMemory>
    ensures { IfOk result (λ fault. fault ≡ no_case mark name.now.bytes) }
{
    Ok(Fault {
        number: 210,
        mark: Some(mark),
        kept: Kept::Name(name.copy(alloc)?.bytes),
    })
}

/// So many rows, where another number is stated.
pub(crate) fn other_count(place: Mark, stated: i32, given: u64) -> Fault
    requires { given < 2 ^ 63 }
    ensures { result ≡ other_count place stated given }
{
    Fault {
        number: 217,
        mark: Some(place),
        kept: Kept::Pair(i64::from(stated), given as i64),
    }
}

/// A text of too many bytes.
pub(crate) fn too_long(mark: Mark, bytes: &[u8]) -> Stop<Fault>
    ensures { result ≡ Refused (too_long mark bytes.now) }
{
    Stop::Refused(keeps(216, mark, bytes.len() as i64))
}

/// A fault at a place that keeps a number.
fn keeps(number: u16, mark: Mark, value: i64) -> Fault
    ensures { result ≡ keeps number mark value }
{
    Fault {
        number,
        mark: Some(mark),
        kept: Kept::Number(value),
    }
}
