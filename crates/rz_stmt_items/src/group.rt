//! The numbers that items give to a point or a rectangle; changes with `specs/Matched`.

ghost use Rattle.std.specs.Prelude.{◌≡◌, ◌<◌, ◌^◌, None};
ghost use Rattle.rz_core.specs.Stop.{Gives};
ghost use Rattle.rz_stmt_items.specs.Item.{plain_item, plain_items};
ghost use Rattle.rz_stmt_items.specs.Matched.{group_for, numbers_for};
ghost use Rattle.rz_types.specs.Field.{plain_number};
ghost use Rattle.rz_types.specs.Shape.{numbers_of};
ghost use Rattle.rz_types.specs.Piece.{integer};

use crate::Item;
use crate::fault::{mark_of, too_few, too_many, wrong_kind};
use crate::number::number_for;
use rz_core::{Facts, Fault, Mark, Stop};
use rz_types::{NumField, NumForm, Radix, Symbols};
use rz_types_fields::Numbers;
use std::alloc::Global;

/// The numbers that an item, at this position in its list, gives to a point or a rectangle.
pub(crate) fn group_for(
    alloc: Global,
    rect: bool,
    item: &Item,
    position: u64,
    facts: &Facts,
) -> Result<Numbers, Stop<Fault>>
    requires { position < 2 ^ 63 }
    ensures { Gives (group_for facts.now position rect (plain_item item.now)) result }
{
    match item {
        Item::List(items, mark) => numbers_for(alloc, rect, *mark, items.as_slice(), facts),
        _ => Err(wrong_kind(position, mark_of(item))),
    }
}

/// The numbers of a point or a rectangle, of the items in its braces.
fn numbers_for(
    alloc: Global,
    rect: bool,
    place: Mark,
    items: &[Item],
    facts: &Facts,
) -> Result<Numbers, Stop<Fault>>
    ensures { Gives (numbers_for facts.now rect place (plain_items items.now)) result }
{
    let field = integer(alloc);
    let numbers = numbers_under(alloc, &field, rect, place, items, facts);
    drop(field);
    numbers
}

/// The numbers that the items are, each of them as such a field.
fn numbers_under(
    alloc: Global,
    field: &NumField,
    rect: bool,
    place: Mark,
    items: &[Item],
    facts: &Facts,
) -> Result<Numbers, Stop<Fault>>
    requires { plain_number field.now ≡ integer None }
    ensures { Gives (numbers_for facts.now rect place (plain_items items.now)) result }
{
    let count = numbers_of(rect);
    let mut numbers = Numbers::new(alloc);
    for before in 0..count {
        let Some(item) = items.get(before) else {
            return Err(too_few(place, items));
        };
        let number = number_for(alloc, field, item, before as u64 + 1, facts)?;
        numbers.push(number as u16)?;
    }
    match items.get(count) {
        None => Ok(numbers),
        Some(item) => Err(too_many(item, items)),
    }
}

fn numbers_of(rect: bool) -> usize
    ensures { result ≡ numbers_of rect }
{
    if rect { 4 } else { 2 }
}

/// A number of a point or a rectangle is an `integer`.
fn integer(alloc: Global) -> NumField
    ensures { plain_number result ≡ integer None }
{
    NumField {
        form: NumForm::Integer,
        width: 16,
        unsigned: false,
        radix: Radix::Plain,
        symbols: Symbols::new(alloc),
        fixed: None,
        key: false,
    }
}
