//! Items, and items in braces, read from tokens; changes with `specs/Items`.

ghost use Rattle.std.specs.Prelude.{◌≡◌, ◌≤◌, IfOk, length, map, option_map, take};
ghost use Rattle.rz_core.specs.Decided.{Decided};
ghost use Rattle.rz_stmt_items.specs.Item.{items_of, plain_item, plain_items, Braced, Named};
ghost use Rattle.rz_stmt_items.specs.Items.{name_before, name_in, stripped, AreBraced, AreItems, IsItem};

use crate::item::{Item, Items};
use crate::simple::read_simple;
use rz_core::{Mark, NoMemory, Word};
use rz_expr::role_of;
use rz_lex::{Shape, Token};
use rz_stmt_brackets::{Bracket, Divider, begins, bracketed, split_at};
use std::alloc::Global;

/// The most items for which there is room before the first is read.
const FIRST_ROOM: usize = 16;

/// The items that the tokens are.
#[cycle(items)]
pub fn read_items(alloc: Global, tokens: &[Token]) -> Result<Option<Items>, NoMemory>
    ensures { IfOk result (λ items. Decided (AreItems tokens.now) (option_map plain_items items)) }
{
    let mut items = Items::with_capacity(alloc, room_for(tokens))?;
    let mut rest = tokens;
    while let Some(split) = split_at(rest, Divider::Separator) {
        let Some(item) = read_item(alloc, split.front)? else {
            return Ok(None);
        };
        items.push(item)?;
        rest = split.behind;
    }
    if rest.is_empty() {
        return Ok(Some(items));
    }
    let Some(item) = read_item(alloc, rest)? else {
        return Ok(None);
    };
    items.push(item)?;
    Ok(Some(items))
}

/// The items for which memory is taken at once: as many as there are if each is one token.
fn room_for(tokens: &[Token]) -> usize {
    tokens.len().div_ceil(2).min(FIRST_ROOM)
}

/// The item that the tokens are.
#[cycle(items)]
fn read_item(alloc: Global, tokens: &[Token]) -> Result<Option<Item>, NoMemory>
    ensures { IfOk result (λ item. Decided (IsItem tokens.now) (option_map plain_item item)) }
{
    let Some((first, behind)) = tokens.split_first() else {
        return Ok(None);
    };
    if begins(tokens, Bracket::Curly) {
        return Ok(listed(read_braced(alloc, tokens)?, first.mark));
    }
    match name_before(&first.shape, behind) {
        Some(name) => {
            let name = name.copy(alloc)?;
            Ok(named(name, read_braced(alloc, behind)?, first.mark))
        }
        None => read_simple(alloc, first.mark, tokens),
    }
}

/// The items in braces that the tokens are.
#[cycle(items)]
fn read_braced(alloc: Global, tokens: &[Token]) -> Result<Option<Items>, NoMemory>
    ensures { IfOk result (λ items. Decided (AreBraced tokens.now) (option_map plain_items items)) }
{
    let Some(split) = bracketed(tokens, Bracket::Curly) else {
        return Ok(None);
    };
    if split.behind.is_empty() {
        read_items(alloc, split.front)
    } else {
        Ok(None)
    }
}

/// Items in braces, as an item.
fn listed(items: Option<Items>, mark: Mark) -> Option<Item>
    ensures { option_map plain_item result ≡ option_map (λ items. Braced (items_of items) mark) (option_map plain_items items) }
{
    match items {
        Some(items) => Some(Item::List(items, mark)),
        None => None,
    }
}

/// A name with items in braces after it, as an item.
fn named(name: Word, items: Option<Items>, mark: Mark) -> Option<Item>
    ensures { option_map plain_item result ≡ option_map (λ items. Named name.bytes (items_of items) mark) (option_map plain_items items) }
{
    match items {
        Some(items) => Some(Item::Named(name, items, mark)),
        None => None,
    }
}

/// The name that stands before items in braces.
fn name_before<'a>(shape: &'a Shape, behind: &[Token]) -> Option<&'a Word>
    ensures { option_map (λ name. name.now.bytes) result ≡ name_before shape.now behind.now }
{
    if begins(behind, Bracket::Curly) {
        name_in(shape)
    } else {
        None
    }
}

/// The name that a token is: that of a label, or of what is none.
fn name_in(shape: &Shape) -> Option<&Word>
    ensures { option_map (λ name. name.now.bytes) result ≡ name_in shape.now }
{
    match shape {
        Shape::Word(word) => {
            if role_of(word).is_name() {
                Some(word)
            } else {
                None
            }
        }
        _ => None,
    }
}
