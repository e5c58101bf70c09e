//! The bytes that an item gives to a text field, or their fault; changes with `specs/Matched`.

ghost use Rattle.std.specs.Prelude.{◌≡◌, ◌<◌, ◌^◌};
ghost use Rattle.rz_core.specs.Stop.{Gives};
ghost use Rattle.rz_stmt_items.specs.Item.{plain_item};
ghost use Rattle.rz_stmt_items.specs.Fits.{exceeds};
ghost use Rattle.rz_stmt_items.specs.Matched.{short_text, text_for};
ghost use Rattle.rz_types.specs.Field.{plain_text};

use crate::Item;
use crate::fault::{mark_of, too_long, wrong_kind};
use rz_core::{Bytes, Facts, Fault, Mark, Stop};
use rz_types::{TextField, is_too_long, text_of};
use std::alloc::Global;

/// The bytes that an item, at this position in its list, gives to a text.
pub(crate) fn text_for(
    alloc: Global,
    field: &TextField,
    item: &Item,
    position: u64,
    facts: &Facts,
) -> Result<Bytes, Stop<Fault>>
    requires { position < 2 ^ 63 }
    ensures { Gives (text_for facts.now position (plain_text field.now) (plain_item item.now)) result }
{
    match item {
        Item::Text(texts, mark) => {
            let bytes = text_of(alloc, texts, *mark, facts)?;
            short_text(field, *mark, bytes)
        }
        _ => Err(wrong_kind(position, mark_of(item))),
    }
}

/// The bytes, where they aren't too many for the text.
fn short_text(field: &TextField, mark: Mark, bytes: Bytes) -> Result<Bytes, Stop<Fault>>
    ensures { Gives (short_text (plain_text field.now) mark bytes) result }
{
    if exceeds(field, bytes.as_slice()) {
        Err(too_long(mark, bytes.as_slice()))
    } else {
        Ok(bytes)
    }
}

/// Whether the text has no size, and its length can't say so many bytes.
fn exceeds(field: &TextField, bytes: &[u8]) -> bool
    ensures { result ≡ exceeds (plain_text field.now) bytes.now }
{
    field.size.is_none() && is_too_long(field.form, bytes.len() as u64)
}
