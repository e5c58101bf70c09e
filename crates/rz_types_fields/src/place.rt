//! What the parts of a text and their expressions may be, by where it stands. See `specs/Place`.

ghost use Rattle.std.specs.Prelude.{◌≡◌};
ghost use Rattle.rz_expr.specs.Term.{term_of};
ghost use Rattle.rz_types_fields.specs.Place.{may_ask, may_have, may_have_argument, may_have_arguments, may_name, may_read, may_say, may_stand};
ghost use Rattle.rz_types_fields.specs.Text.{arguments_of, plain_argument, plain_arguments, plain_key, plain_part, plain_parts};

use crate::text::{FormatArg, FormatArgs, ResKey, TextPart, Texts};
use crate::value::{
    is_field_expression, is_fixed_expression, is_head_expression, is_item_expression,
};
use rz_expr::Expr;

/// Where a text stands, and so what its parts and their expressions may be. (MPW Rez.)
#[derive(Clone, Copy, PartialEq, Eq)]
pub enum TextPlace {
    /// The head of a new resource, or a pick: of the resource nothing is known there.
    New,
    /// The head for a resource that is chosen, or the name that a `$$Resource` asks for: there are the facts of a resource.
    Chosen,
    /// A `data` statement: there are the facts of the resource, and files.
    Data,
    /// An item: there are the facts of the resource, files, and names.
    Item,
    /// A fixed text of a type: there are the facts of a resource, labels, bits, and the numbers of rows.
    Fixed,
}

/// Whether all parts of a text may stand in a place. (MPW Rez.)
#[cycle(places)]
pub fn may_stand(place: TextPlace, texts: &Texts) -> bool
    ensures { result ≡ may_stand place (plain_parts texts.now) }
{
    for part in texts.as_slice() {
        if !may_have(place, part) {
            return false;
        }
    }
    true
}

/// Whether a part may stand in a place.
#[cycle(places)]
fn may_have(place: TextPlace, part: &TextPart) -> bool
    ensures { result ≡ may_have place (plain_part part.now) }
{
    match part {
        TextPart::Plain(_) | TextPart::DateFact | TextPart::TimeFact | TextPart::VersionFact => {
            true
        }
        TextPart::NameFact => may_name(place),
        TextPart::FileBytes(_) => may_read(place),
        TextPart::FileResource(asked) => may_read(place) && may_ask(&asked.key),
        TextPart::Format(format) => may_have_arguments(place, &format.arguments),
    }
}

/// Whether a `$$Resource` may ask so.
#[cycle(places)]
fn may_ask(key: &ResKey) -> bool
    ensures { result ≡ may_ask (plain_key key.now) }
{
    match key {
        ResKey::Id(expr) => is_head_expression(expr),
        ResKey::Name(texts) => may_stand(TextPlace::Chosen, texts),
    }
}

/// Whether all arguments of a format may stand in a place.
#[cycle(places)]
fn may_have_arguments(place: TextPlace, arguments: &FormatArgs) -> bool
    ensures { result ≡ may_have_arguments place (arguments_of (plain_arguments arguments.now)) }
{
    for argument in arguments.as_slice() {
        if !may_have_argument(place, argument) {
            return false;
        }
    }
    true
}

/// Whether an argument of a format may stand in a place.
#[cycle(places)]
fn may_have_argument(place: TextPlace, argument: &FormatArg) -> bool
    ensures { result ≡ may_have_argument place (plain_argument argument.now) }
{
    match argument {
        FormatArg::Number(expr) => may_say(place, expr),
        FormatArg::Text(texts) => may_stand(place, texts),
    }
}

/// Whether an expression may stand in a place.
pub fn may_say(place: TextPlace, expr: &Expr) -> bool
    ensures { result ≡ may_say place (term_of expr.now) }
{
    match place {
        TextPlace::New => is_head_expression(expr),
        TextPlace::Chosen | TextPlace::Data => is_field_expression(expr),
        TextPlace::Item => is_item_expression(expr),
        TextPlace::Fixed => is_fixed_expression(expr),
    }
}

/// Whether `$$Name` may stand in a place.
fn may_name(place: TextPlace) -> bool
    ensures { result ≡ may_name place }
{
    !matches!(place, TextPlace::New)
}

/// Whether `$$Read` and `$$Resource` may stand in a place.
fn may_read(place: TextPlace) -> bool
    ensures { result ≡ may_read place }
{
    matches!(place, TextPlace::Data | TextPlace::Item)
}
