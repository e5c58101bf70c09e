//! The items of a `resource` statement, as the code holds them; changes with `specs/Item`.

use rz_core::{Listing, Mark, Word};
use rz_expr::Expr;
use rz_types_fields::Texts;

/// An item of a `resource` statement, with the place of its first token. (MPW Rez.)
#[derive(Drop)]
pub enum Item {
    /// A number.
    Number(Expr, Mark),
    /// A text.
    Text(Texts, Mark),
    /// Items in braces.
    List(Items, Mark),
    /// A name, and items in braces after it.
    Named(Word, Items, Mark),
}

/// Items, in order.
pub type Items = Listing<Item>;
