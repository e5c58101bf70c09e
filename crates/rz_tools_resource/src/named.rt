//! Which items name a file. A new form of an item is a case here and in `specs/Named`.

ghost use Rattle.std.specs.Prelude.{◌≡◌};
ghost use Rattle.rz_stmt_items.specs.Item.{items_of, plain_item, plain_items};
ghost use Rattle.rz_tools_resource.specs.Named.{item_names, items_name};

use rz_stmt_items::Item;
use rz_tools_values::names_file;

/// Whether a text of items names a file, or one of the items within them. (MPW Rez.)
#[cycle(named)]
pub fn items_name(items: &[Item]) -> bool
    ensures { result ≡ items_name (items_of (plain_items items.now)) }
{
    for item in items {
        if item_names(item) {
            return true;
        }
    }
    false
}

/// Whether an item does.
#[cycle(named)]
fn item_names(item: &Item) -> bool
    ensures { result ≡ item_names (plain_item item.now) }
{
    match item {
        Item::Number(..) => false,
        Item::Text(texts, _) => names_file(texts),
        Item::List(items, _) | Item::Named(_, items, _) => items_name(items.as_slice()),
    }
}
