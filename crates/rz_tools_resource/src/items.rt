//! Items with what the files give that their strings name, as `specs/Items` says.

ghost use Rattle.std.specs.Prelude.{◌≡◌, ◌<◌, ℕ, IfSome, IfOk};
ghost use Rattle.rz_core.specs.Message.{IsNameable};
ghost use Rattle.rz_folder.specs.MayRead.{MayRead};
ghost use Rattle.rz_folder.specs.Names.{LooksFor};
ghost use Rattle.rz_tools_resource.specs.Asked.{ItemAsks, ItemsAsk};
ghost use Rattle.rz_folder.specs.OnlyReads.{OnlyReads};
ghost use Rattle.rz_stmt_items.specs.Item.{plain_item, plain_items};
ghost use Rattle.rz_stmt_items.specs.Places.{AreItemsWithin, IsItemWithin};
ghost use Rattle.rz_core.specs.Stop.{IsReadFault, OnRefusal, Yields};
ghost use Rattle.rz_tools_resource.specs.Items.{item_given, item_read, items_given, items_read};

use crate::laws::fileless_items_stay;
use crate::named::items_name;
use rz_core::{Facts, Fault, FileNames, Halt, Mark};
use rz_folder::Folder;
use rz_stmt_items::{Item, Items};
use rz_tools_values::read_texts;
use std::alloc::Global;

/// Items in which what the files give that their texts name has taken the place of the parts that name them, from left to
/// right. The first fault is the answer, as `read_texts` says, on the line of the statement. No file changes. Items that
/// name no file are given back as they are, and no memory is taken. (MPW Rez.)
#[cycle(items)]
pub fn read_items<F: Folder>(
    alloc: Global,
    folder: &mut F,
    paths: &FileNames,
    items: Items,
    mark: Mark,
    known: &Facts,
) -> Result<Items, Halt<Fault>>
    requires { MayRead F.Folder folder.old (LooksFor paths.now (ItemsAsk (plain_items items))) }
    ensures read { IfSome (F.files folder.old) (λ files.
        Yields result (λ answer. items_given answer ≡ items_read paths.now files mark known.now (plain_items items))) }
    ensures within { (files : ℕ) → AreItemsWithin files (plain_items items) → IfOk result (λ made. AreItemsWithin files (plain_items made)) }
    ensures nameable { (files : ℕ) → mark.file < files → OnRefusal result (IsNameable files) }
    ensures reads { OnlyReads F.Folder folder.old folder.new (IsReadFault result) }
{
    if !items_name(items.as_slice()) {
        fileless_items_stay();
        return Ok(items);
    }
    let mut made = Items::new(alloc);
    for item in items.into_vec() {
        let item = read_item(alloc, folder, paths, item, mark, known)?;
        made.push(item)?;
    }
    Ok(made)
}

/// An item, with what the files give that its texts name.
#[cycle(items)]
fn read_item<F: Folder>(
    alloc: Global,
    folder: &mut F,
    paths: &FileNames,
    item: Item,
    mark: Mark,
    known: &Facts,
) -> Result<Item, Halt<Fault>>
    requires { MayRead F.Folder folder.old (LooksFor paths.now (ItemAsks (plain_item item))) }
    ensures read { IfSome (F.files folder.old) (λ files. Yields result (λ answer. item_given answer ≡ item_read paths.now files mark known.now (plain_item item))) }
    ensures within { (files : ℕ) → IsItemWithin files (plain_item item) → IfOk result (λ made. IsItemWithin files (plain_item made)) }
    ensures nameable { (files : ℕ) → mark.file < files → OnRefusal result (IsNameable files) }
    ensures reads { OnlyReads F.Folder folder.old folder.new (IsReadFault result) }
{
    match item {
        Item::Number(expr, place) => Ok(Item::Number(expr, place)),
        Item::Text(texts, place) => {
            let texts = read_texts(alloc, folder, paths, texts, mark, known)?;
            Ok(Item::Text(texts, place))
        }
        Item::List(items, place) => {
            let items = read_items(alloc, folder, paths, items, mark, known)?;
            Ok(Item::List(items, place))
        }
        Item::Named(name, items, place) => {
            let items = read_items(alloc, folder, paths, items, mark, known)?;
            Ok(Item::Named(name, items, place))
        }
    }
}
