//! The law of items that name no file.

ghost use Rattle.std.specs.Prelude.{◌≡◌, false, ℕ, List, Ok};
ghost use Rattle.rz_core.specs.declared.facts.Facts.{Facts};
ghost use Rattle.rz_core.specs.declared.fault.Mark.{Mark};
ghost use Rattle.rz_folder.specs.Folder.{Files};
ghost use Rattle.rz_stmt_items.specs.Item.{items_of, PlainItem};
ghost use Rattle.rz_tools_resource.specs.Items.{items_read};
ghost use Rattle.rz_tools_resource.specs.Named.{items_name};

/// A law, with nothing to run: items that name no file are read as they are, whatever the files hold.
#[tactic(auto, using(crate::proofs::Fileless::items_stay))]
pub fn fileless_items_stay()
    ensures { (paths : List (List ℕ)) (files : Files) (mark : Mark) (known : Facts) (items : List PlainItem) → items_name (items_of items) ≡ false
        → items_read paths files mark known items ≡ Ok items }
{}
