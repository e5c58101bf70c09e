//! The laws of strings that name no file, and of the resources of a file.

ghost use Rattle.std.specs.Prelude.{◌≡◌, false, ℕ, List, Ok};
ghost use Rattle.rz_core.specs.declared.facts.Facts.{Facts};
ghost use Rattle.rz_core.specs.declared.fault.Mark.{Mark};
ghost use Rattle.rz_folder.specs.Folder.{Files};
ghost use Rattle.rz_tools_values.specs.Files.{file_of_name, list_named, list_of_file};
ghost use Rattle.rz_tools_values.specs.Named.{texts_name};
ghost use Rattle.rz_tools_values.specs.Texts.{texts_read};
ghost use Rattle.rz_types_fields.specs.Text.{PlainPart};

/// A law, with nothing to run: a text that names no file is read as it is, whatever the files hold.
#[tactic(auto, using(crate::proofs::Fileless::texts_stay))]
pub fn fileless_texts_stay()
    ensures { (paths : List (List ℕ)) (files : Files) (mark : Mark) (known : Facts) (parts : List PlainPart) → texts_name parts ≡ false
        → texts_read paths files mark known parts ≡ Ok parts }
{}

/// A law, with nothing to run: the resources of the file that a statement names are those of the fork of that file, or the
/// first fault of the file, of its form and of its fork.
#[tactic(auto, using(crate::proofs::Split::list_split))]
pub fn list_named_is_of_the_file()
    ensures { (paths : List (List ℕ)) (files : Files) (mark : Mark) (name : List ℕ) → list_named paths files mark name
        ≡ list_of_file mark (file_of_name paths files mark name) }
{}
