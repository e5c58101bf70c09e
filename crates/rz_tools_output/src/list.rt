//! `list`: the text of a file, which is put piece by piece. What it answers is in `specs/List`.

ghost use Rattle.std.specs.Prelude.{◌≡◌, ◌<◌, ◌^◌, ℕ, length, Ok, IfErr, IfOk, OnOk};
ghost use Rattle.rz_bridge_files.specs.Contents.{admit_fork};
ghost use Rattle.rz_core.specs.Message.{IsNameable};
ghost use Rattle.rz_core.specs.Stop.{seen, Gives, OnFault};
ghost use Rattle.rz_folder.specs.Finds.{Finds};
ghost use Rattle.rz_folder.specs.Names.{IsUnplaced};
ghost use Rattle.rz_fork.specs.Contents.{Fork};
ghost use Rattle.rz_told.specs.Held.{text_of, IsWhole};
ghost use Rattle.rz_tools_output.specs.Det.{det};
ghost use Rattle.rz_tools_output.specs.List.{listed_in, HasList};

use crate::base::form_or;
use crate::det::DetWords;
use rz_bridge_files::{Form, admit_fork, file_in};
use rz_core::{Bytes, Fault, Halt, Stop};
use rz_folder::{Folder, read_present};
use rz_told::FileText;
use std::alloc::Global;

/// The text that answers the words of `list`, which name a file as those of `det` do: what the form of the file
/// carries, and the resources of its fork. Of AppleDouble the header file alone is read.
///
/// Refused, without a mark, with 101 where no file has the name, then with the first rule of its form that the file
/// breaks, as [`file_in`] says, and then with the first rule that its fork breaks, 401 to 410, as [`admit_fork`] says.
pub fn read_list<F: Folder>(
    alloc: Global,
    folder: &mut F,
    words: &DetWords,
) -> Result<FileText, Halt<Fault>>
    requires { F.may_read folder.old (det words.now).file }
    ensures text { Finds F.Folder folder.old folder.new (seen text_of result) (HasList (det words.now)) (λ _. Unit {0}) IsUnplaced }
    ensures whole { IfOk result IsWhole }
{
    let bytes = read_present(alloc, folder, words.file.as_str())?;
    Ok(text_in(alloc, words.from, bytes)?)
}

/// The text of a file of these bytes.
fn text_in(alloc: Global, from: Option<Form>, bytes: Bytes) -> Result<FileText, Stop<Fault>>
    requires { length bytes < 2 ^ 32 }
    ensures text { Gives (listed_in from bytes) (seen text_of result) }
    ensures whole { IfOk result IsWhole }
    ensures nameable { (files : ℕ) → OnFault result (IsNameable files) }
{
    let form = form_or(from, bytes.as_slice());
    let file = file_in(alloc, Some(form), bytes, Bytes::new(alloc), None)?;
    match check_fork(file.res_fork.as_slice()) {
        Ok(()) => Ok(FileText { form, file }),
        Err(fault) => Err(Stop::Refused(fault)),
    }
}

/// Tests whether bytes are a fork: the first rule that it breaks, 401 to 410, without a mark.
pub fn check_fork(fork: &[u8]) -> Result<(), Fault>
    requires { length fork.now < 2 ^ 32 }
    ensures ok { OnOk result ((held : Fork) × (admit_fork None fork.now ≡ Ok held)) }
    ensures err { IfErr result (λ fault. admit_fork None fork.now ≡ Err fault) }
    ensures nameable { (files : ℕ) → IfErr result (IsNameable files) }
{
    admit_fork(fork, None)?;
    Ok(())
}
