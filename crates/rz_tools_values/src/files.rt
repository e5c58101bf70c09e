//! The files that statements name: their bytes, and what these hold in the form that they tell, as `specs/Files` says.

ghost use Rattle.std.specs.Prelude.{◌≡◌, ◌<◌, ◌^◌, ℕ, length, IfOk, IfSome};
ghost use Rattle.rz_core.specs.Message.{IsNameable};
ghost use Rattle.rz_folder.specs.MayRead.{IsOneOf, MayRead};
ghost use Rattle.rz_folder.specs.Names.{names_of, utf8_name};
ghost use Rattle.rz_folder.specs.OnlyReads.{OnlyReads};
ghost use Rattle.rz_core.specs.Stop.{IsReadFault, OnRefusal, Yields};
ghost use Rattle.rz_tools_values.specs.Files.{file_named, file_of_name};

use rz_bridge::MacFile;
use rz_bridge_files::file_in;
use rz_core::{Bytes, Fault, FileNames, Halt, Mark};
use rz_folder::{Folder, names_of, read_file};
use std::alloc::Global;

/// The bytes of the file that a statement on this line names, fewer than 2^32: its name is tried as it stands and then
/// after each path. 101 where there is none (kept: the name). No file changes, and none is read under another name.
/// (MPW Rez.)
pub fn file_named<F: Folder>(
    alloc: Global,
    folder: &mut F,
    paths: &FileNames,
    name: &[u8],
    mark: Mark,
) -> Result<Bytes, Halt<Fault>>
    requires { MayRead F.Folder folder.old (IsOneOf (names_of paths.now (utf8_name name.now))) }
    ensures read { IfSome (F.files folder.old) (λ files. Yields result (λ answer. answer ≡ file_named paths.now files mark name.now)) }
    ensures short { IfOk result (λ bytes. length bytes < 2 ^ 32) }
    ensures nameable { (files : ℕ) → mark.file < files → OnRefusal result (IsNameable files) }
    ensures reads { OnlyReads F.Folder folder.old folder.new (IsReadFault result) }
{
    let names = names_of(alloc, paths, name)?;
    read_file(alloc, folder, &names, mark, name)
}

/// The file that a statement on this line names, read in the form that its bytes tell. A raw file is its bytes as they
/// were read, which are copied no more. Refused with 101 where there is no such file (kept: the name), and then with the
/// first rule of its form that it breaks, as `rz_bridge_files` says. No file changes, and none is read under another
/// name. (MPW Rez.)
pub fn file_of_name<F: Folder>(
    alloc: Global,
    folder: &mut F,
    paths: &FileNames,
    name: &[u8],
    mark: Mark,
) -> Result<MacFile, Halt<Fault>>
    requires { MayRead F.Folder folder.old (IsOneOf (names_of paths.now (utf8_name name.now))) }
    ensures file { IfSome (F.files folder.old) (λ files. Yields result (λ answer. answer ≡ file_of_name paths.now files mark name.now)) }
    ensures res_fork { IfOk result (λ file. length file.res_fork < 2 ^ 32) }
    ensures nameable { (files : ℕ) → mark.file < files → OnRefusal result (IsNameable files) }
    ensures reads { OnlyReads F.Folder folder.old folder.new (IsReadFault result) }
{
    let bytes = file_named(alloc, folder, paths, name, mark)?;
    Ok(file_in(alloc, None, bytes, Bytes::new(alloc), Some(mark))?)
}
