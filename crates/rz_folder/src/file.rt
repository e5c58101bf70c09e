//! The first file that stands under some names, and the fault where none does. See `specs/Names`.

ghost use Rattle.std.specs.Prelude.{◌≡◌, ℕ, ◌<◌, ◌^◌, length, IfOk, IfSome, option_map};
ghost use Rattle.rz_core.specs.Message.{IsMarked, IsNameable};
ghost use Rattle.rz_folder.specs.Finds.{Finds};
ghost use Rattle.rz_folder.specs.MayRead.{IsOneOf, MayRead};
ghost use Rattle.rz_folder.specs.OnlyReads.{OnlyReads};
ghost use Rattle.rz_core.specs.Stop.{IsReadFault, OnRefusal, Yields};
ghost use Rattle.rz_folder.specs.Names.{bytes_of, file_of, missing_file, HasBytes, IsUnplaced};

use crate::{Folder, Read};
use rz_core::{Bytes, Fault, FileNames, Halt, Kept, Mark, NoMemory};
use std::alloc::Global;

/// The first of these names under which a file stands, and its bytes, fewer than 2^32. `None` comes where no file
/// stands under any of them. No file changes, and no other name is read.
///
/// A read fault comes only where the folder's count of read faults rose.
pub fn find<'a, F: Folder>(
    alloc: Global,
    folder: &mut F,
    names: &'a FileNames,
) -> Result<Option<(&'a str, Bytes)>, Halt<Fault>>
    requires { MayRead F.Folder folder.old (IsOneOf names.now) }
    ensures found { IfSome (F.files folder.old) (λ files. IfOk result (λ found.
        option_map (λ found. (found.0.now, found.1)) found ≡ file_of files names.now)) }
    ensures short { IfOk result (λ found. IfSome found (λ found. length found.1 < 2 ^ 32)) }
    ensures reads { OnlyReads F.Folder folder.old folder.new (IsReadFault result) }
    ensures no_rule { OnRefusal result (λ _. ⊥) }
{
    let mut k = 0;
    while k < names.len() {
        let name = names.at(k);
        match folder.read(alloc, name) {
            Read::Bytes(bytes) => return Ok(Some((name, bytes))),
            Read::Missing => k += 1,
            Read::Failed => return Err(Halt::ReadFault),
            Read::NoMemory => return Err(Halt::NoMemory),
        }
    }
    Ok(None)
}

/// The bytes of the first file that stands under one of these names, fewer than 2^32. No file changes, and no other
/// name is read.
///
/// Refused with 101 where no file stands under any of them, at the mark, keeping the name that is given for it. A
/// read fault comes only where the folder's count of read faults rose. (MPW Rez.)
pub fn read_file<F: Folder>(
    alloc: Global,
    folder: &mut F,
    names: &FileNames,
    mark: Mark,
    kept: &[u8],
) -> Result<Bytes, Halt<Fault>>
    requires { MayRead F.Folder folder.old (IsOneOf names.now) }
    ensures read { IfSome (F.files folder.old) (λ files.
        Yields result (λ answer. answer ≡ bytes_of files names.now (missing_file (Some mark) kept.now))) }
    ensures short { IfOk result (λ bytes. length bytes < 2 ^ 32) }
    ensures nameable { (files : ℕ) → mark.file < files → OnRefusal result (IsNameable files) }
    ensures reads { OnlyReads F.Folder folder.old folder.new (IsReadFault result) }
{
    match find(alloc, folder, names)? {
        Some((_, bytes)) => Ok(bytes),
        None => Err(Halt::Refused(missing_file(alloc, Some(mark), kept)?)),
    }
}

/// The bytes of the file of this name, fewer than 2^32. Refused with 101, without a mark, where no file has the name
/// (kept: the name). No file changes, and no other name is read.
pub fn read_present<F: Folder>(
    alloc: Global,
    folder: &mut F,
    name: &str,
) -> Result<Bytes, Halt<Fault>>
    requires { F.may_read folder.old name.now }
    ensures { Finds F.Folder folder.old folder.new result (HasBytes name.now) (λ bytes. length bytes < 2 ^ 32) IsUnplaced }
{
    match folder.read(alloc, name) {
        Read::Bytes(bytes) => Ok(bytes),
        Read::Missing => Err(Halt::Refused(missing_file(alloc, None, name.as_bytes())?)),
        Read::Failed => Err(Halt::ReadFault),
        Read::NoMemory => Err(Halt::NoMemory),
    }
}

/// 101 for a name, with the mark of the line that names it, where there is one.
pub fn missing_file(alloc: Global, mark: Option<Mark>, name: &[u8]) -> Result<Fault, NoMemory>
    ensures fault { IfOk result (λ fault. fault ≡ missing_file mark name.now) }
    ensures nameable { (files : ℕ) → IsMarked files mark → IfOk result (IsNameable files) }
{
    Ok(Fault {
        number: 101,
        mark,
        kept: Kept::Name(Bytes::of(alloc, name)?),
    })
}
