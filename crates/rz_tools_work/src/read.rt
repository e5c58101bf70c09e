//! The statement `read`. What it leaves of the list is in `specs/Read`.

ghost use Rattle.std.specs.Prelude.{◌≡◌, ◌<◌, ℕ, length, IfOk, IfSome};
ghost use Rattle.rz_core.specs.Message.{IsNameable};
ghost use Rattle.rz_folder.specs.MayRead.{IsOneOf, MayRead};
ghost use Rattle.rz_folder.specs.Names.{names_of, utf8_name};
ghost use Rattle.rz_folder.specs.OnlyReads.{OnlyReads};
ghost use Rattle.rz_stmt_lists.specs.Read.{read_of};
ghost use Rattle.rz_core.specs.Stop.{IsReadFault, OnRefusal, Yields, halted, left};
ghost use Rattle.rz_tools_values.specs.Around.{around as among};
ghost use Rattle.rz_tools_work.specs.Read.{list_reading, resource_read};

use crate::putting::put;
use rz_core::{Fault, Halt, Resource, Stop};
use rz_folder::Folder;
use rz_set::ResSet;
use rz_stmt_lists::ReadStmt;
use rz_tools_values::{Around, facts_of, file_named, short_bytes, with_bytes};
use std::alloc::Global;

/// Does what a `read` statement on this line says: the whole file, as it is, becomes a resource with this head, and is put
/// into the list. The first fault is the answer: those of the head, as `facts_of` says; 101 where the file stands neither
/// under its name nor after a path (kept: the name); 301 for more than 16,777,212 bytes; and 219 for a protected resource
/// with its type and id, where protected ones aren't given up. No file changes, and no other file is read. (MPW Rez.)
pub fn read_resource<F: Folder>(
    alloc: Global,
    folder: &mut F,
    around: Around<'_>,
    stmt: &ReadStmt,
    resources: &mut ResSet,
) -> Result<(), Halt<Fault>>
    requires { MayRead F.Folder folder.old (IsOneOf (names_of around.paths.now (utf8_name (read_of stmt.now).file))) }
    ensures read { IfSome (F.files folder.old) (λ files.
        Yields (left resources.new result) (λ answer. answer
        ≡ list_reading (among around.entry.setting around.entry.paths.now files) around.entry.mark resources.old (read_of stmt.now))) }
    ensures nameable { (files : ℕ) → around.entry.mark.file < files → OnRefusal result (IsNameable files) }
    ensures reads { OnlyReads F.Folder folder.old folder.new (IsReadFault result) }
{
    let resource = resource_read(alloc, folder, around, stmt)?;
    halted(put(resources, resource, around.setting.over, around.mark))
}

/// The resource that a `read` statement on this line makes.
fn resource_read<F: Folder>(
    alloc: Global,
    folder: &mut F,
    around: Around<'_>,
    stmt: &ReadStmt,
) -> Result<Resource, Halt<Fault>>
    requires { MayRead F.Folder folder.old (IsOneOf (names_of around.paths.now (utf8_name (read_of stmt.now).file))) }
    ensures read { IfSome (F.files folder.old) (λ files. Yields result (λ answer. answer
        ≡ resource_read (among around.entry.setting around.entry.paths.now files) around.entry.mark (read_of stmt.now))) }
    ensures named { IfOk result (λ resource. length resource.name < 256) }
    ensures nameable { (files : ℕ) → around.entry.mark.file < files → OnRefusal result (IsNameable files) }
    ensures reads { OnlyReads F.Folder folder.old folder.new (IsReadFault result) }
{
    let known = facts_of(alloc, stmt.kind, &stmt.head, around.mark, around.setting)?;
    let name = stmt.file.as_slice();
    let bytes = file_named(alloc, folder, around.paths, name, around.mark)?;
    let short = short_bytes(bytes, around.mark)?;
    Ok(with_bytes(known, short))
}

/// The end of a call that reads no files, as that of one that does.
pub fn halted(ended: Result<(), Stop<Fault>>) -> Result<(), Halt<Fault>>
    ensures { result ≡ halted ended }
{
    match ended {
        Ok(()) => Ok(()),
        Err(stop) => Err(Halt::from(stop)),
    }
}
