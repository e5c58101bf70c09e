//! The statements over the list, each handed on to its module. A new one is a case of `specs/Lists`.

ghost use Rattle.std.specs.Prelude.{◌≡◌, ◌<◌, ℕ, IfSome};
ghost use Rattle.rz_core.specs.Message.{IsNameable};
ghost use Rattle.rz_folder.specs.MayRead.{MayRead};
ghost use Rattle.rz_folder.specs.Names.{LooksFor};
ghost use Rattle.rz_tools_work.specs.Asked.{ListAsks};
ghost use Rattle.rz_folder.specs.OnlyReads.{OnlyReads};
ghost use Rattle.rz_stmt_lists.specs.Lists.{list_of};
ghost use Rattle.rz_core.specs.Stop.{IsReadFault, OnRefusal, left, Yields};
ghost use Rattle.rz_tools_values.specs.Around.{around as among};
ghost use Rattle.rz_tools_work.specs.Lists.{list_after};

use crate::change::{change_resources, delete_resources};
use crate::include::include_resources;
use crate::read::{halted, read_resource};
use rz_core::{Fault, Halt};
use rz_folder::Folder;
use rz_set::ResSet;
use rz_stmt_lists::ListStmt;
use rz_tools_values::Around;
use std::alloc::Global;

/// Does what an `include`, `read`, `change` or `delete` statement on this line says, or answers with its first fault. What each statement is tested for,
/// in this order:
///
/// - `include`: its file is there (101), is of a form and has a fork that break no rule; the ids of its pick (211, 215,
///   204); a pick by id or name chooses a resource (218); its head (of the id 211, 215, 204, of the name 216, of each
///   attribute 211, 215, 207); no protected resource is replaced (219).
/// - `read`: its head (as above); its file is there (101) and has at most 16,777,212 bytes (301); 219.
/// - `change`: the list is that of a file that is appended to (205); the ids of its pick; 218; its head; 219.
/// - `delete`: 205; the ids of its pick; 218; 219.
///
/// 101 keeps the name, 218 the type and the id, or the name, and 219 the type and the id of the protected resource; 219
/// isn't tested where protected ones are given up. A read fault comes only where the folder's count of read faults rose. No
/// file changes. A statement goes a few times over the resources of its file or over the list; of those of the file it copies
/// what it puts alone. (MPW Rez.)
pub fn list_step<F: Folder>(
    alloc: Global,
    folder: &mut F,
    around: Around<'_>,
    stmt: &ListStmt,
    resources: &mut ResSet,
) -> Result<(), Halt<Fault>>
    requires { MayRead F.Folder folder.old (LooksFor around.paths.now (ListAsks (list_of stmt.now))) }
    ensures stepped { IfSome (F.files folder.old) (λ files.
        Yields (left resources.new result) (λ answer. answer
        ≡ list_after (among around.entry.setting around.entry.paths.now files) around.entry.mark resources.old (list_of stmt.now))) }
    ensures nameable { (files : ℕ) → around.entry.mark.file < files → OnRefusal result (IsNameable files) }
    ensures reads { OnlyReads F.Folder folder.old folder.new (IsReadFault result) }
{
    match stmt {
        ListStmt::Include(stmt) => include_resources(alloc, folder, around, stmt, resources),
        ListStmt::Read(stmt) => read_resource(alloc, folder, around, stmt, resources),
        ListStmt::Change(stmt) => {
            halted(change_resources(alloc, stmt, around.mark, around.setting, resources))
        }
        ListStmt::Delete(stmt) => {
            halted(delete_resources(alloc, stmt, around.mark, around.setting, resources))
        }
    }
}
