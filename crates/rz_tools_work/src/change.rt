//! The statements `change` and `delete`. What they leave of the list is in `specs/Change`.

ghost use Rattle.std.specs.Prelude.{◌≡◌, ◌<◌, ℕ, IfOk, Some};
ghost use Rattle.rz_core.specs.Message.{IsNameable};
ghost use Rattle.rz_core.specs.Stop.{Gives, OnFault, left, Meets};
ghost use Rattle.rz_stmt_lists.specs.Change.{change_of};
ghost use Rattle.rz_stmt_lists.specs.Delete.{delete_of};
ghost use Rattle.rz_stmt_lists.specs.Pick.{pick_of};
ghost use Rattle.rz_set.specs.After.{HasShortName};
ghost use Rattle.rz_set.specs.Change.{MayHaveId};
ghost use Rattle.rz_tools_work.specs.Change.{change_said, list_changing, list_deleting, pick_to_change};

use crate::pick::pick_said;
use crate::putting::on_line;
use crate::renaming::{Renamed, lent_of, new_head};
use rz_core::{Fault, Kept, Mark, OsType, Stop};
use rz_set::{Pick, ResSet};
use rz_stmt_lists::{ChangeStmt, DeleteStmt, PickExpr};
use rz_tools_values::{Setting, chosen_in_set, sought_by};
use std::alloc::Global;

/// Does what a `change` statement on this line says: the resources of the list that its pick chooses come under a new type
/// and, where one is chosen, under its head, each in its place; another resource that has the new type and id is taken
/// out. The first fault is the answer: 205 where the list isn't that of a file that is appended to; of the ids of the pick
/// 211, 215 and 204; 218 for a pick by id or name that chooses none; the faults of the head, as `new_head` says; and 219
/// for a protected resource that would be changed or taken out, where protected ones aren't given up (kept: its type and
/// id). (MPW Rez.)
pub fn change_resources(
    alloc: Global,
    stmt: &ChangeStmt,
    mark: Mark,
    setting: Setting,
    resources: &mut ResSet,
) -> Result<(), Stop<Fault>>
    ensures changed { Meets (left resources.new result) (λ answer. answer ≡ list_changing setting mark resources.old (change_of stmt.now)) }
    ensures nameable { (files : ℕ) → mark.file < files → OnFault result (IsNameable files) }
{
    let said = change_said(alloc, stmt, mark, setting, resources)?;
    let sought = sought_by(alloc, stmt.kind, &said.pick)?;
    let left = resources.change(stmt.kind, &said.pick, &said.head, setting.over);
    on_line(left, mark, sought)
}

/// The pick of a `change` statement, and what the resources become that it chooses.
fn change_said(
    alloc: Global,
    stmt: &ChangeStmt,
    mark: Mark,
    setting: Setting,
    list: &ResSet,
) -> Result<Renamed, Stop<Fault>>
    ensures said { Gives (change_said setting mark list.now (change_of stmt.now)) result }
    ensures short { IfOk result (λ said. HasShortName (Some said.head)) }
    ensures id { IfOk result (λ said. MayHaveId said.pick said.head) }
    ensures nameable { (files : ℕ) → mark.file < files → OnFault result (IsNameable files) }
{
    let pick = pick_to_change(alloc, stmt.kind, &stmt.pick, mark, setting)?;
    let one = chosen_in_set(alloc, list, stmt.kind, &pick, mark)?;
    let one = lent_of(one);
    let head = new_head(alloc, stmt.new_kind, &one, &stmt.head, mark, setting)?;
    Ok(Renamed { pick, head })
}

/// Does what a `delete` statement on this line says: the resources of the list that its pick chooses are taken out. The
/// first fault is the answer: 205 where the list isn't that of a file that is appended to; of the ids of the pick 211, 215
/// and 204; 218 for a pick by id or name that chooses none; and 219 for a protected resource, where protected ones aren't
/// given up (kept: its type and id). (MPW Rez.)
pub fn delete_resources(
    alloc: Global,
    stmt: &DeleteStmt,
    mark: Mark,
    setting: Setting,
    resources: &mut ResSet,
) -> Result<(), Stop<Fault>>
    ensures deleted { Meets (left resources.new result) (λ answer. answer ≡ list_deleting setting mark resources.old (delete_of stmt.now)) }
    ensures nameable { (files : ℕ) → mark.file < files → OnFault result (IsNameable files) }
{
    let pick = pick_to_change(alloc, stmt.kind, &stmt.pick, mark, setting)?;
    let sought = sought_by(alloc, stmt.kind, &pick)?;
    let left = resources.remove(stmt.kind, &pick, setting.over);
    on_line(left, mark, sought)
}

/// The pick of a statement that changes or deletes, which is for a file that is appended to alone: 205.
fn pick_to_change(
    alloc: Global,
    kind: OsType,
    pick: &PickExpr,
    mark: Mark,
    setting: Setting,
) -> Result<Pick, Stop<Fault>>
    ensures pick { Gives (pick_to_change setting mark kind.code (pick_of pick.now)) result }
    ensures nameable { (files : ℕ) → mark.file < files → OnFault result (IsNameable files) }
{
    if !setting.append {
        return Err(Stop::Refused(Fault {
            number: 205,
            mark: Some(mark),
            kept: Kept::Nothing,
        }));
    }
    pick_said(alloc, kind, pick, mark, setting)
}
