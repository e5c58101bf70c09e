//! The statement `include`. What it leaves of the list is in `specs/Include`.

ghost use Rattle.std.specs.Prelude.{◌≡◌, ◌<◌, ◌^◌, ℕ, length, None, Some, IfOk, IfSome};
ghost use Rattle.rz_core.specs.Message.{IsNameable};
ghost use Rattle.rz_core.specs.Stop.{Gives, OnFault, IsReadFault, OnRefusal, Yields, left, Meets};
ghost use Rattle.rz_folder.specs.MayRead.{IsOneOf, MayRead};
ghost use Rattle.rz_folder.specs.Names.{names_of, utf8_name};
ghost use Rattle.rz_folder.specs.OnlyReads.{OnlyReads};
ghost use Rattle.rz_stmt_lists.specs.Include.{include_of, part_of};
ghost use Rattle.rz_set.specs.After.{HasShortName};
ghost use Rattle.rz_set.specs.ResSet.{AreNamed};
ghost use Rattle.rz_tools_values.specs.Around.{around as among};
ghost use Rattle.rz_tools_work.specs.Include.{all_of, asked_by, asked_for, fork_included, included, list_including};

use crate::lent::include_lent;
use crate::pick::pick_said;
use crate::putting::on_line;
use crate::read::halted;
use crate::renaming::new_head;
use rz_bridge_files::admit_fork;
use rz_core::{Fault, Halt, Kept, Mark, NoMemory, OsType, Stop};
use rz_folder::Folder;
use rz_fork::ForkView;
use rz_set::{Choice, Head, Pick, ResSet};
use rz_stmt_lists::{IncludePart, IncludeStmt};
use rz_tools_values::{Around, Setting, chosen_in_fork, file_of_name, sought_by};
use std::alloc::Global;

/// What an `include` statement asks for.
#[derive(Debug, Drop)]
pub struct Asked {
    /// Which resources of the file.
    pub choice: Choice,
    /// What they become, if they don't stay as they are.
    pub head: Option<Head>,
    /// What a fault keeps where there is no such resource.
    pub sought: Kept,
}

/// Does what an `include` statement on this line says: copies of resources of the fork of a file of whatever form are put
/// into the list, all of them, all but those of a type, or those that its pick chooses, under a new type and, where one is
/// chosen, under its head. The first fault is the answer: 101 where the file stands neither under its name nor after a
/// path (kept: the name); the first rule that the form or the fork breaks; of the ids of the pick 211, 215 and 204; 218
/// for a pick by id or name that chooses none; the faults of the head, as `new_head` says; and 219 for a protected
/// resource that would be replaced, where protected ones aren't given up (kept: its type and id). Up to there no
/// resource is copied, but for the name of a picked one while its head is computed. No file changes, and no other file is
/// read. (MPW Rez.)
pub fn include_resources<F: Folder>(
    alloc: Global,
    folder: &mut F,
    around: Around<'_>,
    stmt: &IncludeStmt,
    resources: &mut ResSet,
) -> Result<(), Halt<Fault>>
    requires { MayRead F.Folder folder.old (IsOneOf (names_of around.paths.now (utf8_name (include_of stmt.now).file))) }
    ensures included { IfSome (F.files folder.old) (λ files.
        Yields (left resources.new result) (λ answer. answer
        ≡ list_including (among around.entry.setting around.entry.paths.now files) around.entry.mark resources.old (include_of stmt.now))) }
    ensures nameable { (files : ℕ) → around.entry.mark.file < files → OnRefusal result (IsNameable files) }
    ensures reads { OnlyReads F.Folder folder.old folder.new (IsReadFault result) }
{
    let file = file_of_name(
        alloc,
        folder,
        around.paths,
        stmt.file.as_slice(),
        around.mark,
    )?;
    let fork = file.res_fork.as_slice();
    halted(include_fork(
        alloc,
        fork,
        &stmt.part,
        around.mark,
        around.setting,
        resources,
    ))
}

/// Puts the resources that a part means of the fork in these bytes into the list. No other is copied.
fn include_fork(
    alloc: Global,
    bytes: &[u8],
    part: &IncludePart,
    mark: Mark,
    setting: Setting,
    resources: &mut ResSet,
) -> Result<(), Stop<Fault>>
    requires short { length bytes.now < 2 ^ 32 }
    ensures included { Meets (left resources.new result) (λ answer. answer ≡ fork_included setting mark resources.old (part_of part.now) bytes.now) }
    ensures nameable { (files : ℕ) → mark.file < files → OnFault result (IsNameable files) }
{
    match admit_fork(bytes, Some(mark)) {
        Ok(source) => include_part(alloc, &source, part, mark, setting, resources),
        Err(fault) => Err(Stop::Refused(fault)),
    }
}

/// Puts the resources that a part means of a fork into the list.
fn include_part(
    alloc: Global,
    source: &ForkView<'_>,
    part: &IncludePart,
    mark: Mark,
    setting: Setting,
    resources: &mut ResSet,
) -> Result<(), Stop<Fault>>
    requires named { AreNamed source.now.list }
    ensures included { Meets (left resources.new result) (λ answer. answer ≡ included setting mark resources.old (part_of part.now) source.now.list) }
    ensures nameable { (files : ℕ) → mark.file < files → OnFault result (IsNameable files) }
{
    let asked = asked_by(alloc, source, part, mark, setting)?;
    let left = include_lent(
        alloc,
        source,
        &asked.choice,
        asked.head.as_ref(),
        setting.over,
        resources,
    );
    on_line(left, mark, asked.sought)
}

/// What a part asks for of a fork.
fn asked_by(
    alloc: Global,
    source: &ForkView<'_>,
    part: &IncludePart,
    mark: Mark,
    setting: Setting,
) -> Result<Asked, Stop<Fault>>
    ensures asked { Gives (asked_by setting mark source.now.list (part_of part.now)) result }
    ensures short { IfOk result (λ asked. HasShortName asked.head) }
    ensures nameable { (files : ℕ) → mark.file < files → OnFault result (IsNameable files) }
{
    match part {
        IncludePart::All => Ok(all_of(Choice::All)),
        IncludePart::Not(kind) => Ok(all_of(Choice::Except(*kind))),
        IncludePart::Chosen(kind, pick) => {
            let pick = pick_said(alloc, *kind, pick, mark, setting)?;
            Ok(asked_for(alloc, *kind, pick, None)?)
        }
        IncludePart::Renamed(kind, pick, new_kind, head) => {
            let pick = pick_said(alloc, *kind, pick, mark, setting)?;
            let one = chosen_in_fork(alloc, source, *kind, &pick, mark)?;
            let head = new_head(alloc, *new_kind, &one, head, mark, setting)?;
            Ok(asked_for(alloc, *kind, pick, Some(head))?)
        }
    }
}

/// Resources as they are, whichever there are.
fn all_of(choice: Choice) -> Asked
    ensures { result ≡ all_of choice }
{
    Asked {
        choice,
        head: None,
        sought: Kept::Nothing,
    }
}

/// The resources of a type that a pick chooses, under a head.
fn asked_for(alloc: Global, kind: OsType, pick: Pick, head: Option<Head>) -> Result<Asked, NoMemory>
    ensures { IfOk result (λ asked. asked ≡ asked_for kind pick head) }
{
    let sought = sought_by(alloc, kind, &pick)?;
    Ok(Asked {
        choice: Choice::Chosen(kind, pick),
        head,
        sought,
    })
}
