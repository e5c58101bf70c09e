//! The resource of a `data` statement, as `specs/Raw` says.

ghost use Rattle.std.specs.Prelude.{◌≡◌, ◌<◌, ℕ, length, IfOk, IfSome};
ghost use Rattle.rz_core.specs.Message.{IsNameable};
ghost use Rattle.rz_stmt_data.specs.Raw.{raw_of};
ghost use Rattle.rz_folder.specs.MayRead.{MayRead};
ghost use Rattle.rz_folder.specs.Names.{LooksFor};
ghost use Rattle.rz_tools_values.specs.Asked.{TextsAsk};
ghost use Rattle.rz_folder.specs.OnlyReads.{OnlyReads};
ghost use Rattle.rz_core.specs.Stop.{IsReadFault, OnRefusal, Yields};
ghost use Rattle.rz_tools_values.specs.Around.{around as among};
ghost use Rattle.rz_tools_resource.specs.Raw.{resource_of};

use rz_core::{Fault, Halt, Resource};
use rz_folder::Folder;
use rz_stmt_data::DataStmt;
use rz_tools_values::{Around, contents_of, facts_of, read_texts, with_bytes};
use std::alloc::Global;

/// The resource of a `data` statement on this line: the values of its head, then what the files give that its text names,
/// as `read_texts` says, then 211, 215 and 222 of the text, and then 301 for contents of more than 16,777,212 bytes. No
/// file changes. (MPW Rez.)
pub fn resource_of<F: Folder>(
    alloc: Global,
    folder: &mut F,
    around: Around<'_>,
    raw: DataStmt,
) -> Result<Resource, Halt<Fault>>
    requires { MayRead F.Folder folder.old (LooksFor around.paths.now (TextsAsk (raw_of raw).texts)) }
    ensures resource { IfSome (F.files folder.old) (λ files. Yields result (λ answer. answer
        ≡ resource_of (among around.entry.setting around.entry.paths.now files) around.entry.mark (raw_of raw))) }
    ensures named { IfOk result (λ resource. length resource.name < 256) }
    ensures nameable { (files : ℕ) → around.entry.mark.file < files → OnRefusal result (IsNameable files) }
    ensures reads { OnlyReads F.Folder folder.old folder.new (IsReadFault result) }
{
    let DataStmt { kind, head, texts } = raw;
    let said = facts_of(alloc, kind, &head, around.mark, around.setting);
    drop(head);
    let known = said?;
    let texts = read_texts(alloc, folder, around.paths, texts, around.mark, &known)?;
    let bytes = contents_of(alloc, &texts, around.mark, &known);
    drop(texts);
    Ok(with_bytes(known, bytes?))
}
