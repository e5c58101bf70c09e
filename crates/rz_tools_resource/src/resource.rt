//! The resource of a `resource` statement: header, type, files, row, bytes. Their order is that of `specs/Resource`.

ghost use Rattle.std.specs.Prelude.{◌≡◌, ◌<◌, ℕ, true, length, option_map, IfOk, IfSome};
ghost use Rattle.rz_core.specs.Stop.{Meets, OnFault, IsReadFault, OnRefusal, Yields};
ghost use Rattle.rz_core.specs.Message.{IsNameable};
ghost use Rattle.rz_folder.specs.MayRead.{MayRead};
ghost use Rattle.rz_folder.specs.Names.{LooksFor};
ghost use Rattle.rz_tools_resource.specs.Asked.{ItemsAsk};
ghost use Rattle.rz_folder.specs.OnlyReads.{OnlyReads};
ghost use Rattle.rz_stmt_items.specs.Compile.{compile_of};
ghost use Rattle.rz_stmt_items.specs.Item.{plain_items};
ghost use Rattle.rz_stmt_items.specs.Places.{AreItemsWithin};
ghost use Rattle.rz_layout.specs.Compiled.{is_compile_fault};
ghost use Rattle.rz_layout.specs.Fault.{refusal_of};
ghost use Rattle.rz_tools_values.specs.Around.{around as among};
ghost use Rattle.rz_tools_resource.specs.Resource.{no_type, row_fault, AreBytes, AreItemBytes, IsResource};
ghost use Rattle.rz_types_table.specs.Table.{found};
ghost use Rattle.rz_types.specs.Template.{template_of};
ghost use Rattle.rz_types_table.specs.TypeTable.{table_of};

use crate::items::read_items;
use rz_core::{Bytes, Facts, Fault, Halt, Kept, Mark, Resource, Stop};
use rz_folder::Folder;
use rz_layout::{LayFault, lay_row};
use rz_stmt_items::{Items, ResourceStmt, match_items};
use rz_tools_values::{Around, facts_of, with_bytes};
use rz_types::Template;
use rz_types_table::TypeTable;
use std::alloc::Global;

/// The resource of a `resource` statement on this line: the values of its head; then 202 (kept: the type and the id)
/// where no declaration is for it; then what the files give that its items name; then the row that its items fit; and
/// the bytes that the row spells. The first fault is the answer; that of an item has the item's line. No file changes.
/// (MPW Rez.)
pub fn resource_of_items<F: Folder>(
    alloc: Global,
    folder: &mut F,
    around: Around<'_>,
    stmt: ResourceStmt,
    types: &TypeTable,
) -> Result<Resource, Halt<Fault>>
    requires { MayRead F.Folder folder.old (LooksFor around.paths.now (ItemsAsk (compile_of stmt).items)) }
    ensures resource { IfSome (F.files folder.old) (λ files. Yields result
        (IsResource (among around.entry.setting around.entry.paths.now files) around.entry.mark (table_of types.now) (compile_of stmt))) }
    ensures named { IfOk result (λ resource. length resource.name < 256) }
    ensures nameable { (files : ℕ) → around.entry.mark.file < files → AreItemsWithin files (plain_items stmt.items) → OnRefusal result (IsNameable files) }
    ensures reads { OnlyReads F.Folder folder.old folder.new (IsReadFault result) }
{
    let ResourceStmt { kind, head, items } = stmt;
    let said = facts_of(alloc, kind, &head, around.mark, around.setting);
    drop(head);
    let known = said?;
    let bytes = bytes_of(alloc, folder, around, items, &known, types)?;
    Ok(with_bytes(known, bytes))
}

/// The bytes of items under the fields that are declared for the resource, with what the files give that their texts
/// name.
fn bytes_of<F: Folder>(
    alloc: Global,
    folder: &mut F,
    around: Around<'_>,
    items: Items,
    known: &Facts,
    types: &TypeTable,
) -> Result<Bytes, Halt<Fault>>
    requires { MayRead F.Folder folder.old (LooksFor around.paths.now (ItemsAsk (plain_items items))) }
    ensures bytes { IfSome (F.files folder.old) (λ files. Yields result
        (AreBytes around.entry.paths.now files around.entry.mark (table_of types.now) (plain_items items) known.now)) }
    ensures nameable { (files : ℕ) → around.entry.mark.file < files → AreItemsWithin files (plain_items items) → OnRefusal result (IsNameable files) }
    ensures reads { OnlyReads F.Folder folder.old folder.new (IsReadFault result) }
{
    match template_for(types, known) {
        Some(template) => {
            let items = read_items(alloc, folder, around.paths, items, around.mark, known)?;
            Ok(bytes_under(alloc, &items, around.mark, known, template)?)
        }
        None => Err(Halt::Refused(no_type(known, around.mark))),
    }
}

/// The template that is declared for the resource.
fn template_for<'a>(types: &'a TypeTable, known: &Facts) -> Option<&'a Template>
    ensures { option_map (λ template. template_of template.now) result
        ≡ option_map (λ one. one.template) (found known.now.kind known.now.id (table_of types.now)) }
{
    types.find(known.kind, known.id)
}

/// The bytes of items under the fields of a template: those of the row that they fit.
fn bytes_under(
    alloc: Global,
    items: &Items,
    mark: Mark,
    known: &Facts,
    template: &Template,
) -> Result<Bytes, Stop<Fault>>
    ensures bytes { Meets result (AreItemBytes mark known.now (plain_items items.now) (template_of template.now)) }
    ensures nameable { (files : ℕ) → mark.file < files → AreItemsWithin files (plain_items items.now) → OnFault result (IsNameable files) }
{
    let row = match_items(alloc, template, items, mark, known)?;
    let laid = lay_row(alloc, template, &row, known);
    drop(row);
    match laid {
        Ok(bytes) => Ok(bytes),
        Err(Stop::Refused(fault)) => Err(Stop::Refused(row_fault(fault, mark))),
        Err(Stop::NoMemory) => Err(Stop::NoMemory),
    }
}

/// A refused row, on this line.
fn row_fault(fault: LayFault, mark: Mark) -> Fault
    requires { is_compile_fault fault.number ≡ true }
    ensures fault { result ≡ row_fault mark (refusal_of fault) }
    ensures nameable { (files : ℕ) → mark.file < files → IsNameable files result }
{
    let kept = if fault.number == 211 || fault.number == 222 {
        Kept::Nothing
    } else {
        Kept::Number(fault.value)
    };
    Fault {
        number: fault.number,
        mark: Some(mark),
        kept,
    }
}

/// 202, with the type and the id.
fn no_type(known: &Facts, mark: Mark) -> Fault
    ensures fault { result ≡ no_type mark known.now }
    ensures nameable { (files : ℕ) → mark.file < files → IsNameable files result }
{
    Fault {
        number: 202,
        mark: Some(mark),
        kept: Kept::Key(known.kind, i32::from(known.id)),
    }
}
