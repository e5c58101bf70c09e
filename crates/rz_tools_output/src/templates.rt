//! The file whose 'TMPL' resources declare types. What they declare is in `specs/Templates`.

ghost use Rattle.std.specs.Prelude.{◌<◌, ◌^◌, ℕ, length, option_map, None};
ghost use Rattle.std.specs.FinMap as finite;
ghost use Rattle.rz_core.specs.Message.{IsNameable};
ghost use Rattle.rz_core.specs.Stop.{seen, Meets, OnFault};
ghost use Rattle.rz_bridge_files.specs.Contents.{fork_in};
ghost use Rattle.rz_folder.specs.Finds.{Finds};
ghost use Rattle.rz_folder.specs.MayRead.{IsIt, MayRead};
ghost use Rattle.rz_folder.specs.Names.{IsUnplaced};
ghost use Rattle.rz_types_table.specs.TypeTable.{table_of};
ghost use Rattle.rz_tools_output.specs.Templates.{TypesAt, TypesIn, TypesOf};

use crate::declared::declared_by;
use rz_bridge_files::{admit_fork, file_in};
use rz_core::{Bytes, Fault, Halt, Stop};
use rz_folder::{Folder, read_present};
use rz_types_table::TypeTable;
use std::alloc::Global;

/// The types that the 'TMPL' resources of the file of this name declare, in map order; none where no file is named. The
/// form of the file is found. The name of such a resource is the type that it declares, for any id; one whose name
/// isn't four bytes declares nothing, and so does one that has an entry of an unknown code (452), as ResEdit has more
/// codes. Of several for one type the last counts. No file changes, and no other file is read.
///
/// Refused, without a mark, with 101 where no file has the name (kept: the name), then with the first rule that the
/// form and then the fork of the file break, as [`file_in`] and [`admit_fork`] say, and then with the first fault of
/// the templates in map order: 451 and 453 to 456, as [`template_of`](rz_tmpl::template_of) says (kept: the id and the
/// offset).
///
/// Nothing of the fork is copied. Each template takes the memory and the time that its bytes ask for, also where
/// resources share their bytes: 16,384 templates of the same 16 megabytes are read 16,384 times. Where a template takes
/// the place of one for the same type, it goes once over all that are declared. (ResEdit Reference, 'TMPL' resources.)
pub fn read_templates<F: Folder>(
    alloc: Global,
    folder: &mut F,
    name: Option<&str>,
) -> Result<TypeTable, Halt<Fault>>
    requires { MayRead F.Folder folder.old (IsIt (option_map (λ name. name.now) name)) }
    ensures { Finds F.Folder folder.old folder.new (seen table_of result) (TypesOf (option_map (λ name. name.now) name.entry)) (λ _. Unit {0}) IsUnplaced }
{
    match name {
        Some(name) => templates_at(alloc, folder, name),
        None => Ok(TypeTable::new(alloc)),
    }
}

/// Those of the file of this name.
fn templates_at<F: Folder>(
    alloc: Global,
    folder: &mut F,
    name: &str,
) -> Result<TypeTable, Halt<Fault>>
    requires { F.may_read folder.old name.now }
    ensures { Finds F.Folder folder.old folder.new (seen table_of result) (λ files. TypesAt name.now (finite.get files name.now)) (λ _. Unit {0}) IsUnplaced }
{
    let bytes = read_present(alloc, folder, name)?;
    Ok(templates_in(alloc, bytes)?)
}

/// Those of a file of these bytes.
fn templates_in(alloc: Global, bytes: Bytes) -> Result<TypeTable, Stop<Fault>>
    requires { length bytes < 2 ^ 32 }
    ensures types { Meets (seen table_of result) (TypesIn (fork_in None None bytes)) }
    ensures nameable { (files : ℕ) → OnFault result (IsNameable files) }
{
    let file = file_in(alloc, None, bytes, Bytes::new(alloc), None)?;
    match admit_fork(file.res_fork.as_slice(), None) {
        Ok(fork) => declared_by(alloc, &fork),
        Err(fault) => Err(Stop::Refused(fault)),
    }
}
