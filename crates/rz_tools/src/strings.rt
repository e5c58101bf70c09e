//! `strings`: the type files, the fork of the file, and the texts of its resources as a catalogue. What it answers is
//! in `specs/Strings`.

ghost use Rattle.std.specs.Prelude.{◌≡◌, ◌≢◌, ◌<◌, ◌^◌, [], ℕ, length, IfOk};
ghost use Rattle.std.specs.FinMap as map;
ghost use Rattle.rz_core.specs.Message.{IsNameable};
ghost use Rattle.rz_core.specs.Stop.{seen, Meets, OnFault};
ghost use Rattle.rz_folder.specs.Finds.{Finds};
ghost use Rattle.rz_folder.specs.MayRead.{MayReadOf};
ghost use Rattle.rz_folder.specs.Names.{IsUnplaced};
ghost use Rattle.rz_pre.specs.Lexed.{HaveLexedTexts};
ghost use Rattle.rz_tools_answer.specs.Made.{making_of, IsSayable, IsWarned};
ghost use Rattle.rz_tools_args.specs.Command.{places_of};
ghost use Rattle.rz_tools_args.specs.Held.{items_of};
ghost use Rattle.rz_tools.specs.Again.{HoldsFile, OfFile};
ghost use Rattle.rz_tools.specs.Asked.{StringsAsk};
ghost use Rattle.rz_tools.specs.Held.{strings};
ghost use Rattle.rz_tools.specs.Strings.{short_fork_in, strings_asked, HasCatalogue, HasFileCatalogue, Lists};
ghost use Rattle.rz_types_table.specs.TypeTable.{table_of};

use crate::listed::listed;
use crate::sources::{Compiled, SourceWords};
use crate::types::{compile_types, names_behind};
use rz_bridge_files::{Form, admit_fork, file_in};
use rz_core::{Bytes, Fault, Halt, Moment, NoMemory, Stop};
use rz_folder::{Folder, read_present};
use rz_tools_answer::{Failing, Made, say_beside};
use rz_tools_args::{Command, Flag};
use rz_tools_output::all_short;
use rz_types_table::TypeTable;
use std::alloc::Global;

/// What `strings` is asked for.
#[derive(Drop)]
pub struct StringsWords<'a> {
    /// The name of the fork.
    pub file: String,
    /// The form of the fork's file.
    pub from: Option<Form>,
    /// The type files.
    pub types: SourceWords<'a>,
}

impl<'a> StringsWords<'a> {
    /// What these items ask for: the first file is the fork, and the others are type files.
    pub fn of(alloc: Global, command: Command<'a>) -> Result<StringsWords<'a>, NoMemory>
        requires { places_of (items_of command) ≢ [] }
        ensures { IfOk result (λ words. strings words ≡ strings_asked (items_of command.entry)) }
    {
        let files = command.files(alloc)?;
        Ok(StringsWords {
            file: files.at(0).to_string(alloc)?,
            from: command.form(Flag::From),
            types: SourceWords::of(alloc, names_behind(alloc, &files, 1)?, command)?,
        })
    }
}

/// The texts of the fork's resources as a catalogue, under what the type files declare, or what stopped the command.
/// The type files are read first, then the file of templates, then the statements of the type files, of which `type`
/// alone takes effect, and then the fork.
pub fn list_strings<F: Folder>(
    alloc: Global,
    folder: &mut F,
    words: &StringsWords<'_>,
    moment: Moment,
) -> Result<Made, Halt<Failing>>
    requires lexed { HaveLexedTexts words.now.types.defs }
    requires may { MayReadOf F.Folder folder.old (StringsAsk (strings words.now)) }
    ensures { Finds F.Folder folder.old folder.new (seen making_of result) (OfFile (strings words.now).from (strings words.now).file (Lists moment (strings words.now))) IsWarned IsSayable }
{
    let compiled = compile_types(alloc, folder, &words.types, moment)?;
    let Compiled { work, files, .. } = compiled;
    let output = catalogue_of(alloc, folder, words, &work.types, moment);
    let made = say_beside(alloc, output, &work.warnings, files);
    drop(work);
    made
}

/// The catalogue of the fork's file under these types.
fn catalogue_of<F: Folder>(
    alloc: Global,
    folder: &mut F,
    words: &StringsWords<'_>,
    types: &TypeTable,
    moment: Moment,
) -> Result<Bytes, Halt<Fault>>
    requires { F.may_read folder.old (strings words.now).file }
    ensures { Finds F.Folder folder.old folder.new result (OfFile (strings words.now).from (strings words.now).file
        (λ files. HasFileCatalogue moment (table_of types.now) (strings words.now) (map.get files (strings words.now).file))) (λ _. Unit {0}) IsUnplaced }
{
    let bytes = read_present(alloc, folder, words.file.as_str())?;
    Ok(catalogue_in(alloc, words.from, bytes, types, moment)?)
}

/// The catalogue of the fork in bytes of a form, or the fault of their form or their fork, or 301.
fn catalogue_in(
    alloc: Global,
    from: Option<Form>,
    bytes: Bytes,
    types: &TypeTable,
    moment: Moment,
) -> Result<Bytes, Stop<Fault>>
    requires { length bytes < 2 ^ 32 }
    ensures text { Meets result (HasCatalogue moment (table_of types.now) (short_fork_in from bytes)) }
    ensures held { IfOk result (λ _. HoldsFile from bytes) }
    ensures nameable { (files : ℕ) → OnFault result (IsNameable files) }
{
    let file = file_in(alloc, from, bytes, Bytes::new(alloc), None)?;
    let fork = match admit_fork(file.res_fork.as_slice(), None) {
        Ok(fork) => fork,
        Err(fault) => return Err(Stop::Refused(fault)),
    };
    all_short(&fork)?;
    Ok(listed(alloc, &fork, types, moment)?)
}
