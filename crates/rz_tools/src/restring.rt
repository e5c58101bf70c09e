//! `restring`: the type files, the fork of the file, the catalogue, and the file of the fork with the texts of the
//! catalogue in place. What it answers is in `specs/Restring`.

ghost use Rattle.std.specs.Prelude.{◌≡◌, ◌<◌, ◌+◌, ◌^◌, length, IfOk};
ghost use Rattle.std.specs.FinMap as map;
ghost use Rattle.rz_catalog_text.specs.Stored.{AreEntriesIn};
ghost use Rattle.rz_core.specs.Message.{IsNameable};
ghost use Rattle.rz_core.specs.Stop.{seen};
ghost use Rattle.rz_folder.specs.Finds.{Finds};
ghost use Rattle.rz_folder.specs.MayRead.{MayRead, MayReadOf};
ghost use Rattle.rz_pre.specs.Lexed.{HaveLexedTexts};
ghost use Rattle.rz_tools_answer.specs.Made.{making_of, FitsFile, IsSayable};
ghost use Rattle.rz_tools_args.specs.Command.{places_of};
ghost use Rattle.rz_tools_args.specs.Held.{items_of};
ghost use Rattle.rz_tools.specs.Asked.{RestringAsks, RestringAsksAfter};
ghost use Rattle.rz_tools.specs.Held.{restring};
ghost use Rattle.rz_tools.specs.Restring.{restring_asked, HasCatalogueFile, IsRestrungUnder, Restrings};
ghost use Rattle.rz_types_table.specs.TypeTable.{table_of};

use crate::sources::{Compiled, SourceWords};
use crate::types::{compile_types, names_behind};
use rz_bridge_files::Form;
use rz_catalog::{apply, entry_faults_are_told, resources_stay};
use rz_catalog_text::{Entries, entries_in};
use rz_core::{Bytes, Fault, Halt, Moment, NoMemory};
use rz_folder::{Folder, read_present};
use rz_tools_answer::{Failing, Made, say_beside};
use rz_tools_args::{Command, Flag, Switch};
use rz_tools_output::{Target, read_held, write_output};
use rz_types_table::TypeTable;
use std::alloc::Global;

/// What `restring` is asked for.
#[derive(Drop)]
pub struct RestringWords<'a> {
    /// The name of the fork.
    pub file: String,
    /// The form of the fork's file.
    pub from: Option<Form>,
    /// The name of the catalogue.
    pub catalogue: String,
    /// Texts of protected resources may be changed.
    pub over: bool,
    /// The name of the file to write.
    pub output: &'a str,
    /// The type files.
    pub types: SourceWords<'a>,
}

impl<'a> RestringWords<'a> {
    /// What these items ask for: the first file is the fork, the second the catalogue, and the others are type files;
    /// the file to write is `Rez.Out` where they name none.
    pub fn of(alloc: Global, command: Command<'a>) -> Result<RestringWords<'a>, NoMemory>
        requires { 1 < length (places_of (items_of command)) }
        ensures { IfOk result (λ words. restring words ≡ restring_asked (items_of command.entry)) }
    {
        let files = command.files(alloc)?;
        Ok(RestringWords {
            file: files.at(0).to_string(alloc)?,
            from: command.form(Flag::From),
            catalogue: files.at(1).to_string(alloc)?,
            over: command.has(Switch::Over),
            output: command.name(Flag::Output).unwrap_or("Rez.Out"),
            types: SourceWords::of(alloc, names_behind(alloc, &files, 2)?, command)?,
        })
    }
}

/// The fork's file, in which the texts of the catalogue stand in the place of those of the resources, or what stopped
/// the command. The type files are read first, then the file of templates, then the statements of the type files, of
/// which `type` alone takes effect, then the fork, and then the catalogue, which counts as a file after those that the
/// type files opened.
pub fn restring_fork<F: Folder>(
    alloc: Global,
    folder: &mut F,
    words: &RestringWords<'_>,
    moment: Moment,
) -> Result<Made, Halt<Failing>>
    requires lexed { HaveLexedTexts words.now.types.defs }
    requires may { MayReadOf F.Folder folder.old (RestringAsks (restring words.now)) }
    ensures { Finds F.Folder folder.old folder.new (seen making_of result) (Restrings moment (restring words.now)) FitsFile IsSayable }
{
    let compiled = compile_types(alloc, folder, &words.types, moment)?;
    let Compiled {
        work,
        mut files,
        ..
    } = compiled;
    let file = files.len();
    let output = restrung(alloc, folder, words, &work.types, file, moment);
    drop(work.types);
    drop(work.resources);
    files.push(words.catalogue.as_str())?;
    say_beside(alloc, output, &work.warnings, files)
}

/// The file to write under these types, where the catalogue is after so many files.
fn restrung<F: Folder>(
    alloc: Global,
    folder: &mut F,
    words: &RestringWords<'_>,
    types: &TypeTable,
    file: u64,
    moment: Moment,
) -> Result<Bytes, Halt<Fault>>
    requires { MayRead F.Folder folder.old (RestringAsksAfter (restring words.now)) }
    ensures { Finds F.Folder folder.old folder.new result (IsRestrungUnder moment (table_of types.now) file (restring words.now)) (λ bytes. length bytes < 2 ^ 32) (IsNameable (file + 1)) }
{
    resources_stay();
    entry_faults_are_told();
    let begun = read_held(alloc, folder, words.from, words.file.as_str())?;
    let entries = read_catalogue(alloc, folder, words.catalogue.as_str(), file)?;
    let changed = apply(alloc, types, &begun.list, &entries, moment, words.over)?;
    let target = Target::named(words.output);
    Ok(write_output(alloc, &target, begun.base, &changed, moment)?)
}

/// The entries of the catalogue of this name, which is after so many files.
fn read_catalogue<F: Folder>(
    alloc: Global,
    folder: &mut F,
    name: &str,
    file: u64,
) -> Result<Entries, Halt<Fault>>
    requires { F.may_read folder.old name.now }
    ensures { Finds F.Folder folder.old folder.new result (λ files. HasCatalogueFile file name.now (map.get files name.now)) (AreEntriesIn (file + 1)) (IsNameable (file + 1)) }
{
    let source = read_present(alloc, folder, name)?;
    Ok(entries_in(alloc, source, file)?)
}
