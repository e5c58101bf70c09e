//! `derez`: the type files, the fork of the file, and the text of its resources. What it answers is in `specs/DeRez`.

ghost use Rattle.std.specs.Prelude.{◌≡◌, ◌≢◌, [], ◌<◌, ◌^◌, ℕ, length, None, IfOk};
ghost use Rattle.std.specs.FinMap as map;
ghost use Rattle.std.specs.String.{string_bytes};
ghost use Rattle.rz_core.specs.Stop.{Meets, OnFault};
ghost use Rattle.rz_core.specs.Message.{IsNameable};
ghost use Rattle.rz_folder.specs.Finds.{Finds};
ghost use Rattle.rz_folder.specs.MayRead.{MayReadOf};
ghost use Rattle.rz_folder.specs.Names.{IsUnplaced};
ghost use Rattle.rz_bridge_files.specs.Contents.{fork_in};
ghost use Rattle.rz_pre.specs.Lexed.{HaveLexedTexts};
ghost use Rattle.rz_tools.specs.Again.{HoldsFile, OfFile};
ghost use Rattle.rz_tools.specs.Asked.{DeRezAsks};
ghost use Rattle.rz_tools.specs.DeRez.{derez_asked, AnswersDeRez, HasFork, IsFork, IsForkOf, Shows};
ghost use Rattle.rz_tools.specs.Held.{derez, IsShown, ShowsText};
ghost use Rattle.rz_tools.specs.Reply.{IsReplyOf};
ghost use Rattle.rz_tools.specs.Shown.{ShowsFile};
ghost use Rattle.rz_tools_answer.specs.Made.{IsSayable};
ghost use Rattle.rz_tools_args.specs.Command.{places_of};
ghost use Rattle.rz_tools_args.specs.Held.{items_of};

use crate::reply::{ForkShown, Reply, planned};
use crate::sources::{Compiled, SourceWords};
use crate::types::{compile_types, names_behind};
use rz_bridge_files::{Form, file_in};
use rz_core::{Bytes, Fault, Halt, Moment, NoMemory, Stop};
use rz_folder::{Folder, read_present};
use rz_tools_answer::{Failing, Made, Plan, say_beside};
use rz_tools_args::{Command, Flag, Kinds};
use rz_tools_output::check_fork;
use rz_tools_text::{ForkText, Known};
use rz_tools_work::Work;
use std::alloc::Global;
use std::convert::Infallible;

/// What `derez` is asked for.
#[derive(Drop)]
pub struct DeRezWords<'a> {
    /// The name of the fork.
    pub file: String,
    /// The form of the fork's file.
    pub from: Option<Form>,
    /// The types that alone are shown, where there are any.
    pub only: Kinds,
    /// The types that aren't shown.
    pub skip: Kinds,
    /// The type files.
    pub types: SourceWords<'a>,
}

impl<'a> DeRezWords<'a> {
    /// What these items ask for: the first file is the fork, and the others are type files.
    pub fn of(alloc: Global, command: Command<'a>) -> Result<DeRezWords<'a>, NoMemory>
        requires { places_of (items_of command) ≢ [] }
        ensures { IfOk result (λ words. derez words ≡ derez_asked (items_of command.entry)) }
    {
        let files = command.files(alloc)?;
        Ok(DeRezWords {
            file: files.at(0).to_string(alloc)?,
            from: command.form(Flag::From),
            only: command.kinds(alloc, Flag::Only)?,
            skip: command.kinds(alloc, Flag::Skip)?,
            types: SourceWords::of(alloc, names_behind(alloc, &files, 1)?, command)?,
        })
    }
}

/// The answer to the words of `derez`: under what the type files declare, the text of the resources of the fork whose
/// types the words choose, which is to be put out line by line.
pub fn answer_derez<F: Folder>(
    alloc: Global,
    folder: &mut F,
    words: DeRezWords<'_>,
    moment: Moment,
) -> Result<Reply, Halt<Infallible>>
    requires lexed { HaveLexedTexts words.types.defs }
    requires may { MayReadOf F.Folder folder.old (DeRezAsks (derez words)) }
    ensures { IsReplyOf F.Folder folder.old folder.new result (λ files answer. AnswersDeRez (derez words.entry) files moment answer
        × ShowsFile (string_bytes words.entry.file) words.entry.from files answer) }
{
    match read_and_show(alloc, folder, words, moment) {
        Ok(shown) => Ok(Reply::Text(shown)),
        Err(halt) => planned(Plan::stopped(alloc, halt)),
    }
}

/// The text of the fork, or what stopped the command. The type files are read first, then the file of templates, then
/// the statements of the type files, of which `type` alone takes effect, and then the fork.
pub fn read_and_show<F: Folder>(
    alloc: Global,
    folder: &mut F,
    words: DeRezWords<'_>,
    moment: Moment,
) -> Result<ForkShown, Halt<Failing>>
    requires lexed { HaveLexedTexts words.types.defs }
    requires may { MayReadOf F.Folder folder.old (DeRezAsks (derez words)) }
    ensures { Finds F.Folder folder.old folder.new result (OfFile words.entry.from (string_bytes words.entry.file) (λ files. ShowsText (Shows moment (derez words.entry) files))) IsShown IsSayable }
{
    let DeRezWords {
        file,
        from,
        only,
        skip,
        types: asked,
    } = words;
    let compiled = compile_types(alloc, folder, &asked, moment);
    drop(asked);
    let compiled = compiled?;
    let Compiled {
        work,
        macros,
        files,
    } = compiled;
    let Work {
        types,
        resources,
        warnings,
    } = work;
    drop(resources);
    let fork = read_fork(alloc, folder, file.as_str(), from);
    let made = match say_beside(alloc, fork, &warnings, files) {
        Ok(made) => made,
        Err(halt) => {
            drop(types);
            return Err(halt);
        }
    };
    let known = Known::of(alloc, types, &macros, moment)?;
    let Made { bytes, said } = made;
    let text = ForkText {
        fork: bytes,
        only,
        skip,
        known,
    };
    Ok(ForkShown { text, said })
}

/// The fork of the file of this name.
fn read_fork<F: Folder>(
    alloc: Global,
    folder: &mut F,
    name: &str,
    from: Option<Form>,
) -> Result<Bytes, Halt<Fault>>
    requires { F.may_read folder.old name.now }
    ensures { Finds F.Folder folder.old folder.new result (OfFile from name.now (λ files. HasFork from name.now (map.get files name.now))) IsFork IsUnplaced }
{
    let bytes = read_present(alloc, folder, name)?;
    Ok(fork_of(alloc, bytes, from)?)
}

/// The fork in bytes of a form, or the fault of their form or their fork.
fn fork_of(alloc: Global, bytes: Bytes, from: Option<Form>) -> Result<Bytes, Stop<Fault>>
    requires { length bytes < 2 ^ 32 }
    ensures fork { Meets result (IsForkOf (fork_in None from bytes)) }
    ensures held { IfOk result (λ _. HoldsFile from bytes) }
    ensures admitted { IfOk result IsFork }
    ensures nameable { (files : ℕ) → OnFault result (IsNameable files) }
{
    let file = file_in(alloc, from, bytes, Bytes::new(alloc), None)?;
    let fork = file.res_fork;
    match check_fork(fork.as_slice()) {
        Ok(()) => Ok(fork),
        Err(fault) => Err(Stop::Refused(fault)),
    }
}
