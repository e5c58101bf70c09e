//! `rez`: the sources, the file to begin with, and the file that is written. What it answers is in `specs/Rez`.

ghost use Rattle.std.specs.Prelude.{◌≡◌, ◌≤◌, ◌<◌, ◌^◌, ℕ, List, length, IfOk};
ghost use Rattle.rz_core.specs.Message.{IsNameable};
ghost use Rattle.rz_core.specs.Stop.{seen, IsReadFault, OnRefusal, Yields};
ghost use Rattle.rz_core.specs.declared.resource.Resource.{Resource};
ghost use Rattle.rz_folder.specs.Finds.{Finds};
ghost use Rattle.rz_folder.specs.MayRead.{MayReadOf};
ghost use Rattle.rz_pre.specs.Lexed.{HaveLexedTexts};
ghost use Rattle.rz_tools_answer.specs.Made.{making_of, FitsFile, IsSayable};
ghost use Rattle.rz_tools_answer.specs.Warning.{AreWarnings};
ghost use Rattle.rz_tools_args.specs.Held.{items_of};
ghost use Rattle.rz_tools_output.specs.Base.{base_with};
ghost use Rattle.rz_tools_output.specs.Output.{target, IsOutput};
ghost use Rattle.rz_tools.specs.Asked.{RezAsks};
ghost use Rattle.rz_tools.specs.Held.{compiled_of, rez};
ghost use Rattle.rz_tools.specs.Rez.{rez_asked, target_asked, Compiles, HasOutput};

use crate::sources::{Compiled, SourceWords, compile_program, read_program, unsaid};
use rz_core::{Bytes, Fault, FileNames, Halt, Moment, NoMemory};
use rz_folder::Folder;
use rz_pre::Tool;
use rz_set::ResSet;
use rz_tools_answer::{Failing, Made, say_beside};
use rz_tools_args::{Command, Flag, Switch};
use rz_tools_output::{Base, Beginning, Target, read_base, read_templates, write_output};
use rz_tools_values::Setting;
use rz_tools_work::Work;
use std::alloc::Global;

/// What `rez` is asked for.
#[derive(Drop)]
pub struct RezWords<'a> {
    /// The sources.
    pub sources: SourceWords<'a>,
    /// The paths for the files of statements.
    pub searches: FileNames,
    /// The fork starts from the file that has the output's name.
    pub append: bool,
    /// Protected resources may be replaced, changed and removed.
    pub over: bool,
    /// The file to write.
    pub target: Target<'a>,
}

impl<'a> RezWords<'a> {
    /// What these items ask for; the file to write is `Rez.Out` where they name none.
    pub fn of(alloc: Global, command: Command<'a>) -> Result<RezWords<'a>, NoMemory>
        ensures { IfOk result (λ words. rez words ≡ rez_asked (items_of command.entry)) }
    {
        Ok(RezWords {
            searches: command.names(alloc, Flag::Search)?,
            append: command.has(Switch::Append),
            over: command.has(Switch::Over),
            target: target_of(&command),
            sources: SourceWords::of(alloc, command.files(alloc)?, command)?,
        })
    }
}

/// The file that the items ask to be written.
fn target_of<'a>(command: &Command<'a>) -> Target<'a>
    ensures { target result ≡ target_asked (items_of command.now) }
{
    Target {
        name: command.name(Flag::Output).unwrap_or("Rez.Out"),
        form: command.form(Flag::Into),
        kind: command.kind(Flag::Kind),
        creator: command.kind(Flag::Creator),
        read_only: command.has(Switch::ReadOnly),
    }
}

/// The file that the sources mean, compiled into a resource fork after what there is to begin with, or what stopped the
/// command. The sources are read first, then the file of templates, then the file to begin with, then the files of
/// statements.
pub fn compile<F: Folder>(
    alloc: Global,
    folder: &mut F,
    words: &RezWords<'_>,
    moment: Moment,
) -> Result<Made, Halt<Failing>>
    requires lexed { HaveLexedTexts words.now.sources.defs }
    requires may { MayReadOf F.Folder folder.old (RezAsks (rez words.now)) }
    ensures { Finds F.Folder folder.old folder.new (seen making_of result) (Compiles moment (rez words.now)) FitsFile IsSayable }
{
    let program = read_program(alloc, folder, Tool::Rez, &words.sources)?;
    let types = match read_templates(alloc, folder, words.sources.tmpl) {
        Ok(types) => types,
        Err(halt) => return Err(unsaid(alloc, halt, program.files)),
    };
    let begun = match read_base(alloc, folder, words.append, words.target.name) {
        Ok(begun) => begun,
        Err(halt) => {
            drop(types);
            return Err(unsaid(alloc, halt, program.files));
        }
    };
    let Beginning { base, list } = begun;
    let start = Work::begun(alloc, types, list)?;
    let setting = Setting {
        tool: Tool::Rez,
        redeclare: words.sources.redeclare,
        append: words.append,
        over: words.over,
        moment,
    };
    let compiled = compile_program(alloc, folder, &words.searches, program, start, setting)?;
    write_compiled(alloc, &words.target, base, compiled, moment)
}

/// The file of what the sources made.
fn write_compiled(
    alloc: Global,
    into: &Target<'_>,
    base: Base,
    compiled: Compiled,
    moment: Moment,
) -> Result<Made, Halt<Failing>>
    requires warnings { AreWarnings (length compiled.files) compiled.work.warnings }
    requires room { length base.reserved ≤ 240 }
    ensures made { (others : List Resource) → Yields (seen making_of result) (HasOutput moment (target into.now) (base_with base others) (compiled_of compiled)) }
    ensures good { IfOk (seen making_of result) FitsFile }
    ensures bad { OnRefusal (seen making_of result) IsSayable }
    ensures unread { IsReadFault (seen making_of result) → ⊥ }
{
    let Compiled { work, files, .. } = compiled;
    drop(work.types);
    let output = write_resources(alloc, into, base, work.resources, moment);
    say_beside(alloc, output, &work.warnings, files)
}

/// The file of these resources.
fn write_resources(
    alloc: Global,
    into: &Target<'_>,
    base: Base,
    resources: ResSet,
    moment: Moment,
) -> Result<Bytes, Halt<Fault>>
    requires { length base.reserved ≤ 240 }
    ensures output { (others : List Resource) → Yields result (IsOutput (target into.now) moment (base_with base others) resources) }
    ensures nameable { (files : ℕ) → OnRefusal result (IsNameable files) }
    ensures short { IfOk result (λ bytes. length bytes < 2 ^ 32) }
    ensures unread { IsReadFault result → ⊥ }
{
    let list = resources.into_list(alloc)?;
    Ok(write_output(alloc, into, base, &list, moment)?)
}
