//! Sources as both commands take them: the program, and what its statements make. What they mean is in `specs/Sources`.

ghost use Rattle.std.specs.Prelude.{◌≡◌, [], ℕ, List, length, Err, IfOk};
ghost use Rattle.rz_core.specs.Message.{IsNameable};
ghost use Rattle.rz_core.specs.Stop.{seen, OnRefusal};
ghost use Rattle.rz_tools_answer.specs.Made.{IsBeside, IsSayable};
ghost use Rattle.rz_tools_answer.specs.Warning.{AreWarnings};
ghost use Rattle.rz_folder.specs.Finds.{Finds};
ghost use Rattle.rz_folder.specs.MayRead.{IsOneOf, MayRead, MayReadOf};
ghost use Rattle.rz_folder.specs.Names.{LooksFor};
ghost use Rattle.rz_pre.specs.Reached.{IsReached};
ghost use Rattle.rz_tools.specs.Asked.{AnyAsks};
ghost use Rattle.rz_lex.specs.Lexeme.{AreLexed};
ghost use Rattle.rz_lex.specs.Within.{AreWithin};
ghost use Rattle.rz_pre.specs.Lexed.{HaveLexedTexts};
ghost use Rattle.rz_pre.specs.Program.{ProgramGoes};
ghost use Rattle.rz_pre.specs.Reading.{OfProgram};
ghost use Rattle.rz_tools_work.specs.Held.{work_of};
ghost use Rattle.rz_tools_values.specs.Around.{around};
ghost use Rattle.rz_tools.specs.Held.{compiled_of, not_read, types_asked, CanCompile, HasWarnings, OfState};
ghost use Rattle.rz_tools.specs.Sources.{HasWork, Unsaid};
ghost use Rattle.rz_tools.specs.Types.{types_items};
ghost use Rattle.rz_tools_args.specs.Held.{items_of};

use crate::step::compile_statements;
use rz_core::{Bytes, Fault, FileNames, Halt, NoMemory, Words};
use rz_folder::Folder;
use rz_pre::{Defs, Failure, Program, Tool, preprocess};
use rz_stmt::all_tokens_are_statements;
use rz_tools_answer::{Failing, Faults, say_stop};
use rz_tools_args::{Command, Flag, Switch};
use rz_tools_values::Setting;
use rz_tools_work::Work;
use std::alloc::Global;

/// The sources that a command is asked for: those of `rez`, or type files.
#[derive(Drop)]
pub struct SourceWords<'a> {
    /// Their names.
    pub files: FileNames,
    /// The paths for included files.
    pub paths: FileNames,
    /// The definitions.
    pub defs: Defs,
    /// The name of the file of templates, where one is given.
    pub tmpl: Option<&'a str>,
    /// Types may be declared again without a warning.
    pub redeclare: bool,
}

impl<'a> SourceWords<'a> {
    /// What these items ask for, where these are the names of the sources.
    pub fn of(
        alloc: Global,
        files: FileNames,
        command: Command<'a>,
    ) -> Result<SourceWords<'a>, NoMemory>
        ensures { IfOk result (λ words. types_asked words ≡ types_items files (items_of command.entry)) }
    {
        Ok(SourceWords {
            files,
            paths: command.names(alloc, Flag::Path)?,
            tmpl: command.name(Flag::Templates),
            redeclare: command.has(Switch::Redeclare),
            defs: command.into_defs(alloc)?,
        })
    }
}

/// What sources mean.
#[derive(Drop)]
pub struct Compiled {
    /// What their statements made.
    pub work: Work,
    /// The names, in lower case, that are macros after them.
    pub macros: Words,
    /// The names under which files were opened.
    pub files: FileNames,
}

/// What stopped a command before the first statement of a program, where these files were opened.
pub fn unsaid(alloc: Global, halt: Halt<Fault>, files: FileNames) -> Halt<Failing>
    requires { OnRefusal {X = List ℕ} (Err halt) (IsNameable (length files)) }
    ensures { IsBeside files [] (Err halt) (Err result) }
{
    let warnings = Faults::new(alloc);
    say_stop(alloc, halt, &warnings, files)
}

/// The program of the sources of these names, as the tool reads it, or what stopped the command. No file changes. Over
/// a folder that tells its files only the sources are read, and what they include.
pub fn read_program<F: Folder>(
    alloc: Global,
    folder: &mut F,
    tool: Tool,
    words: &SourceWords<'_>,
) -> Result<Program, Halt<Failing>>
    requires lexed { HaveLexedTexts words.now.defs }
    requires may { MayReadOf F.Folder folder.old (λ files. IsReached words.now.paths files (IsOneOf words.now.files)) }
    ensures { Finds F.Folder folder.old folder.new result (λ files. OfProgram (Unsaid (ProgramGoes files tool words.now.files words.now.paths words.now.defs))) CanCompile IsSayable }
{
    match preprocess(alloc, folder, tool, &words.files, &words.paths, &words.defs) {
        Ok(program) => Ok(program),
        Err(halt) => Err(not_read(alloc, halt)),
    }
}

/// What stopped a command while its sources were read.
fn not_read(alloc: Global, halt: Halt<Failure>) -> Halt<Failing>
    ensures { result ≡ not_read halt }
{
    match halt {
        Halt::Refused(failure) => {
            let Failure { fault, files } = failure;
            Halt::Refused(Failing {
                fault,
                files,
                said: Bytes::new(alloc),
            })
        }
        Halt::ReadFault => Halt::ReadFault,
        Halt::NoMemory => Halt::NoMemory,
    }
}

/// What the statements of a program make of the work to begin with; or what stopped the command, with the lines of what
/// was warned of before. The files of statements are looked for after the paths. No file changes, and no file is read
/// that no statement names.
pub fn compile_program<F: Folder>(
    alloc: Global,
    folder: &mut F,
    paths: &FileNames,
    program: Program,
    start: Work,
    setting: Setting,
) -> Result<Compiled, Halt<Failing>>
    requires within { AreWithin (length program.files) program.tokens }
    requires lexed { AreLexed program.tokens }
    requires warnings { AreWarnings (length program.files) start.warnings }
    requires may { MayRead F.Folder folder.old (LooksFor paths.now (AnyAsks setting.tool program.tokens)) }
    ensures { Finds F.Folder folder.old folder.new (seen compiled_of result) (λ files. OfState program (HasWork (around setting paths.now files) (work_of start))) HasWarnings IsSayable }
{
    all_tokens_are_statements();
    let Program {
        files,
        tokens,
        macros,
    } = program;
    let mut work = start;
    match compile_statements(alloc, folder, paths, tokens, setting, &mut work) {
        Ok(()) => Ok(Compiled {
            work,
            macros,
            files,
        }),
        Err(halt) => {
            drop(macros);
            let stop = say_stop(alloc, halt, &work.warnings, files);
            drop(work);
            Err(stop)
        }
    }
}
