//! Type files: the types that they declare, under which resources are shown. What they mean is in `specs/Types`.

ghost use Rattle.std.specs.Prelude.{◌≡◌, ◌≤◌, drop, length, IfOk};
ghost use Rattle.rz_core.specs.Stop.{seen};
ghost use Rattle.rz_folder.specs.Finds.{Finds};
ghost use Rattle.rz_folder.specs.MayRead.{MayReadOf};
ghost use Rattle.rz_pre.specs.Lexed.{HaveLexedTexts};
ghost use Rattle.rz_tools.specs.Asked.{TypesAsk};
ghost use Rattle.rz_tools.specs.Held.{compiled_of, types_asked, HasWarnings};
ghost use Rattle.rz_tools.specs.Types.{TypesAre};
ghost use Rattle.rz_tools_answer.specs.Made.{IsSayable};

use crate::sources::{Compiled, SourceWords, compile_program, read_program, unsaid};
use rz_core::{FileNames, Halt, Moment, NoMemory, Resources};
use rz_folder::Folder;
use rz_pre::Tool;
use rz_tools_answer::Failing;
use rz_tools_output::read_templates;
use rz_tools_values::Setting;
use rz_tools_work::Work;
use std::alloc::Global;

/// The names after so many.
pub fn names_behind(alloc: Global, names: &FileNames, count: u64) -> Result<FileNames, NoMemory>
    requires { count ≤ length names.now }
    ensures { IfOk result (λ behind. behind ≡ drop count names.now) }
{
    let mut behind = FileNames::new(alloc);
    let mut k = count;
    while k < names.len() {
        behind.push(names.at(k))?;
        k += 1;
    }
    Ok(behind)
}

/// What the type files mean. They are read first, and then the file of templates.
pub fn compile_types<F: Folder>(
    alloc: Global,
    folder: &mut F,
    words: &SourceWords<'_>,
    moment: Moment,
) -> Result<Compiled, Halt<Failing>>
    requires lexed { HaveLexedTexts words.now.defs }
    requires may { MayReadOf F.Folder folder.old (TypesAsk (types_asked words.now)) }
    ensures { Finds F.Folder folder.old folder.new (seen compiled_of result) (TypesAre moment (types_asked words.now)) HasWarnings IsSayable }
{
    let program = read_program(alloc, folder, Tool::DeRez, words)?;
    let types = match read_templates(alloc, folder, words.tmpl) {
        Ok(types) => types,
        Err(halt) => return Err(unsaid(alloc, halt, program.files)),
    };
    let start = Work::begun(alloc, types, Resources::new(alloc))?;
    let searches = FileNames::new(alloc);
    let setting = Setting {
        tool: Tool::DeRez,
        redeclare: words.redeclare,
        append: false,
        over: false,
        moment,
    };
    compile_program(alloc, folder, &searches, program, start, setting)
}
