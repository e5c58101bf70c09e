//! `det`: the rules that a fork breaks, as text. What it answers is in `specs/Det`.

ghost use Rattle.std.specs.Prelude.{◌≡◌, IfOk};
ghost use Rattle.rz_folder.specs.Finds.{Finds};
ghost use Rattle.rz_folder.specs.Names.{IsUnplaced};
ghost use Rattle.rz_tools_answer.specs.Plans.{Plans};
ghost use Rattle.rz_tools_args.specs.Held.{items_of};
ghost use Rattle.rz_tools_output.specs.Det.{det, det_asked, AnswersDet, HasBreaks};

use crate::bridge::first_file;
use rz_bridge_files::{Form, file_in};
use rz_core::{Bytes, Fault, FileNames, Halt, NoMemory};
use rz_folder::{Folder, read_present};
use rz_told::breaks_text;
use rz_tools_answer::{Faults, Plan, say_beside};
use rz_tools_args::{Command, Flag};
use std::alloc::Global;
use std::convert::Infallible;

/// What a command of `det` asks for.
#[derive(Drop)]
pub struct DetWords {
    /// The name of the file whose fork is looked at.
    pub file: String,
    /// The form of this file, if that is given.
    pub from: Option<Form>,
}

impl DetWords {
    /// What a command asks for. One of `det` names a file; where another command names none, the name is empty.
    pub fn of(alloc: Global, command: Command<'_>) -> Result<DetWords, NoMemory>
        ensures { IfOk result (λ words. det words ≡ det_asked (items_of command.entry)) }
    {
        let from = command.form(Flag::From);
        let file = first_file(alloc, command)?;
        Ok(DetWords { file, from })
    }
}

/// The answer to the words of `det`: a line for each rule that the resource fork of the file breaks, and a last one
/// with their number, as [`breaks_text`] gives them. The fork may break any of its rules; of AppleDouble the header
/// file alone is read.
///
/// Refused, without a mark, with 101 where no file has the name, and then with the first rule of its form that the file
/// breaks, as [`file_in`] says. (After MPW RezDet.)
pub fn plan_det<F: Folder>(
    alloc: Global,
    folder: &mut F,
    words: DetWords,
) -> Result<Plan, Halt<Infallible>>
    requires { F.may_read folder.old (det words).file }
    ensures { Plans F.Folder folder.old folder.new result (AnswersDet (det words)) }
{
    let text = read_breaks(alloc, folder, &words);
    drop(words);
    let warnings = Faults::new(alloc);
    let files = FileNames::new(alloc);
    let made = say_beside(alloc, text, &warnings, files);
    Plan::to_show(alloc, made)
}

/// The text for the file of this name.
fn read_breaks<F: Folder>(
    alloc: Global,
    folder: &mut F,
    words: &DetWords,
) -> Result<Bytes, Halt<Fault>>
    requires { F.may_read folder.old (det words.now).file }
    ensures { Finds F.Folder folder.old folder.new result (HasBreaks (det words.now)) (λ _. Unit {0}) IsUnplaced }
{
    let bytes = read_present(alloc, folder, words.file.as_str())?;
    let file = file_in(alloc, words.from, bytes, Bytes::new(alloc), None)?;
    Ok(breaks_text(alloc, file.res_fork.as_slice())?)
}
