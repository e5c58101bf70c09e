//! `bridge`: a file of one form, written in another. What it answers is in `specs/Bridge`.

ghost use Rattle.std.specs.Prelude.{◌≡◌, ◌<◌, ◌≤◌, ◌^◌, ℕ, [], get_or, length, map, IfOk, IsOkAnd};
ghost use Rattle.std.specs.FinMap as finite;
ghost use Rattle.std.specs.String.{string_bytes};
ghost use Rattle.rz_tools_answer.specs.Plan.{write_of};
ghost use Rattle.rz_tools_answer.specs.Plans.{Plans};
ghost use Rattle.rz_tools_answer.specs.WellFormed.{AreWritable};
ghost use Rattle.rz_core.specs.Answers.{Then};
ghost use Rattle.rz_core.specs.Stop.{Meets, OnFault};
ghost use Rattle.rz_core.specs.Message.{IsNameable};
ghost use Rattle.rz_bridge_files.specs.Names.{Named};
ghost use Rattle.rz_folder.specs.Finds.{Finds};
ghost use Rattle.rz_folder.specs.MayRead.{MayRead};
ghost use Rattle.rz_folder.specs.Names.{IsUnplaced};
ghost use Rattle.rz_bridge_files.specs.DataFile.{IsDataFile};
ghost use Rattle.rz_tools_args.specs.Command.{places_of};
ghost use Rattle.rz_tools_args.specs.Held.{items_of};
ghost use Rattle.rz_tools_output.specs.Bridge.{bridge, bridge_asked, writes_of, AnswersBridge, AreWrites, Bridges, HasBeside, IsRead, IsWrittenAs, BridgeAsks};

use crate::base::{form_or, read_or_empty};
use rz_bridge::MacFile;
use rz_bridge_files::{Form, data_file_name, file_in, named, write_as};
use rz_core::{Bytes, Fault, FileNames, Halt, NoMemory, Stop};
use rz_folder::{Folder, read_present};
use rz_tools_answer::{Faults, Plan, Write, Writes, say_stop};
use rz_tools_args::{Command, Flag};
use std::alloc::Global;
use std::convert::Infallible;

/// What a command of `bridge` asks for.
#[derive(Drop)]
pub struct BridgeWords<'a> {
    /// The name of the file to read.
    pub file: String,
    /// The name of the file to write.
    pub output: &'a str,
    /// The form of the file to write.
    pub to: Form,
    /// The form of the file to read, if that is given.
    pub from: Option<Form>,
}

impl<'a> BridgeWords<'a> {
    /// What a command asks for. One of `bridge` names a file, a file to write and a form; where another command names
    /// none, their names are empty and the form is raw.
    pub fn of(alloc: Global, command: Command<'a>) -> Result<BridgeWords<'a>, NoMemory>
        ensures { IfOk result (λ words. bridge words ≡ bridge_asked (items_of command.entry)) }
    {
        let output = command.name(Flag::Output).unwrap_or("");
        let to = command.form(Flag::Into).unwrap_or(Form::Raw);
        let from = command.form(Flag::From);
        Ok(BridgeWords {
            file: first_file(alloc, command)?,
            output,
            to,
            from,
        })
    }
}

/// The first file of a command; where it names none, the name is empty.
pub fn first_file(alloc: Global, command: Command<'_>) -> Result<String, NoMemory>
    ensures { IfOk result (λ name. string_bytes name ≡ get_or (places_of (items_of command.entry)) 0 []) }
{
    let names = command.files(alloc);
    drop(command);
    let names = names?;
    if names.len() == 0 {
        Ok(String::new(alloc))
    } else {
        Ok(names.at(0).to_string(alloc)?)
    }
}

/// The answer to the words of `bridge`: what the file holds in one form, which is to be written in another. The file is
/// read first, and of AppleDouble then the data file beside it. Where the file has no name it takes the last name of
/// the output. Of AppleDouble the data file is written first, where the data fork isn't empty, and then the header
/// file.
///
/// Refused, without a mark, with 101 where no file has the name, then with the first rule of its form that the file
/// breaks, as [`file_in`] says, then with 425 where the name that it takes isn't Mac Roman, and then with 425 or 428 as
/// [`write_as`] says. (RFC 1740; RFC 1741.)
pub fn plan_bridge<F: Folder>(
    alloc: Global,
    folder: &mut F,
    words: BridgeWords<'_>,
) -> Result<Plan, Halt<Infallible>>
    requires { MayRead F.Folder folder.old (BridgeAsks (bridge words)) }
    ensures { Plans F.Folder folder.old folder.new result (AnswersBridge (bridge words.entry)) }
{
    let writes = bridge_file(alloc, folder, &words);
    drop(words);
    match writes {
        Ok(writes) => Ok(Plan::writing(alloc, writes)),
        Err(halt) => {
            let warnings = Faults::new(alloc);
            let stop = say_stop(alloc, halt, &warnings, FileNames::new(alloc));
            Plan::stopped(alloc, stop)
        }
    }
}

/// What is to be written.
fn bridge_file<F: Folder>(
    alloc: Global,
    folder: &mut F,
    words: &BridgeWords<'_>,
) -> Result<Writes, Halt<Fault>>
    requires { MayRead F.Folder folder.old (BridgeAsks (bridge words.now)) }
    ensures { Finds F.Folder folder.old folder.new (writes_of result) (Bridges (bridge words.now)) AreWritable IsUnplaced }
{
    let file = read_whole(alloc, folder, words)?;
    Ok(written_as(alloc, words, file)?)
}

/// What the file holds, with the data file of AppleDouble beside it.
fn read_whole<F: Folder>(
    alloc: Global,
    folder: &mut F,
    words: &BridgeWords<'_>,
) -> Result<MacFile, Halt<Fault>>
    requires { MayRead F.Folder folder.old (BridgeAsks (bridge words.now)) }
    ensures { Finds F.Folder folder.old folder.new result (λ files. IsRead (bridge words.now) files (finite.get files (bridge words.now).file))
        (λ file. length file.res_fork < 2 ^ 32) IsUnplaced }
{
    let name = words.file.as_str();
    let bytes = read_present(alloc, folder, name)?;
    let form = form_or(words.from, bytes.as_slice());
    let data_file = read_beside(alloc, folder, form, name)?;
    Ok(file_in(alloc, words.from, bytes, data_file, None)?)
}

/// The data file beside a header file of AppleDouble; it is empty where there is none, and no other form has one.
fn read_beside<F: Folder>(
    alloc: Global,
    folder: &mut F,
    form: Form,
    header: &str,
) -> Result<Bytes, Halt<Fault>>
    requires { MayRead F.Folder folder.old (IsDataFile header.now) }
    ensures { Finds F.Folder folder.old folder.new result (λ files answer. IsOkAnd answer (HasBeside form header.now files)) (λ _. Unit {0}) IsUnplaced }
{
    if !matches!(form, Form::AppleDouble) {
        return Ok(Bytes::new(alloc));
    }
    let name = data_file_name(alloc, header)?;
    read_or_empty(alloc, folder, name.as_str())
}

/// What is to be written of a file, which takes a name where it has none.
fn written_as(alloc: Global, words: &BridgeWords<'_>, file: MacFile) -> Result<Writes, Stop<Fault>>
    requires { length file.res_fork < 2 ^ 32 }
    ensures writes { Meets (writes_of result) (Then (Named words.now.to words.now.output.now file) (IsWrittenAs (bridge words.now))) }
    ensures writable { IfOk result (λ writes. AreWritable (map write_of writes)) }
    ensures nameable { (files : ℕ) → OnFault result (IsNameable files) }
{
    let file = named(alloc, words.to, words.output, file)?;
    match words.to {
        Form::Raw => Ok(raw_alone(alloc, words, file)?),
        form => {
            let bytes = write_as(alloc, form, &file)?;
            Ok(listed(alloc, words, file, bytes)?)
        }
    }
}

/// The write of a raw file, which is the resource fork itself.
fn raw_alone(alloc: Global, words: &BridgeWords<'_>, file: MacFile) -> Result<Writes, NoMemory>
    requires short { length file.res_fork < 2 ^ 32 }
    requires raw { words.now.to ≡ Form.Raw }
    ensures writes { IfOk result (λ writes. AreWrites (bridge words.now) file file.res_fork (map write_of writes)) }
    ensures writable { IfOk result (λ writes. AreWritable (map write_of writes)) }
{
    let name = words.output.to_string(alloc)?;
    let bytes = file.res_fork;
    let mut writes = Writes::new(alloc);
    writes.push(Write { name, bytes })?;
    Ok(writes)
}

/// The writes of a file and of the bytes of its form: of AppleDouble the data file comes first, where the data fork
/// isn't empty.
fn listed(
    alloc: Global,
    words: &BridgeWords<'_>,
    file: MacFile,
    bytes: Bytes,
) -> Result<Writes, NoMemory>
    requires short { length bytes < 2 ^ 32 }
    requires data_fork { words.now.to ≡ Form.AppleDouble → length file.data_fork ≤ 33554432 }
    ensures writes { IfOk result (λ writes. AreWrites (bridge words.now) file bytes (map write_of writes)) }
    ensures writable { IfOk result (λ writes. AreWritable (map write_of writes)) }
{
    let data_fork = file.data_fork;
    let header = Write {
        name: words.output.to_string(alloc)?,
        bytes,
    };
    let mut writes = Writes::new(alloc);
    if !matches!(words.to, Form::AppleDouble) || data_fork.is_empty() {
        drop(data_fork);
        writes.push(header)?;
        return Ok(writes);
    }
    let data_file = Write {
        name: data_file_name(alloc, words.output)?,
        bytes: data_fork,
    };
    writes.push(data_file)?;
    writes.push(header)?;
    Ok(writes)
}
