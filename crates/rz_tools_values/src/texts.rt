//! Strings with what the files give that they name. What takes the place of each part is in `specs/Texts`.

ghost use Rattle.std.specs.Prelude.{◌≡◌, ◌<◌, ◌^◌, ℕ, length, IfOk, IfSome};
ghost use Rattle.rz_core.specs.Message.{IsNameable};
ghost use Rattle.rz_core.specs.Stop.{Gives, OnFault, IsReadFault, OnRefusal, Yields};
ghost use Rattle.rz_types_fields.specs.Text.{arguments_of, plain_argument, plain_arguments, plain_key, plain_part, plain_parts, Format};
ghost use Rattle.rz_folder.specs.MayRead.{IsOneOf, MayRead};
ghost use Rattle.rz_folder.specs.Names.{names_of, utf8_name, LooksFor};
ghost use Rattle.rz_tools_values.specs.Asked.{ArgumentAsks, ArgumentsAsk, PartAsks, TextsAsk};
ghost use Rattle.rz_folder.specs.OnlyReads.{OnlyReads};
ghost use Rattle.rz_tools_values.specs.Texts.{argument_given, argument_read, arguments_given, arguments_read, bytes_in, key_said, part_given, part_read, resource_named, texts_given, texts_read};

use crate::chosen::{chosen_in_fork, id_said};
use crate::files::{file_named, file_of_name};
use crate::laws::fileless_texts_stay;
use crate::named::names_file;
use rz_bridge_files::admit_fork;
use rz_core::{Bytes, Facts, Fault, FileNames, Halt, Mark, NoMemory, OsType, Stop};
use rz_folder::Folder;
use rz_set::Pick;
use rz_types_fields::{FormatArg, FormatArgs, ResKey, TextPart, Texts, text_of};
use std::alloc::Global;

/// A text in which what the files give that it names has taken the place of the parts that name them, those in the
/// arguments of formats too, from left to right, where of the resource so much is known. The first fault is the answer:
/// 101 where a file stands neither under its name nor after a path (kept: the name); of a `$$Resource` before it 211,
/// 215 and 204 of its id, and 211, 215 and 222 of its name, and after it the first rule that the form or the fork breaks,
/// and 218 where it has no such resource (kept: the type and the id, or the name). No file changes, and none is read that
/// no part names. A text that names no file is given back as it is, and no memory is taken. (MPW Rez.)
#[cycle(texts)]
pub fn read_texts<F: Folder>(
    alloc: Global,
    folder: &mut F,
    paths: &FileNames,
    texts: Texts,
    mark: Mark,
    known: &Facts,
) -> Result<Texts, Halt<Fault>>
    requires { MayRead F.Folder folder.old (LooksFor paths.now (TextsAsk (plain_parts texts))) }
    ensures read { IfSome (F.files folder.old) (λ files.
        Yields result (λ answer. texts_given answer ≡ texts_read paths.now files mark known.now (plain_parts texts))) }
    ensures nameable { (files : ℕ) → mark.file < files → OnRefusal result (IsNameable files) }
    ensures reads { OnlyReads F.Folder folder.old folder.new (IsReadFault result) }
{
    if !names_file(&texts) {
        fileless_texts_stay();
        return Ok(texts);
    }
    let mut made = Texts::new(alloc);
    for part in texts.into_vec() {
        let part = read_part(alloc, folder, paths, part, mark, known)?;
        made.push(part)?;
    }
    Ok(made)
}

/// A part, or what the file gives that it names.
#[cycle(texts)]
fn read_part<F: Folder>(
    alloc: Global,
    folder: &mut F,
    paths: &FileNames,
    part: TextPart,
    mark: Mark,
    known: &Facts,
) -> Result<TextPart, Halt<Fault>>
    requires { MayRead F.Folder folder.old (LooksFor paths.now (PartAsks (plain_part part))) }
    ensures read { IfSome (F.files folder.old) (λ files.
        Yields result (λ answer. part_given answer ≡ part_read paths.now files mark known.now (plain_part part))) }
    ensures nameable { (files : ℕ) → mark.file < files → OnRefusal result (IsNameable files) }
    ensures reads { OnlyReads F.Folder folder.old folder.new (IsReadFault result) }
{
    match part {
        TextPart::Plain(bytes) => Ok(TextPart::Plain(bytes)),
        TextPart::NameFact => Ok(TextPart::NameFact),
        TextPart::DateFact => Ok(TextPart::DateFact),
        TextPart::TimeFact => Ok(TextPart::TimeFact),
        TextPart::VersionFact => Ok(TextPart::VersionFact),
        TextPart::FileBytes(name) => {
            let bytes = file_named(alloc, folder, paths, name.as_slice(), mark)?;
            Ok(TextPart::Plain(bytes))
        }
        TextPart::FileResource(asked) => {
            let name = asked.file.as_slice();
            let file = Sought { paths, name, mark };
            let bytes = resource_named(alloc, folder, file, asked.kind, &asked.key, known);
            drop(asked);
            Ok(TextPart::Plain(bytes?))
        }
        TextPart::Format(format) => {
            let format = Box::into_inner(format);
            let arguments = read_arguments(alloc, folder, paths, format.arguments, mark, known)?;
            Ok(format_of(alloc, format.text, arguments)?)
        }
    }
}

/// The part that is a format with these arguments.
fn format_of(alloc: Global, text: Bytes, arguments: FormatArgs) -> Result<TextPart, NoMemory>
    ensures { IfOk result (λ part. plain_part part ≡ Format text (arguments_of (plain_arguments arguments))) }
{
    let format = rz_types_fields::Format { text, arguments };
    Ok(TextPart::Format(Box::new(alloc, format)?))
}

/// The arguments of a format, from left to right.
#[cycle(texts)]
fn read_arguments<F: Folder>(
    alloc: Global,
    folder: &mut F,
    paths: &FileNames,
    arguments: FormatArgs,
    mark: Mark,
    known: &Facts,
) -> Result<FormatArgs, Halt<Fault>>
    requires { MayRead F.Folder folder.old (LooksFor paths.now (ArgumentsAsk (arguments_of (plain_arguments arguments)))) }
    ensures read { IfSome (F.files folder.old) (λ files.
        Yields result (λ answer. arguments_given answer ≡ arguments_read paths.now files mark known.now (arguments_of (plain_arguments arguments)))) }
    ensures nameable { (files : ℕ) → mark.file < files → OnRefusal result (IsNameable files) }
    ensures reads { OnlyReads F.Folder folder.old folder.new (IsReadFault result) }
{
    let mut made = FormatArgs::new(alloc);
    for argument in arguments.into_vec() {
        let argument = read_argument(alloc, folder, paths, argument, mark, known)?;
        made.push(argument)?;
    }
    Ok(made)
}

/// An argument of a format.
#[cycle(texts)]
fn read_argument<F: Folder>(
    alloc: Global,
    folder: &mut F,
    paths: &FileNames,
    argument: FormatArg,
    mark: Mark,
    known: &Facts,
) -> Result<FormatArg, Halt<Fault>>
    requires { MayRead F.Folder folder.old (LooksFor paths.now (ArgumentAsks (plain_argument argument))) }
    ensures read { IfSome (F.files folder.old) (λ files.
        Yields result (λ answer. argument_given answer ≡ argument_read paths.now files mark known.now (plain_argument argument))) }
    ensures nameable { (files : ℕ) → mark.file < files → OnRefusal result (IsNameable files) }
    ensures reads { OnlyReads F.Folder folder.old folder.new (IsReadFault result) }
{
    match argument {
        FormatArg::Number(expr) => Ok(FormatArg::Number(expr)),
        FormatArg::Text(texts) => {
            let texts = read_texts(alloc, folder, paths, texts, mark, known)?;
            Ok(FormatArg::Text(texts))
        }
    }
}

/// A file that a text names.
#[derive(Clone, Copy)]
struct Sought<'a> {
    /// The paths after which it is looked for.
    paths: &'a FileNames,
    /// Its name in Mac Roman.
    name: &'a [u8],
    /// The line that names it.
    mark: Mark,
}

/// The bytes of the resource of a file that is asked for.
fn resource_named<F: Folder>(
    alloc: Global,
    folder: &mut F,
    file: Sought<'_>,
    kind: OsType,
    key: &ResKey,
    known: &Facts,
) -> Result<Bytes, Halt<Fault>>
    requires { MayRead F.Folder folder.old (IsOneOf (names_of file.paths.now (utf8_name file.name.now))) }
    ensures read { IfSome (F.files folder.old) (λ files. Yields result (λ answer. answer
        ≡ resource_named file.entry.paths.now files file.entry.mark known.now file.entry.name.now kind (plain_key key.now))) }
    ensures nameable { (files : ℕ) → file.entry.mark.file < files → OnRefusal result (IsNameable files) }
    ensures reads { OnlyReads F.Folder folder.old folder.new (IsReadFault result) }
{
    let pick = key_said(alloc, key, file.mark, known)?;
    let told = file_of_name(alloc, folder, file.paths, file.name, file.mark)?;
    let fork = told.res_fork.as_slice();
    Ok(bytes_in(alloc, fork, kind, &pick, file.mark)?)
}

/// The bytes of the resource of a fork that a pick by id or name chooses: 218 where there is none.
fn bytes_in(
    alloc: Global,
    fork: &[u8],
    kind: OsType,
    pick: &Pick,
    mark: Mark,
) -> Result<Bytes, Stop<Fault>>
    requires short { length fork.now < 2 ^ 32 }
    ensures bytes { Gives (bytes_in mark kind pick.now fork.now) result }
    ensures nameable { (files : ℕ) → mark.file < files → OnFault result (IsNameable files) }
{
    let fork = match admit_fork(fork, Some(mark)) {
        Ok(fork) => fork,
        Err(fault) => return Err(Stop::Refused(fault)),
    };
    match chosen_in_fork(alloc, &fork, kind, pick, mark)? {
        Some(one) => Ok(Bytes::of(alloc, one.bytes)?),
        None => Ok(Bytes::new(alloc)),
    }
}

/// The id or the name that a `$$Resource` asks for.
fn key_said(alloc: Global, key: &ResKey, mark: Mark, known: &Facts) -> Result<Pick, Stop<Fault>>
    ensures pick { Gives (key_said mark known.now (plain_key key.now)) result }
    ensures nameable { (files : ℕ) → mark.file < files → OnFault result (IsNameable files) }
{
    match key {
        ResKey::Id(id) => Ok(Pick::Id(id_said(alloc, id, mark, known)?)),
        ResKey::Name(texts) => Ok(Pick::Name(text_of(alloc, texts, mark, known)?)),
    }
}
