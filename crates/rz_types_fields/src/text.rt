//! The parts of a text, and the bytes that they give; changed only with `specs/Text`.

ghost use Rattle.std.specs.Prelude.{◌≡◌, ◌<◌, ℕ};
ghost use Rattle.rz_core.specs.Message.{IsNameable};
ghost use Rattle.rz_core.specs.Stop.{Gives, OnFault};
ghost use Rattle.rz_types_format.specs.Format.{formatted};
ghost use Rattle.rz_types_fields.specs.Appended.{Appends};
ghost use Rattle.rz_types_fields.specs.Text.{argument_value, argument_values, arguments_of, bytes_of, bytes_seen, or_bad_format, part_bytes, parts_of, plain_argument, plain_arguments, plain_format, plain_part, plain_parts};

use crate::Symbols;
use crate::value::{FieldEnv, value_seen};
use rz_core::{Bytes, Facts, Fault, Kept, Listing, Mark, OsType, Stop, write_date, write_time};
use rz_expr::{Env, Expr};
use rz_types_format::{Argument, Arguments, formatted};
use std::alloc::Global;

/// An argument of a format. (MPW Rez.)
#[derive(Drop)]
#[cycle(text)]
pub enum FormatArg {
    /// A number.
    Number(Expr),
    /// A text.
    Text(Texts),
}

/// The arguments of a format, in order.
pub type FormatArgs = Listing<FormatArg>;

/// By what a resource of a file is found. (MPW Rez.)
#[derive(Drop)]
#[cycle(text)]
pub enum ResKey {
    /// By its id.
    Id(Expr),
    /// By its name.
    Name(Texts),
}

/// A resource of a file that a `$$Resource` names. (MPW Rez.)
#[derive(Drop)]
#[cycle(text)]
pub struct FileResource {
    /// The name of the file.
    pub file: Bytes,
    /// The type of the resource.
    pub kind: OsType,
    /// By what it is found.
    pub key: ResKey,
}

/// A format and its arguments, as a `$$Format` has them. (MPW Rez.)
#[derive(Drop)]
#[cycle(text)]
pub struct Format {
    /// The format.
    pub text: Bytes,
    /// The arguments, in order.
    pub arguments: FormatArgs,
}

/// A part of a text. What few parts have stands after a `Box`, so that millions of plain ones take little memory.
/// (MPW Rez.)
#[derive(Drop)]
#[cycle(text)]
pub enum TextPart {
    /// Bytes that stood between quote marks.
    Plain(Bytes),
    /// `$$Name`, the name of the resource.
    NameFact,
    /// `$$Date`, the date of the run in UTC.
    DateFact,
    /// `$$Time`, the time of the run in UTC.
    TimeFact,
    /// `$$Version`, the version of the language.
    VersionFact,
    /// `$$Read`, what a file holds.
    FileBytes(Bytes),
    /// `$$Resource`, the bytes of a resource of a file.
    FileResource(Box<FileResource>),
    /// `$$Format`, what a format gives with its arguments.
    Format(Box<Format>),
}

/// The parts of a text, in order.
pub type Texts = Listing<TextPart>;

/// The bytes of the parts of a text, in order, where the text stands on a line and of the resource so much is
/// known. The first fault from left to right is 203, 211 or 215 of an expression, or 222 of a format that its arguments
/// don't fit, which comes after theirs. A part of a file gives no bytes: what the file gives takes its place before.
/// (MPW Rez.)
pub fn text_of(
    alloc: Global,
    texts: &Texts,
    place: Mark,
    facts: &Facts,
) -> Result<Bytes, Stop<Fault>>
    ensures value { Gives (bytes_of place facts.now (plain_parts texts.now)) result }
    ensures nameable { (files : ℕ) → place.file < files → OnFault result (IsNameable files) }
{
    let none = Symbols::new(alloc);
    let text = text_seen(
        alloc,
        texts,
        place,
        facts,
        &FieldEnv {
            facts,
            symbols: &none,
        },
    );
    drop(none);
    text
}

/// The same, where the expressions of formats see so much; the first fault may then be 213 or 223, too.
#[cycle(texts)]
pub fn text_seen<E: Env>(
    alloc: Global,
    texts: &Texts,
    place: Mark,
    facts: &Facts,
    env: &E,
) -> Result<Bytes, Stop<Fault>>
    ensures value { Gives (bytes_seen place facts.now (E.view env.now) (plain_parts texts.now)) result }
    ensures nameable { (files : ℕ) → place.file < files → OnFault result (IsNameable files) }
{
    if let [TextPart::Plain(bytes)] = texts.as_slice() {
        return Ok(Bytes::of(alloc, bytes.as_slice())?);
    }
    let mut bytes = Bytes::new(alloc);
    for part in texts.as_slice() {
        append_part(alloc, part, place, facts, env, &mut bytes)?;
    }
    Ok(bytes)
}

/// Appends the bytes of a part.
#[cycle(texts)]
fn append_part<E: Env>(
    alloc: Global,
    part: &TextPart,
    place: Mark,
    facts: &Facts,
    env: &E,
    into: &mut Bytes,
) -> Result<(), Stop<Fault>>
    ensures appended { Appends (part_bytes place facts.now (E.view env.now) (plain_part part.now)) into.old result into.new }
    ensures nameable { (files : ℕ) → place.file < files → OnFault result (IsNameable files) }
{
    match part {
        TextPart::Plain(bytes) => Ok(into.append(bytes.as_slice())?),
        TextPart::NameFact => Ok(into.append(facts.name.as_slice())?),
        TextPart::DateFact => Ok(write_date(facts.moment, into)?),
        TextPart::TimeFact => Ok(write_time(facts.moment, into)?),
        TextPart::VersionFact => Ok(into.append(b"V1.0")?),
        TextPart::FileBytes(_) | TextPart::FileResource(_) => Ok(()),
        TextPart::Format(format) => append_format(alloc, format, place, facts, env, into),
    }
}

/// Appends what a format gives with its arguments.
#[cycle(texts)]
fn append_format<E: Env>(
    alloc: Global,
    format: &Format,
    place: Mark,
    facts: &Facts,
    env: &E,
    into: &mut Bytes,
) -> Result<(), Stop<Fault>>
    ensures appended { Appends (part_bytes place facts.now (E.view env.now) (plain_format format.now)) into.old result into.new }
    ensures nameable { (files : ℕ) → place.file < files → OnFault result (IsNameable files) }
{
    let values = values_of(alloc, &format.arguments, place, facts, env)?;
    append_filled(
        alloc,
        format.text.as_slice(),
        values.as_slice(),
        place,
        into,
    )
}

/// Appends what a format gives with these values.
fn append_filled(
    alloc: Global,
    text: &[u8],
    values: &[Argument],
    place: Mark,
    into: &mut Bytes,
) -> Result<(), Stop<Fault>>
    ensures appended { Appends (or_bad_format place (formatted text.now values.now)) into.old result into.new }
    ensures nameable { (files : ℕ) → place.file < files → OnFault result (IsNameable files) }
{
    match formatted(alloc, text, values)? {
        Some(bytes) => {
            into.append(bytes.as_slice())?;
            Ok(())
        }
        None => Err(Stop::Refused(Fault {
            number: 222,
            mark: Some(place),
            kept: Kept::Nothing,
        })),
    }
}

/// The values of the arguments of a format, from left to right.
#[cycle(texts)]
fn values_of<E: Env>(
    alloc: Global,
    arguments: &FormatArgs,
    place: Mark,
    facts: &Facts,
    env: &E,
) -> Result<Arguments, Stop<Fault>>
    ensures values { Gives (argument_values place facts.now (E.view env.now) (arguments_of (plain_arguments arguments.now))) result }
    ensures nameable { (files : ℕ) → place.file < files → OnFault result (IsNameable files) }
{
    let mut values = Arguments::new(alloc);
    for argument in arguments.as_slice() {
        values.push(value_of_argument(alloc, argument, place, facts, env)?)?;
    }
    Ok(values)
}

/// The value of an argument of a format.
#[cycle(texts)]
fn value_of_argument<E: Env>(
    alloc: Global,
    argument: &FormatArg,
    place: Mark,
    facts: &Facts,
    env: &E,
) -> Result<Argument, Stop<Fault>>
    ensures value { Gives (argument_value place facts.now (E.view env.now) (plain_argument argument.now)) result }
    ensures nameable { (files : ℕ) → place.file < files → OnFault result (IsNameable files) }
{
    match argument {
        FormatArg::Number(expr) => Ok(Argument::Number(value_seen(alloc, expr, place, env)?)),
        FormatArg::Text(texts) => Ok(Argument::Text(text_seen(alloc, texts, place, facts, env)?)),
    }
}
