//! What a logical line does: its directive, or the tokens that it puts out; a new directive changes `specs/Line`.

ghost use Rattle.std.specs.Prelude.{◌≡◌, ◌+◌, IfOk, Ok};
ghost use Rattle.rz_core.specs.Stop.{OnFault, Meets};
ghost use Rattle.rz_pre.specs.Placed.{IsSourceFault};
ghost use Rattle.rz_core.specs.declared.fault.Fault.{Fault};
ghost use Rattle.rz_pre_source.specs.Directive.{directive_in, unblanked};
ghost use Rattle.rz_pre.specs.Line.{bad_directive, behind_first, defined, directive_word, ended, free_word, included, is_kept, open_part, or_bad, otherwise, part_of, passed_over, simple, stray, tested, undefined, Directs, Does, HasCondition, IsCut, IsReplaced, Obeys, PutsOut, Says, Turns};
ghost use Rattle.rz_pre.specs.Live.{live_in};
ghost use Rattle.rz_pre.specs.Macros.{rows_of};

use crate::act::Act;
use crate::condition::{Tool, compute_condition, is_known};
use crate::conditional::{Open, Part};
use crate::copy::copy_all;
use crate::expanded::expand_all;
use crate::macros::Macros;
use rz_core::{Bytes, Fault, Kept, Mark, NoMemory, Stop, Word};
use rz_expr::role_of;
use rz_lex::{RawLine, Shape, Token, Tokens, cut};
use rz_pre_source::{Directive, directive_in, directive_text, has_parameters};
use std::alloc::Global;

/// What a logical line does, where this is the innermost conditional around it. A line that is no directive
/// puts its tokens out, with their macros replaced. In a part that isn't chosen only conditionals are
/// followed, and nothing is cut into tokens. (MPW Rez.)
pub fn act_of(
    alloc: Global,
    macros: &Macros,
    tool: Tool,
    around: Option<Open>,
    line: &RawLine,
) -> Result<Act, Stop<Fault>>
    ensures act { Meets result (Does (live_in (rows_of macros.now)) tool around line.now) }
    ensures nameable { OnFault result (IsSourceFault (line.now.mark.file + 1)) }
{
    match directive_text(line.bytes.as_slice()) {
        Some(text) => direct(alloc, macros, tool, around, line.mark, text),
        None => {
            if is_kept(around) {
                put_out(alloc, macros, line)
            } else {
                Ok(Act::Nothing)
            }
        }
    }
}

/// Whether a line is read, where this is the innermost conditional around it.
fn is_kept(around: Option<Open>) -> bool
    ensures { result ≡ is_kept around }
{
    match around {
        Some(open) => matches!(open.part, Part::Chosen),
        None => true,
    }
}

/// A line that is no directive.
fn put_out(alloc: Global, macros: &Macros, line: &RawLine) -> Result<Act, Stop<Fault>>
    ensures act { Meets result (PutsOut (live_in (rows_of macros.now)) line.now.mark line.now.bytes) }
    ensures nameable { OnFault result (IsSourceFault (line.now.mark.file + 1)) }
{
    let tokens = cut_line(alloc, line)?;
    let replaced = replace(alloc, macros, tokens)?;
    Ok(Act::Put(replaced))
}

/// The tokens of a line.
fn cut_line(alloc: Global, line: &RawLine) -> Result<Tokens, Stop<Fault>>
    ensures act { Meets result (IsCut line.now.mark line.now.bytes) }
    ensures nameable { OnFault result (IsSourceFault (line.now.mark.file + 1)) }
{
    cut(alloc, line)
}

/// The tokens of a part of a line.
fn cut_bytes(alloc: Global, mark: Mark, bytes: &[u8]) -> Result<Tokens, Stop<Fault>>
    ensures act { Meets result (IsCut mark bytes.now) }
    ensures nameable { OnFault result (IsSourceFault (mark.file + 1)) }
{
    let line = RawLine {
        bytes: Bytes::of(alloc, bytes)?,
        mark,
    };
    cut_line(alloc, &line)
}

/// The tokens with their macros replaced.
fn replace(alloc: Global, macros: &Macros, tokens: Tokens) -> Result<Tokens, Stop<Fault>>
    ensures { Meets result (IsReplaced (live_in (rows_of macros.now)) tokens) }
{
    expand_all(alloc, macros, tokens)
}

/// What a directive does, by what stands after its `#`.
fn direct(
    alloc: Global,
    macros: &Macros,
    tool: Tool,
    around: Option<Open>,
    mark: Mark,
    text: &[u8],
) -> Result<Act, Stop<Fault>>
    ensures act { Meets result (Directs (live_in (rows_of macros.now)) tool around mark text.now (directive_in (unblanked text.now))) }
    ensures nameable { OnFault result (IsSourceFault (mark.file + 1)) }
{
    match directive_in(text) {
        Directive::Elif => turn(alloc, macros, tool, open_part(around), mark, text),
        Directive::Else => otherwise(mark, open_part(around)),
        Directive::Endif => ended(mark, around),
        Directive::Empty => Ok(Act::Nothing),
        directive => {
            if is_kept(around) {
                direct_kept(alloc, macros, tool, mark, text, directive)
            } else {
                Ok(passed_over(directive))
            }
        }
    }
}

/// What a directive does that is kept.
fn direct_kept(
    alloc: Global,
    macros: &Macros,
    tool: Tool,
    mark: Mark,
    text: &[u8],
    directive: Directive,
) -> Result<Act, Stop<Fault>>
    ensures act { Meets result (Obeys (live_in (rows_of macros.now)) tool mark text.now directive) }
    ensures nameable { OnFault result (IsSourceFault (mark.file + 1)) }
{
    match directive {
        Directive::If => Ok(Act::Begin(part_of(compute(alloc, macros, tool, mark, text)?))),
        _ => say(alloc, macros, mark, text, directive),
    }
}

/// What a directive does in a part that isn't chosen: of one that begins a conditional no part is chosen.
fn passed_over(directive: Directive) -> Act
    ensures { result ≡ passed_over directive }
{
    match directive {
        Directive::If | Directive::Ifdef | Directive::Ifndef => Act::Begin(Part::Past),
        _ => Act::Nothing,
    }
}

/// The part of the innermost conditional, unless it is the last or there is none.
fn open_part(around: Option<Open>) -> Option<Part>
    ensures { result ≡ open_part around }
{
    match around {
        Some(open) => { if open.is_last { None } else { Some(open.part) } }
        None => None,
    }
}

/// What `#elif` does. Its condition counts only where no part was chosen yet.
fn turn(
    alloc: Global,
    macros: &Macros,
    tool: Tool,
    part: Option<Part>,
    mark: Mark,
    text: &[u8],
) -> Result<Act, Stop<Fault>>
    ensures act { Meets result (Turns (live_in (rows_of macros.now)) tool mark text.now part) }
    ensures nameable { OnFault result (IsSourceFault (mark.file + 1)) }
{
    match part {
        Some(Part::Waiting) => Ok(Act::Turn(
            part_of(compute(alloc, macros, tool, mark, text)?),
            false,
        )),
        Some(_) => Ok(Act::Turn(Part::Past, false)),
        None => Err(Stop::Refused(stray(mark))),
    }
}

/// What `#else` does.
fn otherwise(mark: Mark, part: Option<Part>) -> Result<Act, Stop<Fault>>
    ensures act { Meets result (λ answer. answer ≡ otherwise mark part) }
    ensures nameable { OnFault result (IsSourceFault (mark.file + 1)) }
{
    match part {
        Some(Part::Waiting) => Ok(Act::Turn(Part::Chosen, true)),
        Some(_) => Ok(Act::Turn(Part::Past, true)),
        None => Err(Stop::Refused(stray(mark))),
    }
}

/// What `#endif` does.
fn ended(mark: Mark, around: Option<Open>) -> Result<Act, Stop<Fault>>
    ensures act { Meets result (λ answer. answer ≡ ended mark around) }
    ensures nameable { OnFault result (IsSourceFault (mark.file + 1)) }
{
    match around {
        Some(_) => Ok(Act::End),
        None => Err(Stop::Refused(stray(mark))),
    }
}

fn stray(mark: Mark) -> Fault
    ensures fault { result ≡ stray mark }
    ensures nameable { IsSourceFault (mark.file + 1) result }
{
    Fault {
        number: 106,
        mark: Some(mark),
        kept: Kept::Nothing,
    }
}

/// The value of the condition of a directive.
fn compute(
    alloc: Global,
    macros: &Macros,
    tool: Tool,
    mark: Mark,
    text: &[u8],
) -> Result<i32, Stop<Fault>>
    ensures act { Meets result (HasCondition (live_in (rows_of macros.now)) tool mark text.now) }
    ensures nameable { OnFault result (IsSourceFault (mark.file + 1)) }
{
    let tokens = cut_bytes(alloc, mark, text)?;
    compute_condition(alloc, macros, tool, mark, behind_first(tokens.as_slice()))
}

/// The part after a condition with this value.
fn part_of(value: i32) -> Part
    ensures { result ≡ part_of value }
{
    if value == 0 {
        Part::Waiting
    } else {
        Part::Chosen
    }
}

/// What a directive does whose tokens say it all.
fn say(
    alloc: Global,
    macros: &Macros,
    mark: Mark,
    text: &[u8],
    directive: Directive,
) -> Result<Act, Stop<Fault>>
    ensures act { Meets result (Says (live_in (rows_of macros.now)) mark text.now directive) }
    ensures nameable { OnFault result (IsSourceFault (mark.file + 1)) }
{
    let tokens = cut_bytes(alloc, mark, text)?;
    said(alloc, macros, mark, text, directive, tokens.as_slice())
}

fn said(
    alloc: Global,
    macros: &Macros,
    mark: Mark,
    text: &[u8],
    directive: Directive,
    tokens: &[Token],
) -> Result<Act, Stop<Fault>>
    ensures act { Meets result (λ answer. answer ≡ or_bad mark tokens.now (simple (live_in (rows_of macros.now)) text.now directive (behind_first tokens.now))) }
    ensures nameable { OnFault result (IsSourceFault (mark.file + 1)) }
{
    match simple(alloc, macros, text, directive, behind_first(tokens))? {
        Some(act) => Ok(act),
        None => Err(Stop::Refused(bad_directive(alloc, mark, tokens)?)),
    }
}

/// The tokens after the directive's word.
fn behind_first(tokens: &[Token]) -> &[Token]
    ensures { result.now ≡ behind_first tokens.now }
{
    match tokens {
        [_, rest @ ..] => rest,
        [] => tokens,
    }
}

/// What a directive does whose tokens after its word are these; `None` where they have another form.
fn simple(
    alloc: Global,
    macros: &Macros,
    text: &[u8],
    directive: Directive,
    tokens: &[Token],
) -> Result<Option<Act>, NoMemory>
    ensures { IfOk result (λ act. act ≡ simple (live_in (rows_of macros.now)) text.now directive tokens.now) }
{
    match directive {
        Directive::Include => included(alloc, tokens),
        Directive::Define => defined(alloc, has_parameters(text), tokens),
        Directive::Undefine => undefined(alloc, tokens),
        Directive::Ifdef => tested(alloc, macros, true, tokens),
        Directive::Ifndef => tested(alloc, macros, false, tokens),
        _ => Ok(None),
    }
}

/// `#include`: one text, the name of a file.
fn included(alloc: Global, tokens: &[Token]) -> Result<Option<Act>, NoMemory>
    ensures { IfOk result (λ act. act ≡ included tokens.now) }
{
    match tokens {
        [file] => match &file.shape {
            Shape::Text(name) => Ok(Some(Act::Include(Bytes::of(alloc, name.as_slice())?))),
            _ => Ok(None),
        },
        _ => Ok(None),
    }
}

/// `#define`: a word that isn't reserved, and what it stands for.
fn defined(alloc: Global, has_parameters: bool, tokens: &[Token]) -> Result<Option<Act>, NoMemory>
    ensures { IfOk result (λ act. act ≡ defined has_parameters tokens.now) }
{
    match tokens {
        [name, text @ ..] if !has_parameters => match free_word(alloc, &name.shape)? {
            Some(word) => Ok(Some(Act::Set(word, Some(copy_all(alloc, text)?)))),
            None => Ok(None),
        },
        _ => Ok(None),
    }
}

/// `#undef`: a word that isn't reserved.
fn undefined(alloc: Global, tokens: &[Token]) -> Result<Option<Act>, NoMemory>
    ensures { IfOk result (λ act. act ≡ undefined tokens.now) }
{
    match tokens {
        [name] => match free_word(alloc, &name.shape)? {
            Some(word) => Ok(Some(Act::Set(word, None))),
            None => Ok(None),
        },
        _ => Ok(None),
    }
}

/// A copy of a word that may be defined.
fn free_word(alloc: Global, shape: &Shape) -> Result<Option<Word>, NoMemory>
    ensures { IfOk result (λ word. word ≡ free_word shape.now) }
{
    match shape {
        Shape::Word(word) if role_of(word).is_label() => Ok(Some(word.copy(alloc)?)),
        _ => Ok(None),
    }
}

/// `#ifdef` and `#ifndef`: whether the first word is defined, or whether it isn't.
fn tested(
    alloc: Global,
    macros: &Macros,
    wanted: bool,
    tokens: &[Token],
) -> Result<Option<Act>, NoMemory>
    ensures { IfOk result (λ act. act ≡ tested (live_in (rows_of macros.now)) wanted tokens.now) }
{
    match tokens {
        [name, ..] => match &name.shape {
            Shape::Word(word) => {
                let known = is_known(alloc, macros, word)?;
                let holds = if wanted { known } else { !known };
                let first = if holds { Part::Chosen } else { Part::Waiting };
                Ok(Some(Act::Begin(first)))
            }
            _ => Ok(None),
        },
        [] => Ok(None),
    }
}

/// 104 for the directive with these tokens.
fn bad_directive(alloc: Global, mark: Mark, tokens: &[Token]) -> Result<Fault, NoMemory>
    ensures fault { IfOk result (λ fault. fault ≡ bad_directive mark tokens.now) }
    ensures nameable { IfOk result (IsSourceFault (mark.file + 1)) }
{
    Ok(Fault {
        number: 104,
        mark: Some(mark),
        kept: directive_word(alloc, tokens)?,
    })
}

/// The word of a directive, where it has one.
fn directive_word(alloc: Global, tokens: &[Token]) -> Result<Kept, NoMemory>
    ensures { IfOk result (λ kept. kept ≡ directive_word tokens.now) }
{
    match tokens {
        [first, ..] => match &first.shape {
            Shape::Word(word) => Ok(Kept::Name(Bytes::of(alloc, word.bytes.as_slice())?)),
            _ => Ok(Kept::Nothing),
        },
        [] => Ok(Kept::Nothing),
    }
}
