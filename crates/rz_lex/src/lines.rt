//! The logical lines of a source, one by one, and the laws of them. They are defined in `specs/Lines`.

ghost use Rattle.std.specs.Prelude.{◌≡◌, ℕ, ◌+◌, ◌≤◌, ◌^◌, [], length, List, Option, None, IfNone, IfOk, IfSome};
ghost use Rattle.rz_core.specs.Message.{IsNameable};
ghost use Rattle.rz_core.specs.Stop.{OnFault};
ghost use Rattle.rz_core.specs.declared.fault.Fault.{Fault};
ghost use Rattle.rz_lex.specs.Joined.{ahead, IsFurther};
ghost use Rattle.rz_lex.specs.Lines.{open_comment, HasLines, HasOpenComment, StandsBefore};
ghost use Rattle.rz_lex.specs.declared.joined.Placed.{Placed};
ghost use Rattle.rz_lex.specs.declared.raw_line.RawLine.{RawLine};

use crate::cover::{take_bare_line, take_parts};
use crate::joined::{Position, next_byte};
use crate::raw_line::RawLine;
use rz_core::{Fault, Kept, Mark, Stop};
use std::alloc::Global;

/// The first logical line that stands ahead, and the position of the next. `file` is the position of the
/// source in the list of files, for the marks. `None` comes exactly at the end of the text. 107 comes
/// exactly where a comment begins in this line that never ends; its mark is that of the line.
pub fn next_line<'a>(
    alloc: Global,
    file: u64,
    start: Position<'a>,
) -> Result<Option<(RawLine, Position<'a>)>, Stop<Fault>>
    requires { start.line + length start.rest.now ≤ 2 ^ 32 }
    ensures line { IfOk result (λ read. IfSome read (λ read. StandsBefore file (ahead start.entry) read.0 (ahead read.1))) }
    ensures end { IfOk result (λ read. IfNone read (HasLines file (ahead start.entry) [] None)) }
    ensures comment { OnFault result (HasOpenComment file (ahead start.entry) []) }
    ensures mark { IfOk result (λ read. IfSome read (λ read. read.0.mark.file ≡ file)) }
    ensures nameable { OnFault result (IsNameable (file + 1)) }
    ensures further { IfOk result (λ read. IfSome read (λ read. IsFurther start.entry read.1)) }
{
    let Some((first, _)) = next_byte(start) else {
        return Ok(None);
    };
    let mark = Mark {
        file,
        line: first.line,
    };
    let (mut bytes, mut place) = take_bare_line(alloc, start)?;
    while let Some((byte, after)) = next_byte(place) {
        if byte.byte == b'\n' {
            return Ok(Some((RawLine { bytes, mark }, after)));
        }
        let Some(rest) = take_parts(place, &mut bytes)? else {
            return Err(Stop::Refused(open_comment(mark)));
        };
        place = rest;
    }
    Ok(Some((RawLine { bytes, mark }, place)))
}

fn open_comment(mark: Mark) -> Fault
    ensures fault { result ≡ open_comment mark }
    ensures nameable { IsNameable (mark.file + 1) result }
{
    Fault {
        number: 107,
        mark: Some(mark),
        kept: Kept::Nothing,
    }
}

/// The law of logical lines: every text has its lines, or its lines up to an open comment.
pub fn every_text_has_lines()
    ensures { (file : ℕ) (text : List Placed) → (lines : List RawLine) × (ending : Option Fault) × HasLines file text lines ending }
{}

/// The law that a text has its lines and its ending in one way.
pub fn one_list_of_lines()
    ensures { (file : ℕ) (text : List Placed) (lines others : List RawLine) (ending other : Option Fault) →
        HasLines file text lines ending → HasLines file text others other → (lines ≡ others) × (ending ≡ other) }
{}
