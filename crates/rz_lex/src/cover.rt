//! The parts of a joined text: comments, quoted parts, single bytes. They are defined in `specs/Cover`.

ghost use Rattle.std.specs.Prelude.{◌≡◌, ◌≢◌, ◌↔◌, ◌⊎◌, ◌+◌, ◌<◌, ◌≤◌, ◌^◌, ◌++◌, [], length, drop, Option, Some, None, false, MatchOption, IfNone, IfOk, IfSome, ℕ, List};
ghost use Rattle.rz_lex.specs.Joined.{ahead, is_at, IsOn, IsFurther};
ghost use Rattle.rz_lex.specs.Classes.{is_quote};
ghost use Rattle.rz_lex.specs.Cover.{after_close, after_part, after_quote, after_taken, after_text, begins, bytes_of, Cover, Parts, TakesPart};
ghost use Rattle.rz_lex.specs.Part.{IsOpen, IsPart};
ghost use Rattle.rz_lex.specs.Runs.{TakesParts};
ghost use Rattle.rz_lex.specs.declared.joined.Placed.{Placed};

use crate::classes::is_quote;
use crate::joined::{Position, next_byte};
use crate::runs::{bare_line, plain_run, unbroken_run};
use rz_core::{Bytes, NoMemory};
use std::alloc::Global;

/// The bytes for which a line has room before it grows.
const FIRST_ROOM: usize = 64;

/// Takes the line that stands ahead whole where neither a slash nor a backslash stands in it, and of any other line
/// nothing: what was taken, and the position after it.
pub fn take_bare_line<'a>(
    alloc: Global,
    start: Position<'a>,
) -> Result<(Bytes, Position<'a>), NoMemory>
    ensures taken { IfOk result (λ read. TakesParts (ahead start.entry) (ahead read.1) [] read.0) }
    ensures on { IfOk result (λ read. IsOn start.entry read.1) }
    ensures moved { IfOk result (λ read. (length read.1.rest.now < length start.entry.rest.now) ⊎ (ahead read.1 ≡ ahead start.entry)) }
{
    match bare_line(start) {
        Some((line, end)) => Ok((Bytes::of(alloc, line)?, end)),
        None => Ok((Bytes::with_capacity(alloc, FIRST_ROOM)?, start)),
    }
}

/// Takes the bytes that stand ahead and are parts by themselves, and where there is none the part that stands
/// ahead, which is no line end; appends what they leave in their line, and gives the position after them.
/// `None` comes exactly where a comment begins that never ends.
pub fn take_parts<'a>(
    start: Position<'a>,
    out: &mut Bytes,
) -> Result<Option<Position<'a>>, NoMemory>
    requires room { start.line + length start.rest.now ≤ 2 ^ 32 }
    requires inside { is_at 10 (ahead start) ≡ false }
    requires there { ahead start ≢ [] }
    ensures taken { IfOk result (λ taken. IfSome taken (λ place. TakesParts (ahead start.entry) (ahead place) out.old out.new)) }
    ensures endless { IfOk result (λ taken. IfNone taken (after_part (ahead start.entry) ≡ None)) }
    ensures further { IfOk result (λ taken. IfSome taken (λ place. IsFurther start.entry place)) }
{
    let (run, behind) = plain_run(start);
    if !run.is_empty() {
        out.append(run)?;
        return Ok(Some(behind));
    }
    let Some(rest) = take_part(start, out)? else {
        return Ok(None);
    };
    Ok(Some(rest))
}

/// Takes the part that stands ahead, which is no line end, appends what it leaves in its line, and gives
/// the position after it. `None` comes exactly where a comment begins that never ends.
fn take_part<'a>(start: Position<'a>, out: &mut Bytes) -> Result<Option<Position<'a>>, NoMemory>
    requires room { start.line + length start.rest.now ≤ 2 ^ 32 }
    requires inside { is_at 10 (ahead start) ≡ false }
    requires there { ahead start ≢ [] }
    ensures taken { IfOk result (λ taken. IfSome taken (λ place. TakesPart (ahead start.entry) (ahead place) out.old out.new)) }
    ensures endless { IfOk result (λ taken. IfNone taken (after_part (ahead start.entry) ≡ None)) }
    ensures further { IfOk result (λ taken. IfSome taken (λ place. IsFurther start.entry place)) }
{
    if begins(b'/', b'*', start) {
        let Some(rest) = skip_block(start) else {
            return Ok(None);
        };
        out.push(b' ')?;
        return Ok(Some(rest));
    }
    if begins(b'/', b'/', start) {
        let rest = skip_slashes(start);
        out.push(b' ')?;
        return Ok(Some(rest));
    }
    let rest = copy_part(start, out)?;
    Ok(Some(rest))
}

/// Whether these two bytes stand first.
fn begins(first: u8, second: u8, place: Position) -> bool
    requires { place.line + length place.rest.now ≤ 2 ^ 32 }
    ensures { result ≡ begins first second (ahead place.entry) }
{
    if let Some((byte, after)) = next_byte(place) {
        if byte.byte == first {
            if let Some((next, _)) = next_byte(after) {
                return next.byte == second;
            }
        }
    }
    false
}

/// What stands after a comment that begins with the two bytes ahead.
fn skip_block(start: Position) -> Option<Position>
    requires { start.line + length start.rest.now ≤ 2 ^ 32 }
    ensures rest { MatchOption result (after_close (drop 2 (ahead start.entry)) ≡ None) (λ place. after_close (drop 2 (ahead start.entry)) ≡ Some (ahead place)) }
    ensures further { IfSome result (λ place. IsFurther start.entry place) }
{
    let (_, second) = next_byte(start)?;
    let (_, inside) = next_byte(second)?;
    skip_comment(inside)
}

/// What stands after the first `*/`.
fn skip_comment(start: Position) -> Option<Position>
    requires { start.line + length start.rest.now ≤ 2 ^ 32 }
    ensures rest { MatchOption result (after_close (ahead start.entry) ≡ None) (λ place. after_close (ahead start.entry) ≡ Some (ahead place)) }
    ensures on { IfSome result (λ place. IsOn start.entry place) }
{
    let mut place = start;
    while let Some((byte, after)) = next_byte(place) {
        if byte.byte == b'*' {
            if let Some((next, behind)) = next_byte(after) {
                if next.byte == b'/' {
                    return Some(behind);
                }
            }
        }
        place = skip_to_star(after);
    }
    None
}

/// What stands after bytes that are no `*`.
fn skip_to_star(start: Position) -> Position
    ensures rest { after_close (ahead start.entry) ≡ after_close (ahead result) }
    ensures on { IsOn start.entry result }
{
    unbroken_run(b'*', start).1
}

/// What stands after the text of the line, whose first byte is not its line end.
fn skip_slashes(start: Position) -> Position
    requires room { start.line + length start.rest.now ≤ 2 ^ 32 }
    requires inside { is_at 10 (ahead start) ≡ false }
    requires there { ahead start ≢ [] }
    ensures rest { after_text (ahead start.entry) ≡ ahead result }
    ensures further { IsFurther start.entry result }
{
    match next_byte(start) {
        Some((_, after)) => skip_text(after),
        None => start,
    }
}

/// What stands after the text of the line: its line end, or nothing.
fn skip_text(start: Position) -> Position
    requires { start.line + length start.rest.now ≤ 2 ^ 32 }
    ensures rest { after_text (ahead start.entry) ≡ ahead result }
    ensures on { IsOn start.entry result }
{
    let mut place = start;
    while let Some((byte, after)) = next_byte(place) {
        if byte.byte == b'\n' {
            return place;
        }
        place = skip_to_end(after);
    }
    place
}

/// What stands after bytes that end no line.
fn skip_to_end(start: Position) -> Position
    ensures rest { after_text (ahead start.entry) ≡ after_text (ahead result) }
    ensures on { IsOn start.entry result }
{
    unbroken_run(b'\n', start).1
}

/// Copies a quoted part, or the single byte that stands ahead where no quote mark does.
fn copy_part<'a>(start: Position<'a>, out: &mut Bytes) -> Result<Position<'a>, NoMemory>
    requires room { start.line + length start.rest.now ≤ 2 ^ 32 }
    requires inside { is_at 10 (ahead start) ≡ false }
    requires there { ahead start ≢ [] }
    requires block { begins 47 42 (ahead start) ≡ false }
    requires slashes { begins 47 47 (ahead start) ≡ false }
    ensures taken { IfOk result (λ place. TakesPart (ahead start.entry) (ahead place) out.old out.new) }
    ensures further { IfOk result (λ place. IsFurther start.entry place) }
{
    let Some((byte, after)) = next_byte(start) else {
        return Ok(start);
    };
    out.push(byte.byte)?;
    if is_quote(byte.byte) {
        let rest = copy_quoted(byte.byte, after, out)?;
        return Ok(rest);
    }
    Ok(after)
}

/// Copies what is left of a quoted part after its first mark.
fn copy_quoted<'a>(
    quote: u8,
    start: Position<'a>,
    out: &mut Bytes,
) -> Result<Position<'a>, NoMemory>
    requires { start.line + length start.rest.now ≤ 2 ^ 32 }
    ensures rest { IfOk result (λ place. after_quote quote (ahead start.entry) ≡ ahead place) }
    ensures copied { IfOk result (λ place. out.old ++ bytes_of (ahead start.entry) ≡ out.new ++ bytes_of (ahead place)) }
    ensures on { IfOk result (λ place. IsOn start.entry place) }
{
    let mut place = start;
    loop {
        let behind = copy_run(quote, place, out)?;
        let Some((byte, after)) = next_byte(behind) else {
            return Ok(behind);
        };
        if byte.byte == b'\n' {
            return Ok(behind);
        }
        out.push(byte.byte)?;
        if byte.byte == quote {
            return Ok(after);
        }
        place = after;
        if byte.byte == b'\\' {
            place = copy_taken(after, out)?;
        }
    }
}

/// Copies the bytes up to the next such quote mark, backslash or line end.
fn copy_run<'a>(quote: u8, start: Position<'a>, out: &mut Bytes) -> Result<Position<'a>, NoMemory>
    ensures rest { IfOk result (λ place. after_quote quote (ahead start.entry) ≡ after_quote quote (ahead place)) }
    ensures copied { IfOk result (λ place. out.old ++ bytes_of (ahead start.entry) ≡ out.new ++ bytes_of (ahead place)) }
    ensures on { IfOk result (λ place. IsOn start.entry place) }
{
    let (run, behind) = unbroken_run(quote, start);
    out.append(run)?;
    Ok(behind)
}

/// Copies the byte that a backslash in a quoted part takes along, if there is one in the line.
fn copy_taken<'a>(start: Position<'a>, out: &mut Bytes) -> Result<Position<'a>, NoMemory>
    requires { start.line + length start.rest.now ≤ 2 ^ 32 }
    ensures rest { IfOk result (λ place. (quote : ℕ) → after_taken quote (ahead start.entry) ≡ after_quote quote (ahead place)) }
    ensures copied { IfOk result (λ place. out.old ++ bytes_of (ahead start.entry) ≡ out.new ++ bytes_of (ahead place)) }
    ensures on { IfOk result (λ place. IsOn start.entry place) }
{
    match next_byte(start) {
        Some((byte, after)) if byte.byte != b'\n' => {
            out.push(byte.byte)?;
            Ok(after)
        }
        _ => Ok(start),
    }
}

/// The law of parts: what stands after the first part of a text is what stands after a comment, a quoted part
/// or a single byte at its front, in the words of the language; a text has no first part exactly where it is
/// empty or begins with a comment that never ends.
pub fn parts_of_language()
    ensures part { (text rest : List Placed) → (after_part text ≡ Some rest) ↔ ((part : List Placed) × (text ≡ part ++ rest) × IsPart part rest) }
    ensures none { (text : List Placed) → (after_part text ≡ None) ↔ ((text ≡ []) ⊎ IsOpen text) }
{}

/// The law of covers: a text has at most one, and a text with an open comment has none.
pub fn one_cover()
    ensures cover { (text : List Placed) (parts others : List (List Placed)) → Cover text parts → Cover text others → parts ≡ others }
    ensures open_comment { (text comment : List Placed) (parts before : List (List Placed)) →
        Cover text parts → Parts text before comment → after_part comment ≡ None → comment ≢ [] → ⊥ }
{}
