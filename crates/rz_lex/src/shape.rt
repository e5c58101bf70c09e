//! The shape of a lexeme, or its fault, and which fault comes first. All of this is in `specs/Shape`.

ghost use Rattle.std.specs.Prelude.{◌≡◌, ◌+◌, ◌<◌, ◌≤◌, ◌∷◌, length, take, true, IfOk};
ghost use Rattle.rz_core.specs.Stop.{Gives};
ghost use Rattle.rz_lex.specs.Escape.{text_value};
ghost use Rattle.rz_lex.specs.Extent.{ends_dollar, is_lexeme};
ghost use Rattle.rz_lex.specs.Hex.{hex_value};
ghost use Rattle.rz_lex.specs.Shape.{dollar_shape, fault_at, hex_shape, inside, literal_shape, long_fault, no_lexeme_fault, number_shape, shape_of, sign_shape, spelled_fault, text_shape, word_shape};
ghost use Rattle.rz_lex.specs.Sign.{sign_of};

use crate::Shape;
use crate::classes::{is_digit, is_word_byte};
use crate::digits::number_value;
use crate::escape::text_value;
use crate::hex::hex_value;
use crate::sign::sign_of;
use rz_core::{Bytes, Fault, Kept, Mark, NoMemory, Stop, Word};
use std::alloc::Global;

/// The most bytes of a word or a number, and of what a fault keeps.
const LONGEST: usize = 255;

/// The shape of a lexeme. A lexeme that doesn't end on its line has no shape (108); of the others 109 comes
/// first, and 115 before 110.
pub fn shape_of(alloc: Global, mark: Mark, bytes: &[u8]) -> Result<Shape, Stop<Fault>>
    requires { is_lexeme bytes.now ≡ true }
    ensures { Gives (shape_of mark bytes.now) result }
{
    match bytes {
        [] => Err(Stop::Refused(fault_at(mark, 111, Kept::Nothing))),
        [first, ..] if is_digit(*first) => number_shape(alloc, mark, bytes),
        [first, ..] if is_word_byte(*first) => word_shape(alloc, mark, bytes),
        [b'\'', ..] => literal_shape(alloc, mark, bytes),
        [b'"', ..] => text_shape(alloc, mark, bytes),
        [b'$', behind @ ..] => dollar_shape(alloc, mark, bytes, behind),
        [first, ..] => sign_shape(mark, *first, bytes),
    }
}

/// The fault where no front of a line is a lexeme: 108 where a literal or a text begins, else 111.
pub fn no_lexeme_fault(mark: Mark, rest: &[u8]) -> Fault
    ensures { result ≡ no_lexeme_fault mark rest.now }
{
    match rest {
        [] => fault_at(mark, 111, Kept::Nothing),
        [b'"' | b'\'', ..] | [b'$', b'"', ..] => fault_at(mark, 108, Kept::Nothing),
        [first, ..] => fault_at(mark, 111, Kept::Number(*first as i64)),
    }
}

fn fault_at(mark: Mark, number: u16, kept: Kept) -> Fault
    ensures { result ≡ fault_at mark number kept }
{
    Fault {
        number,
        mark: Some(mark),
        kept,
    }
}

/// A fault that keeps the bytes of its token, at most 255.
fn spelled_fault(alloc: Global, mark: Mark, number: u16, bytes: &[u8]) -> Result<Fault, NoMemory>
    ensures { IfOk result (λ fault. fault ≡ spelled_fault mark number bytes.now) }
{
    let kept = Bytes::of(alloc, kept_front(bytes))?;
    Ok(fault_at(mark, number, Kept::Name(kept)))
}

fn kept_front(bytes: &[u8]) -> &[u8]
    ensures { result.now ≡ take 255 bytes.now }
{
    if bytes.len() > LONGEST {
        bytes.split_at(LONGEST).0
    } else {
        bytes
    }
}

fn long_fault(mark: Mark, bytes: &[u8]) -> Fault
    ensures { result ≡ long_fault mark bytes.now }
{
    fault_at(mark, 115, Kept::Number(bytes.len() as i64))
}

fn word_shape(alloc: Global, mark: Mark, bytes: &[u8]) -> Result<Shape, Stop<Fault>>
    ensures { Gives (word_shape mark bytes.now) result }
{
    if bytes.len() > LONGEST {
        return Err(Stop::Refused(long_fault(mark, bytes)));
    }
    let bytes = Bytes::of(alloc, bytes)?;
    Ok(Shape::Word(Word { bytes }))
}

fn number_shape(alloc: Global, mark: Mark, bytes: &[u8]) -> Result<Shape, Stop<Fault>>
    ensures { Gives (number_shape mark bytes.now) result }
{
    if bytes.len() > LONGEST {
        return Err(Stop::Refused(long_fault(mark, bytes)));
    }
    match number_value(bytes) {
        Some(value) => Ok(Shape::Number(value)),
        None => Err(Stop::Refused(spelled_fault(alloc, mark, 110, bytes)?)),
    }
}

/// The bytes after the first so many and before the last one.
fn inside(front: usize, bytes: &[u8]) -> &[u8]
    requires { (front < 10) × (front + 1 ≤ length bytes.now) }
    ensures { result.now ≡ inside front bytes.now }
{
    let behind = bytes.split_at(front).1;
    behind.split_at(bytes.len() - (front + 1)).0
}

fn literal_shape(alloc: Global, mark: Mark, bytes: &[u8]) -> Result<Shape, Stop<Fault>>
    requires { 2 ≤ length bytes.now }
    ensures { Gives (literal_shape mark bytes.now (text_value 0 (inside 1 bytes.now))) result }
{
    match text_value(alloc, inside(1, bytes))? {
        Some(value) => {
            let size = value.len();
            if size > 0 && size <= 4 {
                Ok(Shape::Literal(value))
            } else {
                Err(Stop::Refused(spelled_fault(alloc, mark, 110, bytes)?))
            }
        }
        None => Err(Stop::Refused(spelled_fault(alloc, mark, 109, bytes)?)),
    }
}

fn text_shape(alloc: Global, mark: Mark, bytes: &[u8]) -> Result<Shape, Stop<Fault>>
    requires { 2 ≤ length bytes.now }
    ensures { Gives (text_shape mark bytes.now (text_value 0 (inside 1 bytes.now))) result }
{
    match text_value(alloc, inside(1, bytes))? {
        Some(value) => Ok(Shape::Text(value)),
        None => Err(Stop::Refused(spelled_fault(alloc, mark, 109, bytes)?)),
    }
}

fn hex_shape(alloc: Global, mark: Mark, bytes: &[u8]) -> Result<Shape, Stop<Fault>>
    requires { 3 ≤ length bytes.now }
    ensures { Gives (hex_shape mark (hex_value (inside 2 bytes.now))) result }
{
    match hex_value(alloc, inside(2, bytes))? {
        Some(value) => Ok(Shape::Text(value)),
        None => Err(Stop::Refused(fault_at(mark, 113, Kept::Nothing))),
    }
}

/// The shape of a lexeme that begins with `$`; `behind` stands after the `$`.
fn dollar_shape(
    alloc: Global,
    mark: Mark,
    bytes: &[u8],
    behind: &[u8],
) -> Result<Shape, Stop<Fault>>
    requires whole { bytes.now ≡ 36 ∷ behind.now }
    requires lexeme { ends_dollar behind.now ≡ true }
    ensures { Gives (dollar_shape mark bytes.now behind.now) result }
{
    match behind {
        [b'"', ..] => hex_shape(alloc, mark, bytes),
        [b'$', ..] | [] => word_shape(alloc, mark, bytes),
        _ => number_shape(alloc, mark, bytes),
    }
}

fn sign_shape(mark: Mark, first: u8, bytes: &[u8]) -> Result<Shape, Stop<Fault>>
    ensures { Gives (sign_shape mark first (sign_of bytes.now)) result }
{
    match sign_of(bytes) {
        Some(sign) => Ok(Shape::Sign(sign)),
        None => Err(Stop::Refused(fault_at(mark, 111, Kept::Number(first as i64)))),
    }
}
