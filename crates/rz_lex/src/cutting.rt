//! The tokens of a line, or its first fault. How a line is cut is in `specs/Cutting`.

ghost use Rattle.std.specs.Prelude.{◌≡◌, ◌+◌, ◌≤◌, ℕ, List, length, IfOk, Ok, Err};
ghost use Rattle.rz_core.specs.Message.{IsNameable};
ghost use Rattle.rz_core.specs.Stop.{Gives, OnFault};
ghost use Rattle.rz_core.specs.declared.fault.Fault.{Fault};
ghost use Rattle.rz_lex.specs.Cutting.{after_blanks, Cuts, IsBad, Refuses};
ghost use Rattle.rz_lex.specs.Extent.{is_lexeme, Longest};
ghost use Rattle.rz_lex.specs.Shape.{shape_of};
ghost use Rattle.rz_lex.specs.declared.token.Token.{Token};

use crate::classes::is_blank;
use crate::extent::lexeme_at;
use crate::shape::{no_lexeme_fault, shape_of};
use crate::{RawLine, Token, Tokens};
use rz_core::{Fault, Mark, Stop};
use std::alloc::Global;

/// The tokens for which a list has room before it grows.
const FIRST_ROOM: usize = 12;

/// The tokens of a line, each the longest that stands at its place, all with the line's mark. A refusal
/// is the first fault of the line: 108 where a literal or a text does not end on it, 109 for a wrong
/// escape (kept: the token's bytes as written, at most 255), 110 for a wrong number or literal (kept: the
/// same), 111 for a byte that begins no token (kept: the byte), 113 for a wrong hex text, 115 for a word
/// or a number of more than 255 bytes (kept: the length). Of one token's faults 108 comes first, then 109,
/// then 115. (MPW Rez.)
pub fn cut(alloc: Global, line: &RawLine) -> Result<Tokens, Stop<Fault>>
    ensures tokens { IfOk result (Cuts line.now.mark line.now.bytes) }
    ensures fault { OnFault result (Refuses line.now.mark line.now.bytes) }
    ensures every_list { (tokens : List Token) → Cuts line.now.mark line.now.bytes tokens → Gives (Ok tokens) result }
    ensures every_fault { (fault : Fault) → Refuses line.now.mark line.now.bytes fault → Gives (Err fault) result }
    ensures nameable { OnFault result (IsNameable (line.now.mark.file + 1)) }
{
    cut_line(alloc, line)
}

fn cut_line(alloc: Global, line: &RawLine) -> Result<Tokens, Stop<Fault>>
    ensures tokens { IfOk result (Cuts line.now.mark line.now.bytes) }
    ensures fault { OnFault result (Refuses line.now.mark line.now.bytes) }
{
    let mut rest = after_blanks(line.bytes.as_slice());
    if rest.is_empty() {
        return Ok(Tokens::new(alloc));
    }
    let mut tokens = Tokens::with_capacity(alloc, FIRST_ROOM)?;
    'lexemes: while !rest.is_empty() {
        let (token, after) = token_at(alloc, line.mark, rest)?;
        tokens.push(token)?;
        rest = after_blanks(after);
    }
    Ok(tokens)
}

/// The token at the front, and what follows it.
fn token_at(alloc: Global, mark: Mark, rest: &[u8]) -> Result<(Token, &[u8]), Stop<Fault>>
    ensures token { IfOk result (λ read. (lexeme : List ℕ) × Longest is_lexeme rest.now lexeme read.1.now
        × (shape_of mark lexeme ≡ Ok read.0.shape) × (read.0.mark ≡ mark)) }
    ensures fault { OnFault result (IsBad mark rest.now) }
{
    match lexeme_at(rest) {
        None => Err(Stop::Refused(no_lexeme_fault(mark, rest))),
        Some((lexeme, after)) => match shape_of(alloc, mark, lexeme) {
            Ok(shape) => Ok((Token { shape, mark }, after)),
            Err(stop) => Err(stop),
        },
    }
}

/// What follows the blanks at the front.
fn after_blanks(line: &[u8]) -> &[u8]
    ensures rest { result.now ≡ after_blanks line.now }
    ensures shorter { length result.now ≤ length line.now }
{
    let mut rest = line;
    loop {
        match rest {
            [byte, after @ ..] if is_blank(*byte) => rest = after,
            _ => return rest,
        }
    }
}
