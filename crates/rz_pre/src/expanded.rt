//! The tokens of a line with their macros replaced, from left to right. It is defined in `specs/Expanded`.

ghost use Rattle.std.specs.Prelude.{◌≡◌, ◌++◌, Ok, Err, IfOk, OnOk};
ghost use Rattle.rz_core.specs.Stop.{OnFault};
ghost use Rattle.rz_core.specs.declared.fault.Fault.{Fault};
ghost use Rattle.rz_lex.specs.declared.token.Token.{Token};
ghost use Rattle.rz_pre.specs.Expand.{IsTooLong};
ghost use Rattle.rz_pre.specs.Expanded.{ExpandInto, FirstTooLong, PutsInPlace, spelling, too_long};
ghost use Rattle.rz_pre.specs.Live.{are_bare, live_in};
ghost use Rattle.rz_pre.specs.Macros.{rows_of};

use crate::expansion::{TooLong, replace};
use crate::macros::Macros;
use rz_core::{Bytes, Fault, Kept, NoMemory, Stop};
use rz_lex::{Shape, Token, Tokens};
use std::alloc::Global;

/// The tokens of a line with their macros replaced. A line without a macro is given back as it is, and takes
/// no memory. A refusal is 112 at the first word for which more than 65,536 tokens are handled, with the word's
/// spelling. (MPW Rez.)
pub fn expand_all(alloc: Global, macros: &Macros, tokens: Tokens) -> Result<Tokens, Stop<Fault>>
    ensures tokens { IfOk result (ExpandInto (live_in (rows_of macros.now)) tokens) }
    ensures fault { OnFault result (FirstTooLong (live_in (rows_of macros.now)) tokens) }
{
    if is_free(alloc, macros, tokens.as_slice())? {
        return Ok(tokens);
    }
    let mut done = Tokens::new(alloc);
    for token in tokens.into_vec() {
        put_expanded(alloc, macros, token, &mut done)?;
    }
    Ok(done)
}

/// Whether no token is a live macro.
fn is_free(alloc: Global, macros: &Macros, tokens: &[Token]) -> Result<bool, NoMemory>
    ensures { IfOk result (λ free. free ≡ are_bare (rows_of macros.now) tokens.now) }
{
    for token in tokens {
        if macros.find_token(alloc, &token.shape)?.is_some() {
            return Ok(false);
        }
    }
    Ok(true)
}

/// Puts what stands in place of a token after what was put out before: the token itself, or for a word that
/// is a live macro the macro's expansion.
fn put_expanded(
    alloc: Global,
    macros: &Macros,
    token: Token,
    done: &mut Tokens,
) -> Result<(), Stop<Fault>>
    ensures tokens { OnOk result (PutsInPlace (live_in (rows_of macros.now)) token done.old done.new) }
    ensures fault { OnFault result (λ fault. IsTooLong (live_in (rows_of macros.now)) token × (fault ≡ too_long token)) }
{
    match macros.find_token(alloc, &token.shape)? {
        Some(index) => match replace(alloc, macros, index, &token) {
            Ok(more) => Ok(append(done, more)?),
            Err(Stop::Refused(TooLong)) => Err(Stop::Refused(too_long(alloc, &token)?)),
            Err(Stop::NoMemory) => Err(Stop::NoMemory),
        },
        None => Ok(done.push(token)?),
    }
}

/// Moves tokens after others.
fn append(tokens: &mut Tokens, more: Tokens) -> Result<(), NoMemory>
    ensures { OnOk result (tokens.new ≡ tokens.old ++ more) }
{
    for token in more.into_vec() {
        tokens.push(token)?;
    }
    Ok(())
}

/// 112 for a word.
fn too_long(alloc: Global, word: &Token) -> Result<Fault, NoMemory>
    ensures { IfOk result (λ fault. fault ≡ too_long word.now) }
{
    Ok(Fault {
        number: 112,
        mark: Some(word.mark),
        kept: Kept::Name(spelling(alloc, &word.shape)?),
    })
}

fn spelling(alloc: Global, shape: &Shape) -> Result<Bytes, NoMemory>
    ensures { IfOk result (λ bytes. bytes ≡ spelling shape.now) }
{
    match shape {
        Shape::Word(word) => Bytes::of(alloc, word.bytes.as_slice()),
        _ => Ok(Bytes::new(alloc)),
    }
}
