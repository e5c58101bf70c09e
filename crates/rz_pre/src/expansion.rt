//! The expansion of one macro, without recursion. What it is, is in `specs/Expand`, and its steps in `specs/Steps`.

ghost use Rattle.std.specs.Prelude.{◌≡◌, ◌∷◌, ◌++◌, [], false, Some, IfOk, OnOk};
ghost use Rattle.rz_core.specs.Stop.{OnFault};
ghost use Rattle.rz_pre.specs.Expand.{ExpandsTo, IsTooLong};
ghost use Rattle.rz_pre.specs.Live.{live_in, token_row};
ghost use Rattle.rz_pre.specs.Macros.{rows_of};
ghost use Rattle.rz_pre.specs.Steps.{Handles, is_inside};

use crate::copy::copy_at;
use crate::macros::Macros;
use indexmap::IndexMap;
use rz_core::{Mark, NoMemory, Stop};
use rz_lex::{Token, Tokens};
use std::alloc::Global;

/// The most tokens that are handled for one word: the word, and each token of each replacement.
const LIMIT: u32 = 65_536;

/// More than 65,536 tokens are handled for one word.
#[derive(Clone, Copy, Debug, Drop, PartialEq, Eq)]
pub struct TooLong;

/// What stands in place of a word that is the live macro at a position, each token of it at the word's place:
/// the expansions of the macro's tokens, in which that macro is hidden. The refusal comes exactly where more
/// than 65,536 tokens are handled, the word and every token of each replacement counted. The macros that are
/// being replaced stand in `frames`, outermost first, each with the position of its next token. (MPW Rez.)
pub fn replace(
    alloc: Global,
    macros: &Macros,
    index: usize,
    token: &Token,
) -> Result<Tokens, Stop<TooLong>>
    requires { token_row (rows_of macros.now) token.now.shape ≡ Some index }
    ensures tokens { IfOk result (ExpandsTo (live_in (rows_of macros.now)) token.now) }
    ensures long { OnFault result (λ fault. IsTooLong (live_in (rows_of macros.now)) token.now) }
{
    let mut done = Tokens::new(alloc);
    let mut frames: IndexMap<usize, usize> = IndexMap::new(alloc);
    let replaced = replace_all(alloc, macros, index, token, &mut frames, &mut done);
    drop(frames);
    match replaced {
        Ok(()) => Ok(done),
        Err(stop) => {
            drop(done);
            Err(stop)
        }
    }
}

/// The same, with no frames and nothing done before.
fn replace_all(
    alloc: Global,
    macros: &Macros,
    index: usize,
    token: &Token,
    frames: &mut IndexMap<usize, usize>,
    done: &mut Tokens,
) -> Result<(), Stop<TooLong>>
    requires live { token_row (rows_of macros.now) token.now.shape ≡ Some index }
    requires frames { frames.old.entries ≡ [] }
    requires done { done.old ≡ [] }
    ensures tokens { OnOk result (ExpandsTo (live_in (rows_of macros.now)) token.now done.new) }
    ensures long { OnFault result (λ fault. IsTooLong (live_in (rows_of macros.now)) token.now) }
{
    push_frame(frames, index, 0)?;
    let mut budget: u32 = LIMIT - 1;
    while let Some((inner, next)) = frames.pop() {
        let body = macros.body(inner);
        if next < body.len() {
            if budget == 0 {
                return Err(Stop::Refused(TooLong));
            }
            budget -= 1;
            push_frame(frames, inner, next + 1)?;
            handle(alloc, macros, &body[next], token.mark, frames, done)?;
        }
    }
    Ok(())
}

/// Handles one token of a replacement: a live macro that isn't being replaced is, and any other token is
/// put out at the word's place.
fn handle(
    alloc: Global,
    macros: &Macros,
    token: &Token,
    mark: Mark,
    frames: &mut IndexMap<usize, usize>,
    done: &mut Tokens,
) -> Result<(), NoMemory>
    ensures { OnOk result (Handles (rows_of macros.now) token.now mark frames.old.entries frames.new.entries done.old done.new) }
{
    match macros.find_token(alloc, &token.shape)? {
        Some(index) => {
            if is_inside(index, frames) {
                done.push(copy_at(alloc, &token.shape, mark)?)?;
            } else {
                push_frame(frames, index, 0)?;
            }
        }
        None => done.push(copy_at(alloc, &token.shape, mark)?)?,
    }
    Ok(())
}

/// Whether a macro is being replaced.
#[tactic(auto, using(crate::proofs::Lookups::inside_found))]
fn is_inside(index: usize, frames: &IndexMap<usize, usize>) -> bool
    ensures { result ≡ is_inside index frames.now.entries }
{
    frames.contains_key(&index)
}

/// Goes on with a macro, inside all others that are being replaced.
#[tactic(auto, using(crate::proofs::Lookups::goes_last))]
fn push_frame(
    frames: &mut IndexMap<usize, usize>,
    index: usize,
    next: usize,
) -> Result<(), NoMemory>
    requires { is_inside index frames.old.entries ≡ false }
    ensures { OnOk result (frames.new.entries ≡ frames.old.entries ++ (index, next) ∷ []) }
{
    frames.insert(index, next)?;
    Ok(())
}
