//! An argument as one line of tokens, as `specs/Line` says.

ghost use Rattle.std.specs.Prelude.{◌≡◌, IfOk, List};
ghost use Rattle.rz_lex.specs.Cutting.{Cuts};
ghost use Rattle.rz_tools_args.specs.Definition.{nowhere};
ghost use Rattle.rz_core.specs.Decided.{Decided};
ghost use Rattle.rz_tools_args.specs.Line.{is_one_word};

use rz_core::{Bytes, Mark, NoMemory, Stop, Word};
use rz_lex::{RawLine, Shape, Token, Tokens, cut};
use std::alloc::Global;

/// The mark of tokens of the words, which no message shows.
const NOWHERE: Mark = Mark { file: 0, line: 0 };

/// The tokens of bytes as one line, where they can be cut.
pub fn tokens_in(alloc: Global, bytes: Bytes) -> Result<Option<Tokens>, NoMemory>
    ensures { IfOk result (Decided (Cuts nowhere bytes)) }
{
    let line = RawLine {
        bytes,
        mark: NOWHERE,
    };
    match cut(alloc, &line) {
        Ok(tokens) => Ok(Some(tokens)),
        Err(Stop::Refused(_)) => Ok(None),
        Err(Stop::NoMemory) => Err(NoMemory),
    }
}

/// Whether the tokens are this word alone.
pub fn is_one_word(tokens: &[Token], word: &Word) -> bool
    ensures { result ≡ is_one_word tokens.now word.now.bytes }
{
    match tokens {
        [token] => match &token.shape {
            Shape::Word(other) => other.bytes.as_slice() == word.bytes.as_slice(),
            _ => false,
        },
        _ => false,
    }
}
