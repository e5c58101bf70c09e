//! The tokens of all lines of a text, or its first fault. They are defined in `specs/Lexed`.

ghost use Rattle.std.specs.Prelude.{◌≡◌, ◌+◌, ◌<◌, ◌++◌, ◌^◌, ℕ, List, length, Ok, Err, IfOk, OnOk};
ghost use Rattle.rz_core.specs.Message.{IsNameable};
ghost use Rattle.rz_core.specs.Stop.{Gives, OnFault};
ghost use Rattle.rz_core.specs.declared.fault.Fault.{Fault};
ghost use Rattle.rz_lex.specs.Joined.{joined};
ghost use Rattle.rz_lex.specs.Lexed.{Lexes, LexFails};
ghost use Rattle.rz_lex.specs.declared.joined.Placed.{Placed};
ghost use Rattle.rz_lex.specs.declared.token.Token.{Token};

use crate::joined::Position;
use crate::lines::next_line;
use crate::{Tokens, cut};
use rz_core::{Fault, NoMemory, Stop};
use std::alloc::Global;

/// The tokens of all logical lines of a text of fewer than 2^32 bytes, each with the mark of its line.
/// `file` is the position of the text in the list of files, for the marks. A refusal is the first fault:
/// that of the first line that can't be cut (108 to 111, 113, 115, as for `cut`), else 107 for a comment
/// that never ends. (MPW Rez.)
pub fn lex(alloc: Global, text: &[u8], file: u64) -> Result<Tokens, Stop<Fault>>
    requires { length text.now < 2 ^ 32 }
    ensures tokens { IfOk result (Lexes file (joined 1 text.now)) }
    ensures fault { OnFault result (LexFails file (joined 1 text.now)) }
    ensures every_list { (tokens : List Token) → Lexes file (joined 1 text.now) tokens → Gives (Ok tokens) result }
    ensures every_fault { (fault : Fault) → LexFails file (joined 1 text.now) fault → Gives (Err fault) result }
    ensures nameable { OnFault result (IsNameable (file + 1)) }
{
    lex_lines(alloc, text, file)
}

fn lex_lines(alloc: Global, text: &[u8], file: u64) -> Result<Tokens, Stop<Fault>>
    requires { length text.now < 2 ^ 32 }
    ensures tokens { IfOk result (Lexes file (joined 1 text.now)) }
    ensures fault { OnFault result (LexFails file (joined 1 text.now)) }
    ensures nameable { OnFault result (IsNameable (file + 1)) }
{
    let mut tokens = Tokens::new(alloc);
    let mut place = Position {
        rest: text,
        line: 1,
    };
    'lines: loop {
        match next_line(alloc, file, place) {
            Ok(None) => return Ok(tokens),
            Ok(Some((line, after))) => {
                let of_line = cut(alloc, &line);
                drop(line);
                match of_line {
                    Ok(of_line) => append(&mut tokens, of_line)?,
                    Err(stop) => {
                        drop(tokens);
                        return Err(stop);
                    }
                }
                place = after;
            }
            Err(stop) => {
                drop(tokens);
                return Err(stop);
            }
        }
    }
}

/// Moves tokens after others.
fn append(tokens: &mut Tokens, more: Tokens) -> Result<(), NoMemory>
    ensures { OnOk result (tokens.new ≡ tokens.old ++ more) }
{
    for token in more.into_vec() {
        tokens.push(token)?;
    }
    Ok(())
}

/// A law, with nothing to run: a text has at most one list of tokens, at most one first fault, and never
/// both.
pub fn one_lex()
    ensures tokens { (file : ℕ) (text : List Placed) (tokens others : List Token)
        → Lexes file text tokens → Lexes file text others → tokens ≡ others }
    ensures fault { (file : ℕ) (text : List Placed) (fault other : Fault)
        → LexFails file text fault → LexFails file text other → fault ≡ other }
    ensures not_both { (file : ℕ) (text : List Placed) (tokens : List Token) (fault : Fault)
        → Lexes file text tokens → LexFails file text fault → ⊥ }
{}
