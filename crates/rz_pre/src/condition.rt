//! The conditions of `#if` and `#elif`, and the tool that asks. What they mean is in `specs/Condition`.

ghost use Rattle.std.specs.Prelude.{◌≡◌, ◌<◌, ◌≤◌, [], ℤ, Ok, Err, Some, length, IfOk, IfSome, MatchOption, option_map};
ghost use Rattle.rz_core.specs.Stop.{Meets};
ghost use Rattle.rz_pre.specs.Line.{IsComputed};
ghost use Rattle.rz_core.specs.declared.fault.Fault.{Fault};
ghost use Rattle.rz_core.specs.declared.fault.Mark.{Mark};
ghost use Rattle.rz_lex.specs.Printed.{token_of};
ghost use Rattle.rz_lex.specs.declared.token.Shape.TheVariants as shapes;
ghost use Rattle.rz_lex.specs.declared.token.Token.{Token};
ghost use Rattle.rz_pre.specs.Condition.{answer, asked, behind_defined, has_value, in_brackets, is_known, is_named, is_true, nothing_seen, numbered, numbered_shape, own_keyword, word_number, Computes, HasValue, Tells};
ghost use Rattle.rz_pre.specs.Live.{live_in};
ghost use Rattle.rz_pre.specs.declared.condition.Tool.{Tool};
ghost use Rattle.rz_pre.specs.Macros.{rows_of};

use crate::copy::{copy_at, copy_of};
use crate::expanded::expand_all;
use crate::macros::Macros;
use rz_core::{Fault, Kept, Mark, NoMemory, Stop, Word};
use rz_expr::{
    Env, FactWord, Key, Keyword, Role, eval, is_keyword, predefined, read_expr, role_of, spelling,
};
use rz_lex::{Shape, Sign, Token, Tokens};
use std::alloc::Global;

/// The most tokens of a condition after its macros are replaced.
const MOST: u64 = 1024;

/// The tool that reads a source.
#[derive(Clone, Copy, Debug, PartialEq, Eq)]
pub enum Tool {
    /// Rez: `rez` is 1 and `derez` is 0.
    Rez,
    /// DeRez: `derez` is 1 and `rez` is 0.
    DeRez,
}

/// What a condition sees: no name has a value.
struct NoNames;

impl Env for NoNames {
    ghost view = { λ _. nothing_seen };

    fn give(&self, _key: Key<'_>) -> Option<i128> {
        None
    }

    fn bits(&self, _first: i64, _width: i32) -> Option<u32> {
        None
    }

    fn fact(&self, _which: FactWord) -> i32 {
        0
    }
}

/// The value of the condition of an `#if` or `#elif`, whose line has this mark. First each `defined name`
/// and each `defined(name)` becomes a number, 1 for a live macro and for `true`, `false`, `rez` and `derez`.
/// Then macros are replaced. Then each word becomes a number: `true` and the tool's name 1, any other 0.
/// Last the expression is computed. A refusal is 112 at a word for which more than 65,536 tokens are
/// handled, else 114 where more than 1,024 tokens are left, one is the name of a function as `$$ID`, they
/// are no expression, or it has no value. (MPW Rez.)
pub fn compute_condition(
    alloc: Global,
    macros: &Macros,
    tool: Tool,
    mark: Mark,
    tokens: &[Token],
) -> Result<i32, Stop<Fault>>
    ensures { Meets result (IsComputed (live_in (rows_of macros.now)) tool mark tokens.now) }
{
    let told = tell(alloc, macros, tokens)?;
    let replaced = expand_all(alloc, macros, told)?;
    match computed(alloc, tool, &replaced)? {
        Some(value) => Ok(value),
        None => Err(Stop::Refused(Fault {
            number: 114,
            mark: Some(mark),
            kept: Kept::Nothing,
        })),
    }
}

/// The tokens with a number for each question whether a name is defined.
fn tell(alloc: Global, macros: &Macros, tokens: &[Token]) -> Result<Tokens, NoMemory>
    ensures { IfOk result (Tells (live_in (rows_of macros.now)) tokens.now) }
{
    let mut told = Tokens::new(alloc);
    let mut rest = tokens;
    while let Some((first, behind)) = rest.split_first() {
        match asked(rest) {
            Some((name, after)) => {
                told.push(answer(alloc, macros, name, first.mark)?)?;
                rest = after;
            }
            None => {
                told.push(copy_at(alloc, &first.shape, first.mark)?)?;
                rest = behind;
            }
        }
    }
    Ok(told)
}

/// Whether a name is defined, as a number.
fn answer(alloc: Global, macros: &Macros, name: &Word, mark: Mark) -> Result<Token, NoMemory>
    ensures { IfOk result (λ token. token ≡ token_of mark (shapes.Number (answer (live_in (rows_of macros.now)) name.now.bytes))) }
{
    Ok(Token {
        shape: Shape::Number(u32::from(is_known(alloc, macros, name)?)),
        mark,
    })
}

/// Whether a name is defined.
#[tactic(auto, using(crate::proofs::Asking::found_is_live))]
pub fn is_known(alloc: Global, macros: &Macros, name: &Word) -> Result<bool, NoMemory>
    ensures { IfOk result (λ known. known ≡ is_known (live_in (rows_of macros.now)) name.now.bytes) }
{
    if has_value(name) {
        return Ok(true);
    }
    let row = macros.find(alloc, name)?;
    Ok(row.is_some())
}

/// Whether it is a word that always has a value.
fn has_value(name: &Word) -> bool
    ensures { result ≡ has_value name.now.bytes }
{
    predefined(name).is_some() || is_named(Keyword::Rez, name) || is_named(Keyword::DeRez, name)
}

/// Whether a name is this keyword, in whatever case.
fn is_named(keyword: Keyword, name: &Word) -> bool
    ensures { result ≡ is_named keyword name.now.bytes }
{
    name.bytes
        .as_slice()
        .eq_ignore_ascii_case(spelling(keyword))
}

/// The name that a question at the front asks for, and what stands after the question.
fn asked(tokens: &[Token]) -> Option<(&Word, &[Token])>
    ensures question { option_map (λ found. (found.0.now.bytes, found.1.now)) result ≡ asked tokens.now }
    ensures further { IfSome result (λ found. length found.1.now < length tokens.now) }
{
    match tokens {
        [first, rest @ ..] => {
            if is_keyword(first, Keyword::Defined) {
                behind_defined(rest)
            } else {
                None
            }
        }
        [] => None,
    }
}

/// The same after a word `defined`: the name alone or in brackets.
fn behind_defined(tokens: &[Token]) -> Option<(&Word, &[Token])>
    ensures question { option_map (λ found. (found.0.now.bytes, found.1.now)) result ≡ behind_defined tokens.now }
    ensures within { IfSome result (λ found. length found.1.now ≤ length tokens.now) }
{
    match tokens {
        [first, rest @ ..] => match &first.shape {
            Shape::Word(name) => Some((name, rest)),
            Shape::Sign(Sign::OpenParen) => in_brackets(rest),
            _ => None,
        },
        [] => None,
    }
}

fn in_brackets(tokens: &[Token]) -> Option<(&Word, &[Token])>
    ensures question { option_map (λ found. (found.0.now.bytes, found.1.now)) result ≡ in_brackets tokens.now }
    ensures within { IfSome result (λ found. length found.1.now ≤ length tokens.now) }
{
    match tokens {
        [name, close, rest @ ..] => match (&name.shape, &close.shape) {
            (Shape::Word(name), Shape::Sign(Sign::CloseParen)) => Some((name, rest)),
            _ => None,
        },
        _ => None,
    }
}

/// The value of tokens whose macros are replaced, where they have one.
fn computed(alloc: Global, tool: Tool, tokens: &Tokens) -> Result<Option<i32>, NoMemory>
    ensures { IfOk result (λ computed. MatchOption computed ((value : ℤ) → Computes tool tokens.now value → ⊥) (Computes tool tokens.now)) }
{
    if tokens.len() > MOST {
        return Ok(None);
    }
    match numbered(alloc, tool, tokens.as_slice())? {
        Some(numbers) => value_of(alloc, &numbers),
        None => Ok(None),
    }
}

/// The value of tokens that are one expression, where they have one.
fn value_of(alloc: Global, tokens: &Tokens) -> Result<Option<i32>, NoMemory>
    ensures { IfOk result (λ computed. MatchOption computed ((value : ℤ) → HasValue tokens.now value → ⊥) (HasValue tokens.now)) }
{
    let Some(found) = read_expr(alloc, tokens, 0)? else {
        return Ok(None);
    };
    if found.end < tokens.len() {
        drop(found);
        return Ok(None);
    }
    let computed = eval(alloc, &found.expr, &NoNames);
    drop(found);
    match computed {
        Ok(value) => Ok(Some(value)),
        Err(Stop::Refused(fault)) => {
            drop(fault);
            Ok(None)
        }
        Err(Stop::NoMemory) => Err(NoMemory),
    }
}

/// The tokens with each word as its number, or none where one is the name of a function.
fn numbered(alloc: Global, tool: Tool, tokens: &[Token]) -> Result<Option<Tokens>, NoMemory>
    ensures { IfOk result (λ numbers. numbers ≡ numbered tool tokens.now) }
{
    let mut numbers = Tokens::new(alloc);
    for token in tokens {
        match numbered_shape(alloc, tool, &token.shape)? {
            Some(shape) => numbers.push(Token {
                shape,
                mark: token.mark,
            })?,
            None => return Ok(None),
        }
    }
    Ok(Some(numbers))
}

fn numbered_shape(alloc: Global, tool: Tool, shape: &Shape) -> Result<Option<Shape>, NoMemory>
    ensures { IfOk result (λ number. number ≡ numbered_shape tool shape.now) }
{
    match shape {
        Shape::Word(word) => match role_of(word) {
            Role::Fact(_) | Role::Call(_) | Role::Text(_) => Ok(None),
            _ => Ok(Some(Shape::Number(word_number(tool, word)))),
        },
        other => Ok(Some(copy_of(alloc, other)?)),
    }
}

/// The value of a word that is left.
fn word_number(tool: Tool, word: &Word) -> u32
    ensures { result ≡ word_number tool word.now.bytes }
{
    u32::from(is_named(own_keyword(tool), word) || is_true(predefined(word)))
}

/// The keyword that is the tool's name.
fn own_keyword(tool: Tool) -> Keyword
    ensures { result ≡ own_keyword tool }
{
    match tool {
        Tool::Rez => Keyword::Rez,
        Tool::DeRez => Keyword::DeRez,
    }
}

/// Whether it is a value other than 0.
fn is_true(value: Option<i32>) -> bool
    ensures { result ≡ is_true value }
{
    match value {
        Some(value) => value != 0,
        None => false,
    }
}
