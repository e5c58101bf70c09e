//! Texts as they are written: text tokens, words, and functions; changes with `specs/Texts`.

ghost use Rattle.std.specs.Prelude.{◌≡◌, IfOk, map, option_map};
ghost use Rattle.rz_core.specs.Decided.{Decided};
ghost use Rattle.rz_words.specs.Words.{role_of};
ghost use Rattle.rz_types_fields.specs.Text.{plain_argument, plain_arguments, plain_key, plain_part, plain_parts};
ghost use Rattle.rz_stmt_data.specs.Files.{text_of};
ghost use Rattle.rz_stmt_data.specs.Steps.{held_front, IsAsked, IsCalledPair, IsFormatted, IsFrontPair};
ghost use Rattle.rz_stmt_data.specs.Texts.{begins_text, call_in, key_by, kind_alone, part_in, starts_text, text_alone, word_call, word_part, AreArguments, AreParts, IsArgument, IsCall, IsText};
ghost use Rattle.rz_stmt_data.specs.declared.texts.TextCall.TheVariants.{Format, Read, Resource};

use crate::files::whole_file;
use crate::laws::one_text;
use rz_core::{Bytes, NoMemory, OsType};
use rz_expr::{Role, TextWord, read_whole, role_of};
use rz_lex::{Shape, Token};
use rz_stmt_brackets::{Bracket, Divider, bracketed, kind_in, pieces_by};
use rz_types_fields::{
    FileResource, FormatArg, FormatArgs, ResKey, TextPart, TextPlace, Texts, may_stand,
};
use std::alloc::Global;

/// A function that is a part of a text, by what stands in its brackets. (MPW Rez.)
#[derive(Clone, Copy, PartialEq, Eq)]
pub enum TextCall {
    /// `$$Read`, what a file holds.
    Read,
    /// `$$Resource`, a resource of a file.
    Resource,
    /// `$$Format`, a format with its arguments.
    Format,
}

/// A part at the front of tokens, and what stands after it.
#[derive(Drop)]
struct Front<'a> {
    part: TextPart,
    behind: &'a [Token],
}

/// The text that the tokens are, where it may stand in such a place. `None` exactly where they are none. It takes time
/// in proportion to the tokens for each bracket that is open, and reading goes as deep as brackets are open: callers
/// bound the tokens that they hand in. (MPW Rez.)
pub fn text_at(alloc: Global, place: TextPlace, tokens: &[Token]) -> Result<Option<Texts>, NoMemory>
    ensures { IfOk result (λ texts. Decided (IsText place tokens.now) (option_map plain_parts texts)) }
{
    one_text();
    match read_parts(alloc, tokens)? {
        Some(texts) => {
            if !texts.is_empty() && may_stand(place, &texts) {
                Ok(Some(texts))
            } else {
                Ok(None)
            }
        }
        None => Ok(None),
    }
}

/// Whether a text begins with the first token. No expression begins so. (MPW Rez.)
pub fn begins_text(tokens: &[Token]) -> bool
    ensures { result ≡ begins_text tokens.now }
{
    match tokens.split_first() {
        Some((first, _)) => starts_text(&first.shape),
        None => false,
    }
}

/// Whether a text begins with such a token.
fn starts_text(shape: &Shape) -> bool
    ensures { result ≡ starts_text shape.now }
{
    match shape {
        Shape::Text(_) => true,
        Shape::Word(word) => matches!(role_of(word), Role::Text(_)),
        _ => false,
    }
}

/// The parts that the tokens are, one after the other.
#[cycle(texts)]
fn read_parts(alloc: Global, tokens: &[Token]) -> Result<Option<Texts>, NoMemory>
    ensures { IfOk result (λ texts. Decided (AreParts tokens.now) (option_map plain_parts texts)) }
{
    let mut texts = Texts::with_capacity(alloc, tokens_alone(tokens))?;
    let mut rest = tokens;
    while !rest.is_empty() {
        let Some(front) = read_front(alloc, rest)? else {
            return Ok(None);
        };
        texts.push(front.part)?;
        rest = front.behind;
    }
    Ok(Some(texts))
}

/// How many text tokens stand at the front, each of them a part: so much memory is taken at once. Most texts are one
/// token, and those of `data` statements may be millions.
fn tokens_alone(tokens: &[Token]) -> usize {
    let other = tokens
        .iter()
        .position(|token| !matches!(token.shape, Shape::Text(_)));
    other.unwrap_or(tokens.len())
}

/// The part at the front.
#[cycle(texts)]
fn read_front<'a>(alloc: Global, tokens: &'a [Token]) -> Result<Option<Front<'a>>, NoMemory>
    ensures { IfOk result (λ front. Decided (IsFrontPair tokens.now) (option_map held_front front)) }
{
    let Some((first, behind)) = tokens.split_first() else {
        return Ok(None);
    };
    match part_in(alloc, &first.shape)? {
        Some(part) => Ok(Some(Front { part, behind })),
        None => match call_in(&first.shape) {
            Some(call) => read_called(alloc, call, behind),
            None => Ok(None),
        },
    }
}

/// The part that a function is whose brackets stand at the front.
#[cycle(texts)]
fn read_called<'a>(
    alloc: Global,
    call: TextCall,
    tokens: &'a [Token],
) -> Result<Option<Front<'a>>, NoMemory>
    ensures { IfOk result (λ front. Decided (IsCalledPair call tokens.now) (option_map held_front front)) }
{
    let Some(split) = bracketed(tokens, Bracket::Round) else {
        return Ok(None);
    };
    match read_call(alloc, call, split.front)? {
        Some(part) => Ok(Some(Front {
            part,
            behind: split.behind,
        })),
        None => Ok(None),
    }
}

/// The part that a function with these tokens in its brackets is.
#[cycle(texts)]
fn read_call(alloc: Global, call: TextCall, tokens: &[Token]) -> Result<Option<TextPart>, NoMemory>
    ensures { IfOk result (λ part. Decided (IsCall call tokens.now) (option_map plain_part part)) }
{
    match call {
        TextCall::Read => read_file(alloc, tokens),
        TextCall::Resource => read_resource(alloc, tokens),
        TextCall::Format => read_format(alloc, tokens),
    }
}

/// The `$$Read` with these tokens in its brackets.
fn read_file(alloc: Global, tokens: &[Token]) -> Result<Option<TextPart>, NoMemory>
    ensures { IfOk result (λ part. Decided (IsCall Read tokens.now) (option_map plain_part part)) }
{
    match whole_file(alloc, tokens)? {
        Some(file) => Ok(Some(TextPart::FileBytes(file))),
        None => Ok(None),
    }
}

/// The `$$Resource` with these tokens in its brackets.
#[cycle(texts)]
fn read_resource(alloc: Global, tokens: &[Token]) -> Result<Option<TextPart>, NoMemory>
    ensures { IfOk result (λ part. Decided (IsCall Resource tokens.now) (option_map plain_part part)) }
{
    let pieces = pieces_by(alloc, tokens, Divider::Comma)?;
    match pieces.as_slice() {
        [file, kind, asked] => read_asked(alloc, file, kind, asked),
        _ => Ok(None),
    }
}

/// The `$$Resource` with these pieces.
#[cycle(texts)]
fn read_asked(
    alloc: Global,
    file: &[Token],
    kind: &[Token],
    asked: &[Token],
) -> Result<Option<TextPart>, NoMemory>
    ensures { IfOk result (λ part. Decided (IsAsked file.now kind.now asked.now) (option_map plain_part part)) }
{
    let Some(file) = whole_file(alloc, file)? else {
        return Ok(None);
    };
    let Some(code) = kind_alone(kind) else {
        return Ok(None);
    };
    match read_argument(alloc, asked)? {
        Some(key) => {
            let asked = FileResource {
                file,
                kind: OsType { code },
                key: key_by(key),
            };
            Ok(Some(TextPart::FileResource(Box::new(alloc, asked)?)))
        }
        None => Ok(None),
    }
}

/// The `$$Format` with these tokens in its brackets.
#[cycle(texts)]
fn read_format(alloc: Global, tokens: &[Token]) -> Result<Option<TextPart>, NoMemory>
    ensures { IfOk result (λ part. Decided (IsCall Format tokens.now) (option_map plain_part part)) }
{
    let pieces = pieces_by(alloc, tokens, Divider::Comma)?;
    match pieces.split_first() {
        Some((text, others)) => read_formatted(alloc, text, others),
        None => Ok(None),
    }
}

/// The `$$Format` with this text and these arguments.
#[cycle(texts)]
fn read_formatted(
    alloc: Global,
    text: &[Token],
    others: &[&[Token]],
) -> Result<Option<TextPart>, NoMemory>
    ensures { IfOk result (λ part. Decided (IsFormatted text.now (map (λ piece. piece.now) others.now)) (option_map plain_part part)) }
{
    let Some(text) = text_alone(alloc, text)? else {
        return Ok(None);
    };
    match read_arguments(alloc, others)? {
        Some(arguments) => {
            let format = rz_types_fields::Format { text, arguments };
            Ok(Some(TextPart::Format(Box::new(alloc, format)?)))
        }
        None => Ok(None),
    }
}

/// The arguments that the pieces are.
#[cycle(texts)]
fn read_arguments(alloc: Global, pieces: &[&[Token]]) -> Result<Option<FormatArgs>, NoMemory>
    ensures { IfOk result (λ arguments. Decided (AreArguments (map (λ piece. piece.now) pieces.now)) (option_map plain_arguments arguments)) }
{
    let mut arguments = FormatArgs::new(alloc);
    for piece in pieces {
        let Some(argument) = read_argument(alloc, piece)? else {
            return Ok(None);
        };
        arguments.push(argument)?;
    }
    Ok(Some(arguments))
}

/// The argument that the tokens are: a text where one begins there, or an expression.
#[cycle(texts)]
fn read_argument(alloc: Global, tokens: &[Token]) -> Result<Option<FormatArg>, NoMemory>
    ensures { IfOk result (λ argument. Decided (IsArgument tokens.now) (option_map plain_argument argument)) }
{
    if begins_text(tokens) {
        match read_parts(alloc, tokens)? {
            Some(texts) => Ok(Some(FormatArg::Text(texts))),
            None => Ok(None),
        }
    } else {
        match read_whole(alloc, tokens)? {
            Some(expr) => Ok(Some(FormatArg::Number(expr))),
            None => Ok(None),
        }
    }
}

/// What a `$$Resource` asks for: an id by a number, and a name by a text.
fn key_by(argument: FormatArg) -> ResKey
    ensures { plain_key result ≡ key_by (plain_argument argument) }
{
    match argument {
        FormatArg::Number(expr) => ResKey::Id(expr),
        FormatArg::Text(texts) => ResKey::Name(texts),
    }
}

/// The text that a piece is by one token.
fn text_alone(alloc: Global, tokens: &[Token]) -> Result<Option<Bytes>, NoMemory>
    ensures { IfOk result (λ bytes. bytes ≡ text_alone tokens.now) }
{
    match tokens {
        [token] => text_of(alloc, &token.shape),
        _ => Ok(None),
    }
}

/// The bytes of a text token.
fn text_of(alloc: Global, shape: &Shape) -> Result<Option<Bytes>, NoMemory>
    ensures { IfOk result (λ bytes. bytes ≡ text_of shape.now) }
{
    match shape {
        Shape::Text(bytes) => Ok(Some(Bytes::of(alloc, bytes.as_slice())?)),
        _ => Ok(None),
    }
}

/// The type that a piece is by one token.
fn kind_alone(tokens: &[Token]) -> Option<u32>
    ensures { result ≡ kind_alone tokens.now }
{
    match tokens {
        [token] => kind_in(token),
        _ => None,
    }
}

/// The part that a token is by itself.
fn part_in(alloc: Global, shape: &Shape) -> Result<Option<TextPart>, NoMemory>
    ensures { IfOk result (λ part. option_map plain_part part ≡ part_in shape.now) }
{
    match shape {
        Shape::Text(bytes) => Ok(Some(TextPart::Plain(Bytes::of(alloc, bytes.as_slice())?))),
        Shape::Word(word) => Ok(word_part(role_of(word))),
        _ => Ok(None),
    }
}

/// The part that a word is by itself.
fn word_part(role: Role) -> Option<TextPart>
    ensures { option_map plain_part result ≡ word_part role }
{
    match role {
        Role::Text(TextWord::Name) => Some(TextPart::NameFact),
        Role::Text(TextWord::Date) => Some(TextPart::DateFact),
        Role::Text(TextWord::Time) => Some(TextPart::TimeFact),
        Role::Text(TextWord::Version) => Some(TextPart::VersionFact),
        _ => None,
    }
}

/// The function that a token is.
fn call_in(shape: &Shape) -> Option<TextCall>
    ensures { result ≡ call_in shape.now }
{
    match shape {
        Shape::Word(word) => word_call(role_of(word)),
        _ => None,
    }
}

/// The function that a word is.
fn word_call(role: Role) -> Option<TextCall>
    ensures { result ≡ word_call role }
{
    match role {
        Role::Text(TextWord::Read) => Some(TextCall::Read),
        Role::Text(TextWord::Resource) => Some(TextCall::Resource),
        Role::Text(TextWord::Format) => Some(TextCall::Format),
        _ => None,
    }
}
