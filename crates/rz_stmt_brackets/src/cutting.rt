//! The tokens of a program cut into statements; changes with `specs/Statements` and `specs/Cutting`.

ghost use Rattle.std.specs.Prelude.{◌≡◌, ◌+◌, ◌<◌, ◌≤◌, ◌^◌, List, length, IfOk};
ghost use Rattle.rz_lex.specs.declared.token.Token.{Token};
ghost use Rattle.rz_stmt_brackets.specs.Statements.{is_empty, is_end, is_semicolon, open_behind, AreStatements, HasSpans};
ghost use Rattle.rz_stmt_brackets.specs.declared.span.Span.{Span};
ghost use Rattle.rz_stmt_brackets.specs.Cutting.{size_of};

use crate::span::{Span, Spans};
use rz_core::NoMemory;
use rz_lex::{Shape, Sign, Token, Tokens};
use std::alloc::Global;

/// The statements of a program: its tokens are cut after each `;` that stands outside all brackets, of
/// whatever kind. A rest without such a `;` is the last statement. A bracket that closes none counts for
/// nothing, and after each cut none is open. (MPW Rez.)
pub fn statements(alloc: Global, tokens: &Tokens) -> Result<Spans, NoMemory>
    ensures spans { IfOk result (HasSpans tokens.now) }
    ensures every { (spans : List Span) → HasSpans tokens.now spans → IfOk result (λ given. given ≡ spans) }
{
    one_cutting();
    let mut spans = Spans::new(alloc);
    let mut start = 0;
    let mut rest = tokens.as_slice();
    while !rest.is_empty() {
        let size = statement_size(rest);
        let end = start + size as u64;
        spans.push(Span { start, end })?;
        start = end;
        rest = rest.split_at(size).1;
    }
    Ok(spans)
}

/// How many tokens the first statement has.
fn statement_size(tokens: &[Token]) -> usize
    requires { 0 < length tokens.now }
    ensures size { result ≡ size_of 0 tokens.now }
    ensures some { 0 < result }
    ensures within { result ≤ length tokens.now }
{
    let mut size = 0;
    let mut depth = 0;
    while size < tokens.len() {
        let shape = &tokens[size].shape;
        size += 1;
        if is_end(shape, depth) {
            return size;
        }
        depth = open_behind(shape, depth);
    }
    size
}

/// Whether a token is the sign `;`, which ends a statement.
pub fn is_semicolon(token: &Token) -> bool
    ensures { result ≡ is_semicolon token.now.shape }
{
    matches!(token.shape, Shape::Sign(Sign::Semicolon))
}

/// Whether these are a `;` alone, which is a statement.
pub fn is_empty_statement(tokens: &[Token]) -> bool
    ensures { result ≡ is_empty tokens.now }
{
    match tokens {
        [token] => is_semicolon(token),
        _ => false,
    }
}

/// Whether it is a `;` outside all brackets, of which so many are open.
pub fn is_end(shape: &Shape, depth: usize) -> bool
    ensures { result ≡ is_end shape.now depth }
{
    matches!(shape, Shape::Sign(Sign::Semicolon)) && depth == 0
}

/// How many brackets are open after a token.
pub fn open_behind(shape: &Shape, depth: usize) -> usize
    requires { depth + 1 < 2 ^ 64 }
    ensures count { result ≡ open_behind shape.now depth }
    ensures slow { result ≤ depth + 1 }
{
    match shape {
        Shape::Sign(Sign::OpenParen | Sign::OpenBracket | Sign::OpenBrace) => depth + 1,
        Shape::Sign(Sign::CloseParen | Sign::CloseBracket | Sign::CloseBrace) =>
            depth.saturating_sub(1),
        _ => depth,
    }
}

/// A law, with nothing to run: tokens are statements in one way.
pub fn one_cutting()
    ensures { (tokens : List Token) (statements others : List (List Token))
        → AreStatements tokens statements → AreStatements tokens others → statements ≡ others }
{}
