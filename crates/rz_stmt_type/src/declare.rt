//! The `type` statement as it is written: its ids, and its fields or a copy; changes with `specs/Declare`.

ghost use Rattle.std.specs.Prelude.{◌≡◌, IfOk, map, option_map};
ghost use Rattle.rz_expr.specs.Term.{term_of};
ghost use Rattle.rz_stmt_type.specs.Declare.{AreIds, IsDeclare, IsMade, IsScope};
ghost use Rattle.rz_stmt_type.specs.DeclareSteps.{scoped_form, AreFieldsMade, AreForAny, AreForIds, AreScoped, AreTwoIds, IsCopy, IsCopyId, IsGivenId, IsOneId};
ghost use Rattle.rz_core.specs.Decided.{Decided};
ghost use Rattle.rz_stmt_fields.specs.Form.{declare_form, made_form, scope_form};

use crate::body::read_body;
use rz_core::NoMemory;
use rz_expr::{Expr, Keyword, read_constant};
use rz_lex::Token;
use rz_stmt_brackets::{Bracket, Divider, begins, bracketed, is_empty_statement, pieces_by};
use rz_stmt_data::read_typed;
use rz_stmt_fields::{DeclareExpr, MadeExpr, ScopeExpr};
use std::alloc::Global;

/// The `type` statement that the tokens are, as it is written. `None` exactly where they are none. It takes time in
/// proportion to the tokens for each brace that is open, and reading goes as deep as braces are open: callers bound
/// the tokens that they hand in. (MPW Rez.)
pub fn read_declare(alloc: Global, tokens: &[Token]) -> Result<Option<DeclareExpr>, NoMemory>
    ensures { IfOk result (λ stmt. Decided (IsDeclare tokens.now) (option_map declare_form stmt)) }
{
    let Some(typed) = read_typed(tokens, Keyword::Kind) else {
        return Ok(None);
    };
    match read_scoped(alloc, typed.behind)? {
        Some(parts) => Ok(Some(DeclareExpr {
            kind: typed.kind,
            scope: parts.scope,
            made: parts.made,
        })),
        None => Ok(None),
    }
}

/// For which ids, and what the type is.
#[derive(Drop)]
struct Scoped {
    scope: ScopeExpr,
    made: MadeExpr,
}

/// What stands after the type that is declared.
fn read_scoped(alloc: Global, tokens: &[Token]) -> Result<Option<Scoped>, NoMemory>
    ensures { IfOk result (λ parts. Decided (AreScoped tokens.now) (option_map scoped_form parts)) }
{
    if begins(tokens, Bracket::Round) {
        read_for_ids(alloc, tokens)
    } else {
        read_for_any(alloc, tokens)
    }
}

fn read_for_any(alloc: Global, tokens: &[Token]) -> Result<Option<Scoped>, NoMemory>
    ensures { IfOk result (λ parts. Decided (AreForAny tokens.now) (option_map scoped_form parts)) }
{
    match read_made(alloc, tokens)? {
        Some(made) => Ok(Some(Scoped {
            scope: ScopeExpr::Any,
            made,
        })),
        None => Ok(None),
    }
}

fn read_for_ids(alloc: Global, tokens: &[Token]) -> Result<Option<Scoped>, NoMemory>
    ensures { IfOk result (λ parts. Decided (AreForIds tokens.now) (option_map scoped_form parts)) }
{
    let Some(split) = bracketed(tokens, Bracket::Round) else {
        return Ok(None);
    };
    let Some(scope) = read_scope(alloc, split.front)? else {
        return Ok(None);
    };
    match read_made(alloc, split.behind) {
        Ok(Some(made)) => Ok(Some(Scoped { scope, made })),
        Ok(None) => {
            drop(scope);
            Ok(None)
        }
        Err(NoMemory) => {
            drop(scope);
            Err(NoMemory)
        }
    }
}

/// The ids in brackets: one, or the first and the last.
fn read_scope(alloc: Global, tokens: &[Token]) -> Result<Option<ScopeExpr>, NoMemory>
    ensures { IfOk result (λ scope. Decided (IsScope tokens.now) (option_map scope_form scope)) }
{
    let pieces = pieces_by(alloc, tokens, Divider::Colon)?;
    read_ids(alloc, &pieces)
}

fn read_ids(alloc: Global, pieces: &[&[Token]]) -> Result<Option<ScopeExpr>, NoMemory>
    ensures { IfOk result (λ scope. Decided (AreIds (map (λ piece. piece.now) pieces.now)) (option_map scope_form scope)) }
{
    match pieces {
        [id] => read_one(alloc, id),
        [first, last] => read_two(alloc, first, last),
        _ => Ok(None),
    }
}

fn read_one(alloc: Global, id: &[Token]) -> Result<Option<ScopeExpr>, NoMemory>
    ensures { IfOk result (λ scope. Decided (IsOneId id.now) (option_map scope_form scope)) }
{
    match read_constant(alloc, id)? {
        Some(id) => Ok(Some(ScopeExpr::One(id))),
        None => Ok(None),
    }
}

fn read_two(alloc: Global, first: &[Token], last: &[Token]) -> Result<Option<ScopeExpr>, NoMemory>
    ensures { IfOk result (λ scope. Decided (AreTwoIds first.now last.now) (option_map scope_form scope)) }
{
    let Some(first) = read_constant(alloc, first)? else {
        return Ok(None);
    };
    match read_constant(alloc, last) {
        Ok(Some(last)) => Ok(Some(ScopeExpr::Two(first, last))),
        Ok(None) => {
            drop(first);
            Ok(None)
        }
        Err(NoMemory) => {
            drop(first);
            Err(NoMemory)
        }
    }
}

/// What the type is: fields in braces, or what another type is.
fn read_made(alloc: Global, tokens: &[Token]) -> Result<Option<MadeExpr>, NoMemory>
    ensures { IfOk result (λ made. Decided (IsMade tokens.now) (option_map made_form made)) }
{
    if begins(tokens, Bracket::Curly) {
        read_fields(alloc, tokens)
    } else {
        read_copy(alloc, tokens)
    }
}

fn read_fields(alloc: Global, tokens: &[Token]) -> Result<Option<MadeExpr>, NoMemory>
    ensures { IfOk result (λ made. Decided (AreFieldsMade tokens.now) (option_map made_form made)) }
{
    let Some(split) = bracketed(tokens, Bracket::Curly) else {
        return Ok(None);
    };
    if !is_empty_statement(split.behind) {
        return Ok(None);
    }
    match read_body(alloc, false, split.front)? {
        Some(body) => Ok(Some(MadeExpr::Fields(body))),
        None => Ok(None),
    }
}

fn read_copy(alloc: Global, tokens: &[Token]) -> Result<Option<MadeExpr>, NoMemory>
    ensures { IfOk result (λ made. Decided (IsCopy tokens.now) (option_map made_form made)) }
{
    let Some(typed) = read_typed(tokens, Keyword::As) else {
        return Ok(None);
    };
    match read_copy_id(alloc, typed.behind)? {
        Some(id) => Ok(Some(MadeExpr::Copy(typed.kind, id))),
        None => Ok(None),
    }
}

/// Which id of the other type: none, where the `;` stands here, or the one in brackets.
fn read_copy_id(alloc: Global, tokens: &[Token]) -> Result<Option<Option<Expr>>, NoMemory>
    ensures { IfOk result (λ id. Decided (IsCopyId tokens.now) (option_map (option_map term_of) id)) }
{
    if is_empty_statement(tokens) {
        Ok(Some(None))
    } else {
        read_given_id(alloc, tokens)
    }
}

fn read_given_id(alloc: Global, tokens: &[Token]) -> Result<Option<Option<Expr>>, NoMemory>
    ensures { IfOk result (λ id. Decided (IsGivenId tokens.now) (option_map (option_map term_of) id)) }
{
    let Some(split) = bracketed(tokens, Bracket::Round) else {
        return Ok(None);
    };
    if !is_empty_statement(split.behind) {
        return Ok(None);
    }
    match read_constant(alloc, split.front)? {
        Some(id) => Ok(Some(Some(id))),
        None => Ok(None),
    }
}
