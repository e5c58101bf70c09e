//! Which resources of a type are meant: all, one id or a range of ids, or a name; changes with `specs/Pick`.

ghost use Rattle.std.specs.Prelude.{◌≡◌, IfOk, map, option_map};
ghost use Rattle.rz_core.specs.Decided.{Decided};
ghost use Rattle.rz_stmt_lists.specs.Pick.{pick_of, picks_one, AreIds, IsIds, IsNamePick, IsPick, IsPicked};
ghost use Rattle.rz_stmt_lists.specs.Steps.{AreTwoIds, IsOneId};

use rz_core::NoMemory;
use rz_expr::Expr;
use rz_lex::Token;
use rz_stmt_brackets::{Divider, pieces_by};
use rz_stmt_data::{Subject, begins_text, read_said, text_at};
use rz_types_fields::{TextPlace, Texts};
use std::alloc::Global;

/// Which resources of a type are meant. (MPW Rez.)
#[derive(Drop)]
pub enum PickExpr {
    /// All of them.
    All,
    /// The one with this id.
    Id(Expr),
    /// Those from the first id to the last.
    Range(Expr, Expr),
    /// The one with this name.
    Name(Texts),
}

impl PickExpr {
    /// Whether one resource at most is meant.
    pub fn is_one(&self) -> bool
        ensures { result ≡ picks_one (pick_of self.now) }
    {
        match self {
            PickExpr::Id(_) | PickExpr::Name(_) => true,
            PickExpr::All | PickExpr::Range(..) => false,
        }
    }
}

/// The pick that stands in brackets, or all where there are none.
pub fn read_picked(alloc: Global, inside: Option<&[Token]>) -> Result<Option<PickExpr>, NoMemory>
    ensures { IfOk result (λ pick. Decided (IsPicked (option_map (λ inside. inside.now) inside.entry)) (option_map pick_of pick)) }
{
    match inside {
        Some(tokens) => read_pick(alloc, tokens),
        None => Ok(Some(PickExpr::All)),
    }
}

/// The name that the tokens are, where a text begins there, or else the ids.
fn read_pick(alloc: Global, tokens: &[Token]) -> Result<Option<PickExpr>, NoMemory>
    ensures { IfOk result (λ pick. Decided (IsPick tokens.now) (option_map pick_of pick)) }
{
    if begins_text(tokens) {
        read_name(alloc, tokens)
    } else {
        read_ids(alloc, tokens)
    }
}

/// The name that the tokens are.
fn read_name(alloc: Global, tokens: &[Token]) -> Result<Option<PickExpr>, NoMemory>
    ensures { IfOk result (λ pick. Decided (IsNamePick tokens.now) (option_map pick_of pick)) }
{
    match text_at(alloc, TextPlace::New, tokens)? {
        Some(name) => Ok(Some(PickExpr::Name(name))),
        None => Ok(None),
    }
}

fn read_ids(alloc: Global, tokens: &[Token]) -> Result<Option<PickExpr>, NoMemory>
    ensures { IfOk result (λ pick. Decided (IsIds tokens.now) (option_map pick_of pick)) }
{
    let pieces = pieces_by(alloc, tokens, Divider::Colon)?;
    read_each(alloc, &pieces)
}

/// One id, or the first and the last.
fn read_each(alloc: Global, pieces: &[&[Token]]) -> Result<Option<PickExpr>, NoMemory>
    ensures { IfOk result (λ pick. Decided (AreIds (map (λ piece. piece.now) pieces.now)) (option_map pick_of pick)) }
{
    match pieces {
        [id] => read_one(alloc, id),
        [first, last] => read_two(alloc, first, last),
        _ => Ok(None),
    }
}

fn read_one(alloc: Global, id: &[Token]) -> Result<Option<PickExpr>, NoMemory>
    ensures { IfOk result (λ pick. Decided (IsOneId id.now) (option_map pick_of pick)) }
{
    match read_said(alloc, Subject::New, id)? {
        Some(id) => Ok(Some(PickExpr::Id(id))),
        None => Ok(None),
    }
}

fn read_two(alloc: Global, first: &[Token], last: &[Token]) -> Result<Option<PickExpr>, NoMemory>
    ensures { IfOk result (λ pick. Decided (AreTwoIds first.now last.now) (option_map pick_of pick)) }
{
    let Some(first) = read_said(alloc, Subject::New, first)? else {
        return Ok(None);
    };
    match read_said(alloc, Subject::New, last) {
        Ok(Some(last)) => Ok(Some(PickExpr::Range(first, last))),
        Ok(None) => {
            drop(first);
            Ok(None)
        }
        Err(NoMemory) => {
            drop(first);
            Err(NoMemory)
        }
    }
}
