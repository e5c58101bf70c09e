//! The `data` statement: a frame, and the text that is its bytes; changes with `specs/Raw`.

ghost use Rattle.std.specs.Prelude.{◌≡◌, IfOk, map, option_map};
ghost use Rattle.rz_types_fields.specs.Text.{plain_parts};
ghost use Rattle.rz_core.specs.Decided.{Decided};
ghost use Rattle.rz_stmt_data.specs.Raw.{raw_of, AreTexts, IsInside, IsMaybeText, IsRaw};

use crate::frame::{Framed, read_frame};
use crate::head::HeadExpr;
use crate::texts::text_at;
use rz_core::{NoMemory, OsType};
use rz_expr::Keyword;
use rz_lex::Token;
use rz_stmt_brackets::{Divider, pieces_by};
use rz_types_fields::{TextPlace, Texts};
use std::alloc::Global;

/// A `data` statement. (MPW Rez.)
#[derive(Drop)]
pub struct DataStmt {
    /// The type.
    pub kind: OsType,
    /// The head.
    pub head: HeadExpr,
    /// The bytes, as texts.
    pub texts: Texts,
}

/// The `data` statement that the tokens are, where they are one. Reading goes as deep as brackets are open: callers
/// bound the tokens that they hand in. (MPW Rez.)
pub fn read_raw(alloc: Global, tokens: &[Token]) -> Result<Option<DataStmt>, NoMemory>
    ensures { IfOk result (λ raw. Decided (IsRaw tokens.now) (option_map raw_of raw)) }
{
    let Some(framed) = read_frame(alloc, Keyword::Data, tokens)? else {
        return Ok(None);
    };
    let Framed { kind, head, inside } = framed;
    match read_inside(alloc, inside) {
        Ok(Some(texts)) => Ok(Some(DataStmt { kind, head, texts })),
        Ok(None) => {
            drop(head);
            Ok(None)
        }
        Err(NoMemory) => {
            drop(head);
            Err(NoMemory)
        }
    }
}

/// The texts that stand in braces, maybe with a `;` after them.
fn read_inside(alloc: Global, tokens: &[Token]) -> Result<Option<Texts>, NoMemory>
    ensures { IfOk result (λ texts. Decided (IsInside tokens.now) (option_map plain_parts texts)) }
{
    let pieces = pieces_by(alloc, tokens, Divider::Semicolon)?;
    read_texts(alloc, &pieces)
}

/// The texts that the first piece is, where no piece but an empty one stands after it.
fn read_texts(alloc: Global, pieces: &[&[Token]]) -> Result<Option<Texts>, NoMemory>
    ensures { IfOk result (λ texts. Decided (AreTexts (map (λ piece. piece.now) pieces.now)) (option_map plain_parts texts)) }
{
    match pieces {
        [piece] => read_maybe(alloc, piece),
        [piece, end] => {
            if end.is_empty() {
                read_maybe(alloc, piece)
            } else {
                Ok(None)
            }
        }
        _ => Ok(None),
    }
}

/// A text, or nothing.
fn read_maybe(alloc: Global, tokens: &[Token]) -> Result<Option<Texts>, NoMemory>
    ensures { IfOk result (λ texts. Decided (IsMaybeText tokens.now) (option_map plain_parts texts)) }
{
    if tokens.is_empty() {
        Ok(Some(Texts::new(alloc)))
    } else {
        text_at(alloc, TextPlace::Data, tokens)
    }
}
