//! Labels in front of fields; changes with `specs/Label`.

ghost use Rattle.std.specs.Prelude.{◌≡◌, ◌++◌, IfOk, List, map, option_map};
ghost use Rattle.std.specs.Option.{option_copied};
ghost use Rattle.rz_core.specs.declared.resource.Word.{Word};
ghost use Rattle.rz_stmt_fields.specs.Form.{field_form, Label};
ghost use Rattle.rz_stmt_type.specs.Held.{held_label};
ghost use Rattle.rz_stmt_type.specs.Label.{label_front, label_in, AreLabels};

use crate::head::is_colon;
use rz_core::{NoMemory, Word};
use rz_expr::role_of;
use rz_lex::{Shape, Token};
use rz_stmt_fields::{FieldExpr, FieldExprs};
use std::alloc::Global;

/// A label: its name, and what stands after its `:`.
#[derive(Drop)]
pub struct LabelFront<'a> {
    /// The name.
    pub name: &'a Word,
    /// What stands after.
    pub behind: &'a [Token],
}

/// Pushes the labels that stand at the front, and gives what stands after them.
pub fn read_labels<'a>(
    alloc: Global,
    tokens: &'a [Token],
    body: &mut FieldExprs,
) -> Result<&'a [Token], NoMemory>
    ensures { IfOk result (λ behind. (names : List Word) × AreLabels tokens.now names behind.now × (map field_form body.new ≡ map field_form body.old ++ map Label names)) }
{
    let mut rest = tokens;
    while let Some(front) = label_front(rest) {
        body.push(FieldExpr::Label(front.name.copy(alloc)?))?;
        rest = front.behind;
    }
    Ok(rest)
}

/// The label at the front.
fn label_front(tokens: &[Token]) -> Option<LabelFront<'_>>
    ensures { option_map held_label result ≡ label_front tokens.now }
{
    let [first, second, behind @ ..] = tokens else {
        return None;
    };
    if !is_colon(second) {
        return None;
    }
    match label_in(first) {
        Some(name) => Some(LabelFront { name, behind }),
        None => None,
    }
}

/// The name of a label that a token is.
fn label_in(token: &Token) -> Option<&Word>
    ensures { option_copied result ≡ label_in token.now.shape }
{
    match &token.shape {
        Shape::Word(word) if role_of(word).is_label() => Some(word),
        _ => None,
    }
}
