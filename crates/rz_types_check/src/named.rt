//! Labels and arrays that expressions name and that aren't known there. They are defined in `specs/Rules` of `rz_types`.

ghost use Rattle.std.specs.Prelude.{◌≡◌, not, IfOk, map, option_map};
ghost use Rattle.rz_core.specs.Lists.{first_of};
ghost use Rattle.rz_expr.specs.Term.{term_of};
ghost use Rattle.rz_types_fields.specs.Field.{plain_field};
ghost use Rattle.rz_types.specs.Rules.{is_named_there, unknown_in, unknown_name};
ghost use Rattle.rz_types_check.specs.Walked.{own_of};

use crate::names::Names;
use rz_core::{NoMemory, Word};
use rz_expr::{Expr, Mention, MentionTest, first_mention, predefined};
use rz_types_fields::{Field, expressions_of};
use std::alloc::Global;

/// The first label, label in rows, array or array around that a field names and that isn't one of these.
pub fn unknown_in<'a>(
    alloc: Global,
    scope: &Names<'_>,
    field: &'a Field,
) -> Result<Option<&'a Word>, NoMemory>
    ensures { IfOk result (λ name. option_map (λ name. name.now.bytes) name ≡ unknown_in (own_of scope.now) (plain_field field.now)) }
{
    let exprs = expressions_of(alloc, field)?;
    Ok(first_unknown(scope, &exprs))
}

/// The first label or array that one of these expressions names and that isn't one of these.
fn first_unknown<'a>(scope: &Names<'_>, exprs: &[&'a Expr]) -> Option<&'a Word>
    ensures { option_map (λ name. name.now.bytes) result
        ≡ first_of (map (unknown_name (own_of scope.now)) (map (λ expr. term_of expr.now) exprs.now)) }
{
    for expr in exprs {
        if let Some(name) = unknown_name(scope, *expr) {
            return Some(name);
        }
    }
    None
}

/// What isn't one of these.
#[derive(Clone, Copy)]
struct Unnamed<'a> {
    scope: &'a Names<'a>,
}

impl MentionTest for Unnamed<'_> {
    ghost test = { λ test mention. not (is_named_there (own_of test.scope.now) mention) };

    fn passes(&self, mention: Mention<'_>) -> bool {
        match mention {
            Mention::Alone(name) => predefined(name).is_none() && !self.scope.labels.has(name),
            Mention::Indexed(name) => !self.scope.indexed.has(name),
            Mention::Counted(name) => !self.scope.arrays.has(name),
            Mention::Around(name) => !self.scope.around.has(name),
            Mention::WithBits(name) => !self.scope.labels.has(name),
            Mention::Fact(_) => false,
        }
    }
}

/// The first label or array that an expression names and that isn't one of these.
fn unknown_name<'a>(scope: &Names<'_>, expr: &'a Expr) -> Option<&'a Word>
    ensures { option_map (λ name. name.now.bytes) result ≡ unknown_name (own_of scope.now) (term_of expr.now) }
{
    match first_mention(expr, &Unnamed { scope }) {
        Some(mention) => mention.name(),
        None => None,
    }
}
