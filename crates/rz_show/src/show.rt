//! Statements as one text.
#![tactic(auto, using(crate::proofs::Heads::lines_are))]

ghost use Rattle.std.specs.Prelude.{◌≡◌, true, IfOk};
ghost use Rattle.std.specs.List.{concat};
ghost use Rattle.rz_show.specs.Hidden.{hides};
ghost use Rattle.rz_show.specs.Statement.{data_lines, row_lines};
ghost use Rattle.rz_show_lines.specs.Written.{lines_text};
ghost use Rattle.rz_types.specs.Field.{plain_body};
ghost use Rattle.rz_types.specs.Rules.{keeps_rules};
ghost use Rattle.rz_types.specs.Shape.{is_well_shaped};
ghost use Rattle.rz_types_fields.specs.Row.{IsRow};

use crate::Hidden;
use crate::lines::ShowLines;
use rz_core::{Bytes, Facts, NoMemory};
use rz_show_lines::Line;
use rz_types::Field;
use rz_types_fields::Tree;
use std::alloc::Global;

/// The `data` statement of a resource with these facts and these bytes, as `ShowLines::of_bytes` gives its lines:
/// `NoMemory` is the only refusal. (The text is that of MPW DeRez.)
pub fn show_bytes(alloc: Global, facts: &Facts, bytes: &[u8]) -> Result<Bytes, NoMemory>
    ensures { IfOk result (λ text. text ≡ lines_text (data_lines facts.now bytes.now)) }
{
    let text = text_of(alloc, ShowLines::of_bytes(facts, bytes))?;
    Ok(text)
}

/// The `resource` statement of a resource with these facts, which is such a row of these fields, as `ShowLines::of_tree`
/// gives its lines: `NoMemory` is the only refusal. (The text is that of MPW DeRez.)
pub fn show_row(
    alloc: Global,
    facts: &Facts,
    fields: &[Field],
    row: &[Tree],
    hidden: &Hidden,
) -> Result<Bytes, NoMemory>
    requires shaped { is_well_shaped (plain_body fields.now) ≡ true }
    requires kept { keeps_rules (plain_body fields.now) ≡ true }
    requires is { IsRow (plain_body fields.now) row.now }
    ensures { IfOk result (λ text. text ≡ lines_text (row_lines (hides hidden.now) facts.now (plain_body fields.now) row.now)) }
{
    let text = text_of(alloc, ShowLines::of_tree(facts, fields, row, hidden))?;
    Ok(text)
}

/// All lines that are still to come, one after the other.
fn text_of(alloc: Global, lines: ShowLines<'_>) -> Result<Bytes, NoMemory>
    ensures { IfOk result (λ text. text ≡ concat lines.entry) }
{
    let mut lines = lines;
    let mut text = Bytes::new(alloc);
    let mut line = Line::new();
    'lines: while let Some(()) = lines.next(&mut line) {
        text.append(line.as_slice())?;
    }
    Ok(text)
}
