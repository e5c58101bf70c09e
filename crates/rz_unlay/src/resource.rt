//! The row that the bytes of a resource tell, or that there is none. It is defined in `specs/Reading`.

ghost use Rattle.std.specs.Prelude.{◌≡◌, false, IfOk, IfSome, List, Some};
ghost use Rattle.rz_core.specs.Decided.{Decided};
ghost use Rattle.rz_types_fields.specs.declared.tree.Tree.{Tree};
ghost use Rattle.rz_types_fields.specs.Row.{IsRow};
ghost use Rattle.rz_types_fields.specs.Spells.{Spells};
ghost use Rattle.rz_types.specs.Template.{template_of};
ghost use Rattle.rz_unlay.specs.Reading.{row_in, IsTold};

use crate::found::plain_rows_are_read;
use crate::row::read_row;
use crate::spelled::{
    plain_rows_are_spelled, read_rows_are_plain, spelled_bytes_are_few, spelled_rows_are_rows,
};
use rz_core::{Facts, NoMemory};
use rz_types::{Template, is_readable};
use rz_types_fields::Row;
use std::alloc::Global;

/// The most bytes of a resource.
const MOST_BYTES: usize = 16_777_212;

/// What the bytes of a resource tell.
#[derive(Drop)]
pub enum Reading {
    /// The one row that spells them plainly.
    Tree(Row),
    /// There is no such row, or the declaration can't be read.
    NoTree,
}

/// The row that the bytes of a resource tell, of which so much is known, under the fields of a template that can be read
/// ([`is_readable`]): the one that spells them plainly. `NoTree` comes exactly where there is no such row, or the template
/// can't be read.
///
/// A row is plain where its bytes tell it again: each number with a fixed value solves to the counts of arrays and the places
/// of labels that it tells, a `cstring` has no zero byte, a text with a size is no longer than the size leaves, a `string` with a size doesn't
/// end in a zero byte, filler and the fewer than eight bits after the last field are zero, and it has at most 1,048,576
/// numbers, texts and rows of arrays, where a point counts as two numbers and a rectangle as four.
///
/// A row spells at most 16,777,212 bytes, so of more `NoTree` comes at once. Time and memory grow with what
/// is read of them: for each row with the fields of its array, and with the square of the operators in an expression
/// that tells a name. A case is looked up by its key; all cases of a switch are gone through once where no key stands
/// there, which ends the reading. A name is found in constant time on average, one with an index among the arrays of its
/// row and of the bodies around, and one without a value through the fields ahead, up to its label; an open text or array
/// looks through the fields after it for a label whose place is told. The places of labels in rows take 4 bytes for each
/// in each row, until the body of their array ends. (MPW Rez.)
pub fn read(
    alloc: Global,
    template: &Template,
    bytes: &[u8],
    facts: &Facts,
) -> Result<Reading, NoMemory>
    ensures told { IfOk result (λ reading. Decided (IsTold facts.now (template_of template.now) bytes.now) (row_in reading)) }
    ensures every { (row : List Tree) → IsTold facts.now (template_of template.now) bytes.now row → IfOk result (λ reading. row_in reading ≡ Some row) }
    ensures row { IfOk result (λ reading. IfSome (row_in reading) (IsRow (template_of template.now))) }
    ensures spelled { IfOk result (λ reading. IfSome (row_in reading) (λ row. Spells facts.now (template_of template.now) row bytes.now)) }
{
    plain_rows_are_read();
    read_rows_are_plain();
    plain_rows_are_spelled();
    spelled_rows_are_rows();
    spelled_bytes_are_few();
    if bytes.len() > MOST_BYTES {
        return Ok(Reading::NoTree);
    }
    if !is_readable(template) {
        return Ok(Reading::NoTree);
    }
    match read_row(alloc, template.body(), bytes, facts)? {
        Some(row) => Ok(Reading::Tree(row)),
        None => Ok(Reading::NoTree),
    }
}
