//! Rows with other texts in the places of their leaves. See `specs/Leaves`.

ghost use Rattle.std.specs.Prelude.{◌≡◌, ◌≤◌, ◌++◌, length, IfOk};
ghost use Rattle.rz_catalog.specs.Leaves.{blank, blank_of, leaves, leaves_of};
ghost use Rattle.rz_catalog.specs.Put.{blank_rows, row_leaves, IsAText, IsFirst};

use rz_core::{Bytes, NoMemory};
use rz_types_fields::{Numbers, Row, RowList, Tree};
use std::alloc::Global;

/// A row with its texts put in place, and the texts that are left.
#[derive(Drop)]
pub struct PutRow<'a> {
    /// The row.
    pub row: Row,
    /// The texts that are left.
    pub rest: &'a [Bytes],
}

/// Rows with their texts put in place, and the texts that are left.
#[derive(Drop)]
pub struct PutRows<'a> {
    /// The rows.
    pub rows: RowList,
    /// The texts that are left.
    pub rest: &'a [Bytes],
}

/// A value with its texts put in place, and the texts that are left.
#[derive(Drop)]
pub struct PutValue<'a> {
    /// The value.
    pub value: Tree,
    /// The texts that are left.
    pub rest: &'a [Bytes],
}

/// A copy of a row with other texts in place of its own, in order, as far as there are any.
#[cycle(put)]
#[tactic(auto, using(crate::proofs::Places::left, crate::proofs::Places::counted, crate::proofs::Places::split, crate::proofs::Places::mapped))]
pub fn put_row<'a>(alloc: Global, row: &Row, texts: &'a [Bytes]) -> Result<PutRow<'a>, NoMemory>
    ensures same { IfOk result (λ put. blank put.row ≡ blank row.now) }
    ensures count { IfOk result (λ put. length (leaves put.row) ≡ length (leaves row.now)) }
    ensures texts { length (leaves row.now) ≤ length texts.now → IfOk result (λ put. leaves put.row ++ put.rest.now ≡ texts.now) }
{
    let mut copy = Row::new(alloc);
    let mut rest = texts;
    let mut k = 0;
    while k < row.len() {
        let put = put_value(alloc, row.at(k), rest)?;
        copy.push(put.value)?;
        rest = put.rest;
        k += 1;
    }
    Ok(PutRow { row: copy, rest })
}

#[cycle(put)]
#[tactic(auto, using(crate::proofs::Trees::rows_leaves, crate::proofs::Trees::choice_leaves, crate::proofs::Places::rows_blank, crate::proofs::Places::choice_blank))]
fn put_value<'a>(alloc: Global, value: &Tree, texts: &'a [Bytes]) -> Result<PutValue<'a>, NoMemory>
    ensures same { IfOk result (λ put. blank_of put.value ≡ blank_of value.now) }
    ensures count { IfOk result (λ put. length (leaves_of put.value) ≡ length (leaves_of value.now)) }
    ensures texts { length (leaves_of value.now) ≤ length texts.now → IfOk result (λ put. leaves_of put.value ++ put.rest.now ≡ texts.now) }
{
    match value {
        Tree::Number(number) => Ok(PutValue {
            value: Tree::Number(*number),
            rest: texts,
        }),
        Tree::Text(old) => put_text(alloc, old, texts),
        Tree::Group(numbers) => {
            let mut copy = Numbers::new(alloc);
            for number in numbers.as_slice() {
                copy.push(*number)?;
            }
            Ok(PutValue {
                value: Tree::Group(copy),
                rest: texts,
            })
        }
        Tree::Rows(rows) => {
            let put = put_rows(alloc, rows, texts)?;
            Ok(PutValue {
                value: Tree::Rows(put.rows),
                rest: put.rest,
            })
        }
        Tree::Choice(name, row) => {
            let name = name.copy(alloc)?;
            let put = put_row(alloc, row, texts)?;
            Ok(PutValue {
                value: Tree::Choice(name, put.row),
                rest: put.rest,
            })
        }
    }
}

/// The first text as a value, or the old one where there is none.
fn put_text<'a>(alloc: Global, old: &Bytes, texts: &'a [Bytes]) -> Result<PutValue<'a>, NoMemory>
    ensures text { IfOk result (λ put. IsAText put.value) }
    ensures first { 1 ≤ length texts.now → IfOk result (λ put. IsFirst put.value texts.now put.rest.now) }
{
    match texts.split_first() {
        Some((first, rest)) => Ok(PutValue {
            value: Tree::Text(Bytes::of(alloc, first.as_slice())?),
            rest,
        }),
        None => Ok(PutValue {
            value: Tree::Text(Bytes::of(alloc, old.as_slice())?),
            rest: texts,
        }),
    }
}

#[cycle(put)]
#[tactic(auto, using(crate::proofs::Places::left, crate::proofs::Places::counted, crate::proofs::Places::split, crate::proofs::Places::mapped))]
fn put_rows<'a>(alloc: Global, rows: &RowList, texts: &'a [Bytes]) -> Result<PutRows<'a>, NoMemory>
    ensures same { IfOk result (λ put. blank_rows put.rows ≡ blank_rows rows.now) }
    ensures count { IfOk result (λ put. length (row_leaves put.rows) ≡ length (row_leaves rows.now)) }
    ensures texts { length (row_leaves rows.now) ≤ length texts.now → IfOk result (λ put. row_leaves put.rows ++ put.rest.now ≡ texts.now) }
{
    let mut copies = RowList::new(alloc);
    let mut rest = texts;
    let mut k = 0;
    while k < rows.len() {
        let put = put_row(alloc, rows.at(k), rest)?;
        copies.push(put.row)?;
        rest = put.rest;
        k += 1;
    }
    Ok(PutRows { rows: copies, rest })
}
