//! The leaves of rows. See `specs/Leaves`.

ghost use Rattle.std.specs.Prelude.{◌≡◌, ◌++◌, IfOk, OnOk};
ghost use Rattle.rz_catalog.specs.Leaves.{leaves, leaves_of};
ghost use Rattle.rz_catalog.specs.Put.{row_leaves};

use rz_core::{Bytes, Listing, NoMemory};
use rz_types_fields::{Row, RowList, Tree};
use std::alloc::Global;

/// The texts of a row, depth first.
pub fn texts_of(alloc: Global, row: &Row) -> Result<Listing<Bytes>, NoMemory>
    ensures { IfOk result (λ texts. texts ≡ leaves row.now) }
{
    let mut texts = Listing::new(alloc);
    append_leaves(row, &mut texts)?;
    Ok(texts)
}

/// Appends the texts of a row, depth first.
#[cycle(leaves)]
fn append_leaves(row: &Row, into: &mut Listing<Bytes>) -> Result<(), NoMemory>
    ensures { OnOk result (into.new ≡ into.old ++ leaves row.now) }
{
    for value in row.as_slice() {
        append_value(value, into)?;
    }
    Ok(())
}

#[cycle(leaves)]
#[tactic(auto, using(crate::proofs::Trees::rows_leaves, crate::proofs::Trees::choice_leaves))]
fn append_value(value: &Tree, into: &mut Listing<Bytes>) -> Result<(), NoMemory>
    ensures { OnOk result (into.new ≡ into.old ++ leaves_of value.now) }
{
    match value {
        Tree::Text(bytes) => {
            let copy = Bytes::of(bytes.allocator(), bytes.as_slice())?;
            into.push(copy)
        }
        Tree::Rows(rows) => append_rows(rows, into),
        Tree::Choice(_, row) => append_leaves(row, into),
        _ => Ok(()),
    }
}

#[cycle(leaves)]
#[tactic(auto, using(crate::proofs::Trees::rows_more))]
fn append_rows(rows: &RowList, into: &mut Listing<Bytes>) -> Result<(), NoMemory>
    ensures { OnOk result (into.new ≡ into.old ++ row_leaves rows.now) }
{
    let mut k = 0;
    while k < rows.len() {
        append_leaves(rows.at(k), into)?;
        k += 1;
    }
    Ok(())
}
