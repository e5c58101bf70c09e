//! Rows that are compared, value for value.

ghost use Rattle.std.specs.Prelude.{◌≡◌, ◌↔◌, IsTrue};

use rz_core::Word;
use rz_types_fields::{Row, RowList, Tree};

/// Whether two rows are the same.
#[cycle(same)]
#[tactic(auto, using(crate::proofs::Fronts::front_more))]
pub fn same_row(one: &Row, other: &Row) -> bool
    ensures { IsTrue result ↔ (one.now ≡ other.now) }
{
    if one.len() != other.len() {
        return false;
    }
    let mut k = 0;
    while k < one.len() {
        if !same_value(one.at(k), other.at(k)) {
            return false;
        }
        k += 1;
    }
    true
}

/// Whether two values are the same.
#[cycle(same)]
fn same_value(one: &Tree, other: &Tree) -> bool
    ensures { IsTrue result ↔ (one.now ≡ other.now) }
{
    match (one, other) {
        (Tree::Number(a), Tree::Number(b)) => *a == *b,
        (Tree::Text(a), Tree::Text(b)) => a.as_slice() == b.as_slice(),
        (Tree::Group(a), Tree::Group(b)) => a.as_slice() == b.as_slice(),
        (Tree::Rows(a), Tree::Rows(b)) => same_rows(a, b),
        (Tree::Choice(a, x), Tree::Choice(b, y)) => { same_word(a, b) && same_row(x, y) }
        _ => false,
    }
}

/// Whether two lists of rows are the same.
#[cycle(same)]
#[tactic(auto, using(crate::proofs::Fronts::front_more))]
fn same_rows(one: &RowList, other: &RowList) -> bool
    ensures { IsTrue result ↔ (one.now ≡ other.now) }
{
    if one.len() != other.len() {
        return false;
    }
    let mut k = 0;
    while k < one.len() {
        if !same_row(one.at(k), other.at(k)) {
            return false;
        }
        k += 1;
    }
    true
}

/// Whether two words are the same, letter for letter.
fn same_word(one: &Word, other: &Word) -> bool
    ensures { IsTrue result ↔ (one.now ≡ other.now) }
{
    one.bytes.as_slice() == other.bytes.as_slice()
}
