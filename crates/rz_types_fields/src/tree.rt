//! The values of a row, as trees: numbers, texts, rows of arrays and cases of switches.

use rz_core::{Bytes, Listing, Word};

/// A value of a row. (MPW Rez.)
#[derive(Drop)]
pub enum Tree {
    /// A number, from 0 to below 2 to the power of the width of its field in bits.
    Number(u32),
    /// The bytes of a text, before they are cut or filled to a size.
    Text(Bytes),
    /// The numbers of a point or a rectangle, two or four.
    Group(Numbers),
    /// The rows of an array.
    Rows(RowList),
    /// The case of a switch, by its name as it is declared, and the values of its fields.
    Choice(Word, Row),
}

/// Numbers of 16 bits.
pub type Numbers = Listing<u16>;

/// The values that a resource gives to the fields of its type, in order: one for each field that has none of its
/// own.
pub type Row = Listing<Tree>;

/// The rows of an array, in order.
pub type RowList = Listing<Row>;
