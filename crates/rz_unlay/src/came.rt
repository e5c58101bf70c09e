//! What the reader gives of a body and of an array. How definitions see it is in `specs/Came`.

use rz_types_fields::{Row, RowList};

/// The row of a body.
#[derive(Drop)]
pub struct RowCame {
    /// Its values.
    pub row: Row,
    /// The places of the labels that stand directly in it, in order, in bits.
    pub places: Vec<i32>,
    /// The place after it, in bits.
    pub after: u32,
    /// How many values more there may be.
    pub left: u32,
}

/// The rows of an array.
#[derive(Drop)]
pub struct RowsCame {
    /// The rows.
    pub rows: RowList,
    /// The places of the labels that stand directly in them, row by row, in bits.
    pub places: Vec<i32>,
    /// The place after them, in bits.
    pub after: u32,
    /// How many values more there may be.
    pub left: u32,
}
