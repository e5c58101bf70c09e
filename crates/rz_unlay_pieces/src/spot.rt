//! Where a field is read.

use rz_bits::BitView;
use rz_core::Facts;
use rz_types_fields::Field;

/// Where a field is read: what stays the same for all of its pieces.
#[derive(Clone, Copy)]
pub struct Spot<'r> {
    /// The bits of the resource.
    pub view: &'r BitView<'r>,
    /// What is known of the resource.
    pub facts: &'r Facts,
    /// The field and those after it in its body.
    pub fields: &'r [Field],
    /// The fields after it in its body.
    pub rest: &'r [Field],
    /// Its place, in bits.
    pub first: u32,
}
