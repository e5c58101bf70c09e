//! What stands at a piece or a field: its value, the place after it, and how many values it counts or leaves.

ghost use Rattle.std.specs.Prelude.{◌≡◌};
ghost use Rattle.rz_unlay_pieces.specs.Few.{value_count};

use rz_types_fields::Tree;

/// What stands at a piece or at a field without fields within it.
#[derive(Drop)]
pub struct Came {
    /// Its value, where the row has one.
    pub value: Option<Tree>,
    /// The place after it, in bits.
    pub after: u32,
    /// How many values it counts.
    pub cost: u32,
    ghost counted: { value_count value ≡ cost },
}

/// What stands at a field.
#[derive(Drop)]
pub struct Met {
    /// Its value, where the row has one.
    pub value: Option<Tree>,
    /// The place after it, in bits.
    pub after: u32,
    /// How many values more there may be.
    pub left: u32,
}
