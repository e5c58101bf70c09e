//! The table of type declarations: it gives exactly the declaration that counts for an id, and a declaration of the same
//! type and scope takes the place of the one before.
//! It rests on `rz_core`, `rz_types_fields` and `rz_types`.
//! Another scope, or another order of which counts, changes `Scope`, `find` and `specs/Table`, with `specs/Scopes` for the
//! laws. How a scope is written stands in `rz_stmt_type`, and what a statement declares in `rz_tools_work`.
//!
//! Choices, and why:
//! - The table is a list of slots with the places of each type beside it, by id, so that finding looks at the
//!   declaration for this very id and goes over those of the type for ranges and for any id alone. A declaration that
//!   is taken out leaves an empty slot, so no other one moves, and a program that declares n types a second time, or
//!   one type for n ids, takes work in proportion.
#![tactic(auto)]

mod find;
mod laws;
mod positions;
mod table;

pub use laws::{
    last_declared_is_found, order_stays, others_are_found_as_before, places_stay_different,
};
pub use table::{Scope, TypeTable};
