//! The resources that statements give: that of a `data` statement, and that of a `resource` statement, whose bytes are
//! those of the row that its items fit under the fields of its type. Each is exactly its definition, or the first
//! fault; no file changes.
//! It rests on `rz_core`, `rz_folder`, `rz_types_fields`, `rz_types`, `rz_types_table`, `rz_stmt_data`,
//! `rz_stmt_items`, `rz_layout` and `rz_tools_values`.
//! Items that name no file are given on as they are. `step` of `rz_tools` calls it. A new fault of a row is a case of
//! `row_fault`; a new form of an item one of `items`.
#![tactic(auto)]

mod items;
mod laws;
mod named;
mod raw;
mod resource;

pub use laws::fileless_items_stay;
pub use raw::resource_of;
pub use resource::resource_of_items;
