//! The texts of resources as a catalogue, and back: `catalogue` gives exactly an entry for each text of each tree, and
//! `apply` exactly the resources with the texts of entries in place, counts and labels solved again, or exactly the
//! first refusal. Laws, with nothing to run, say what a list becomes with its own texts put back, and with others.
//! It rests on `rz_core`, `rz_catalog_text`, `rz_expr`, `rz_types_fields`, `rz_types`, `rz_types_table`, which has the
//! declarations, `rz_layout`, which spells changed rows, and `rz_unlay`, which reads rows of bytes.
//! A new kind of value with texts in it is a case of `leaves_step` and `blank_step` in `specs/Leaves`, and one of
//! `append_value` and `put_value` here; another refusal of entries, a line of `fault_for` in `specs/Apply` and of
//! `entry_fault` here. How entries are written and read stands in `rz_catalog_text`.
#![tactic(auto)]

mod applying;
mod check;
mod held;
mod laws;
mod leaves;
mod listed;
mod put;
mod restring;
mod same;
mod stays;
mod stock;

pub use applying::apply;
pub use laws::{
    catalogues_are_stored, changed_catalogue, changed_rows_are_rows, every_application,
    every_catalogue, every_changed_row, one_application, one_catalogue, one_changed_row,
    others_stay, own_catalogue, own_texts_change_nothing,
};
pub use listed::{catalogue, entries_under};
pub use stays::{entry_faults_are_told, resources_stay};
