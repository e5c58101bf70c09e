//! Laws of what lies below the commands, a module for the laws of each crate or two, alone and with nothing to run;
//! what they are about doesn't stand on them. `fork`: an admitted fork has its resources type by type, and the fork of
//! a list is that of the list as it is admitted again. `forms`: what is written in a form is read as what the form
//! carries. `layout`: where compiling refuses a row: its pieces in one list, and the first that isn't laid, or else the
//! first late number that has no bits; that one has no value in range, and all pieces before it stand. `unlay`: the
//! bytes of a resource tell a row under a template that can be read exactly if the row compiles to these bytes and is
//! plain. `catalog`: two catalogues for different resources put in place one after the other, and entries in another
//! order. `catalog_fork`: the fork that is written of the changed resources is admitted as these, and has the old
//! catalogue with the new texts.
//! It rests on the crates whose words it speaks: `rz_core`, `rz_fork`, `rz_bridge`, `rz_hqx`, `rz_bridge_files`,
//! `rz_bits`, `rz_expr`, `rz_types_fields`, `rz_types`, `rz_layout`, `rz_words`, `rz_unlay`, `rz_types_table`,
//! `rz_catalog_text` and `rz_catalog`.
//! A new kind of field is one more case of `flat_field` (`specs/Flat`), and a new kind of piece one more of where a
//! piece is refused (`proofs/Where`).
#![tactic(auto)]

mod catalog;
mod catalog_fork;
mod fork;
mod forms;
mod layout;
mod unlay;

pub use catalog::{apart_catalogues_are_both_at_once, order_plays_no_part};
pub use catalog_fork::changed_forks_have_the_texts;
pub use fork::{
    admitted_lists_are_grouped, grouping_changes_no_fork, written_forks_are_bytes,
    written_forks_are_of_their_lists,
};
pub use forms::{read_files_are_kept, read_forks_need_no_data_file, written_forms_are_read};
pub use layout::{late_numbers_have_no_value, refused_at};
pub use unlay::{
    laid_rows_are_shown_what_is_finished, rows_and_bytes_are_inverse, rows_are_placed_pieces,
};
