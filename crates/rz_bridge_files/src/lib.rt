//! Files of the Macintosh, in whichever form they are kept: which form bytes have, one reader and one writer over all
//! forms, and the name of the data file beside a header file of AppleDouble; what a file of whatever form holds, with
//! its resource fork, the name that it takes from a path, and what is written of it, with faults as messages name them.
//! The form is exactly what the first bytes say; what is read and written is exactly what the form's own reader and
//! writer promise.
//! It rests on `rz_core`, `rz_folder`, `rz_fork`, `rz_pre_source`, `rz_bridge` and `rz_hqx`.
//! What the forms are stands in `specs/Forms`; a new form is a variant of `Form`, and a line in each function of `form`
//! and `form_content`. The bytes of forms and forks stand in the crates below; a new fault of theirs is a number of the
//! table in `rz_core`.
#![tactic(auto)]

mod content;
mod data_file;
mod fault;
mod form;
mod form_content;
mod form_laws;
mod laws;
mod name;
mod write;

pub use content::{admit_fork, file_in};
pub use data_file::{data_file_name, last_name};
pub use fault::{fork_fault, form_fault};
pub use form::{Form, form_of};
pub use form_content::{read_form, write_form};
pub use form_laws::{
    every_header_has_a_data_file, every_path_is_parted, one_data_file, one_parting,
    written_forms_are_found,
};
pub use laws::{every_file_is_named, forks_are_found_raw, one_named_file, one_taken_name};
pub use name::{named, taken_name};
pub use write::write_as;
