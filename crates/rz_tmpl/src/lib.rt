//! 'TMPL' resources, which ResEdit keeps as templates of other types: lists of entries, each a label and a code of four
//! bytes. `entries` gives the entries of such bytes, which are cut in one way alone, and `template_of` the template
//! that they are, or exactly their first fault. Which entries there are stands in `specs/Entry`, and which fields they
//! are in `specs/Body`.
//! It rests on `rz_core`, `rz_lex`, `rz_words`, `rz_expr`, `rz_types_fields` and `rz_types`, and on `arrayvec` for the
//! lists that are open.
//! A new code is a row of `specs/Entry` and of `entry`, and changes `field_of` in `specs/Body` and `field`, and
//! `specs/Closed` and `closing`; a new fault changes `specs/Cut`, `specs/Faults` and `bodies`.
#![tactic(auto)]

mod bodies;
mod closing;
mod entry;
mod entry_laws;
mod fault;
mod field;
mod laws;
mod parts;
mod read;
mod template;

pub use entry::{CountForm, Entry, ListForm, Plain, Size};
pub use entry_laws::{every_tmpl_is_cut, one_cut, tmpl_faults_are_sayable};
pub use fault::TmplFault;
pub use laws::{
    closed_templates_are_readable, every_tmpl_has_a_body, one_body, tmpl_bodies_are_templates,
    tmpl_types_are_templates,
};
pub use read::{Entries, entries};
pub use template::template_of;
