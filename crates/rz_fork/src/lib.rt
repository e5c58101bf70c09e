//! Resource forks of the classic Macintosh: a list of resources as the bytes of a fork, and back. `write_fork`
//! gives exactly the one image of a list, or the first limit that it passes; `ForkView::admit` gives exactly what the
//! bytes hold, or the first rule that they break; and an image is read as its list, grouped by type. What is read
//! is lent from the bytes: a view and a walk over it take no memory, and only `copy_all` copies.
//! It rests on `rz_core`, `bitflags`, `indexmap` and `thiserror`.
//! What a fork is stands in `specs` and in docs/FORMATS.md, which change together.
//!
//! Choices, and why:
//! - A fork is read in place. A walk visits all resources in time that is linear in types and references; the
//!   resource at a position is looked for among the types before it.
//! - Admission looks back over nothing. Codes of types are sorted, and compared one by one only where two are equal,
//!   to name the first that stands twice. Ids are marked in a table of all 65,536, and each type's marks are cleared
//!   after it. Both tables are on the stack.
#![tactic(auto)]

mod admit;
mod fault;
mod group;
mod laws;
mod layout;
mod limit;
mod map_attributes;
mod numbers;
mod parts;
mod read;
mod repeats;
mod rules;
mod view;
mod write;

pub use admit::{entry_of, reference_of};
pub use fault::{ForkFault, LimitFault};
pub use laws::{admitted_forks_fit, breaks_begin};
pub use layout::{Header, Outline, Reference, TypeEntry, read_header, read_outline, type_list_at};
pub use map_attributes::MapAttributes;
pub use numbers::{long_at, word_at};
pub use repeats::{IDS, Marks, id_repeats, type_repeats};
pub use rules::{
    data_area_outside, data_outside, map_outside, name_outside, references_outside, short_header,
    short_map, type_list_outside, types_outside,
};
pub use view::{ForkView, ResView, Walk};
pub use write::write_fork;
