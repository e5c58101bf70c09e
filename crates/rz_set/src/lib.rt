//! The resources of a program while its statements are read. Contracts see a `ResSet` as a list of resources: no
//! two have the same type and id, and each name has at most 255 bytes. Each call gives exactly its definition.
//! It rests on `rz_core` and `indexmap`. What `put` does to a list is defined in `rz_core`
//! (`specs/Resources.antt`), which resources are chosen in `specs/Choice.antt`, and what the calls leave in
//! `specs/After.antt` and, for a change, in `specs/Change.antt`. Resources of a list that is read in place need no copy
//! before it is known which of them are put: `included_as` tells the included ones by types and ids alone,
//! `forbidden_at` those that may not be replaced, and `put_each` puts the copies.
//!
//! Choices, and why:
//! - The resources stand in an `IndexMap`, so that the work stays in proportion to them; definitions stay plain
//!   lists. That no two have the same type and id, and that names are short, is the promise of `ResSet`. One resource
//!   is taken out by its key, and is changed where it stands if it keeps its type and id; a change of several, or to
//!   another type or id, makes a new table.
#![tactic(auto)]

mod among;
mod change;
mod entries;
mod include;
mod laws;
mod pick;
mod protection;
mod res_set;
mod wanted;

pub use laws::{
    a_change_is_one_after_another, a_name_chooses_the_first, found_has_the_key,
    others_are_found_as_before, others_stay_in_order, put_is_found,
};
pub use pick::{Choice, Head, Pick, SetFault};
pub use res_set::ResSet;
pub use wanted::{Ids, Included, Wanted, included_as};
