//! The check of type declarations: `check` walks over the fields of a body, depth first, and gives its template, or
//! exactly the first rule that it breaks. What the rules are, and what holds of a template that keeps them, is defined
//! in `rz_types`.
//! It rests on `rz_core`, `rz_expr`, `rz_types_fields` and `rz_types`.
//! A new rule changes the definitions of `rz_types`, and here `rules`, where a field or a case is met, `keys` for the
//! keys of cases, or `named`, which finds the labels and arrays that expressions name, by themselves, by an index and by
//! the number of a row; a new kind of name changes `names`, another order of the walk `walk`, and both `specs/Walked`.
//! How names are looked up is in `name_list`.
//!
//! Choices, and why:
//! - Where a type is declared, names are looked up: beside a list of the names of labels, of arrays or of cases the
//!   position is held where each stood first. A list of names that ends with its body is cut off, and what is held
//!   stays as it is, so a name is compared with what stands at its position now.
//! - Keys of cases all have the width and the distance of the first, so the first and the set of their bits tell
//!   whether one more breaks a rule.
#![tactic(auto)]

mod folded;
mod keys;
mod name_list;
mod named;
mod names;
mod rules;
mod walk;

pub use rules::check;
