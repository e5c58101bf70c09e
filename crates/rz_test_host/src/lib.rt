//! Tests of what no command shows and no clause says: the host's files and streams. Each is a table of calls in turn,
//! with what each gives. It rests on `rz_core` and `rz_folder`, and has no code that ships. `failing` lets each call of a
//! write or a read fail in turn, and changes with `replace` of `rz_folder`.
#![tactic(auto)]

#[cfg(test)]
mod failing;
#[cfg(test)]
mod files;
#[cfg(test)]
mod replaced;
#[cfg(test)]
mod steps;
#[cfg(test)]
mod streams;
#[cfg(test)]
mod tables;
#[cfg(test)]
mod text;
