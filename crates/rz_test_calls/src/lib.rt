//! Calls that no command makes, each once, with what it gives by hand: a body that gives up for want of memory is proved
//! too, so that a call gives anything is tried here. What commands give are the cases in `rezkit_cases`. It rests on the
//! crates whose calls it makes, and has no code that ships. It changes with what these promise.
#![tactic(auto)]

#[cfg(test)]
mod bytes;
#[cfg(test)]
mod rows;
#[cfg(test)]
mod tried;
