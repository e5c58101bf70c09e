//! Cases of a command as their files state them: what a run is given, which of its calls fail, and what it must leave.
//! `read_cases` gives the cases of the text of a file, or the first line that has another form than the format, which
//! the README.md of `rezkit_cases` has. Nothing here runs a case: `rz_test_cases` does, which stands on it.
//! It rests on `rz_core`, and on `hex` for contents that are spelled in digits, and has no code that ships.
//! A new key is an arm of `keys`; a new spelling of a content changes `content`.
#![tactic(auto)]

mod case;
mod content;
mod entry;
mod keys;
mod place;
mod reader;
mod sweep;
mod trouble;

pub use case::{Case, Failures, FolderRoom, Left, Piece, Room, Stored, Target};
pub use place::{Place, What};
pub use reader::read_cases;
pub use sweep::Sweep;
pub use trouble::Trouble;
