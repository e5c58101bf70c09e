//! Files by name, with a count of the writes, and places to write to, each with counts of its faults: the two traits,
//! and a folder and a sink in memory whose contracts are exact. A folder says which names may be read, and a call that
//! reads says in its contract which of them it needs (`specs/MayRead`). It rests on `rz_core`, `arrayvec` and `itoa`.
//! `Shelf` holds files in memory that are read and never written, for a command that has its files of its own, and
//! `TextSink` has in memory what a call puts. `HeldSink` holds back in memory what is put until a flush, as standard
//! output does.
//! `RealFolder` and `RealSink` are the host's. `RealSink` is proved over a writer that tells its bytes; what the host
//! does is trusted and tested.
//! `replace` writes a regular file so that it is replaced whole or stays as it was; `temporary` names the file that it
//! fills.
//! A change there changes the tests in `rz_test_host`, and what README.md says of a write that fails.
//! `read_present` gives the file of one name, `find` and `read_file` the first file that stands under some names, and
//! `names_of` the names under which an included file is looked for. Over a folder that tells its files each call gives
//! exactly what they hold, or 101; over every folder no file changes. What is found is `specs/Names.antt`; a new way to
//! look for files changes `names_of` there and in `names`.
#![tactic(auto)]

mod file;
mod folder;
mod held_sink;
mod limit;
mod mem_folder;
mod mem_sink;
mod names;
mod real_folder;
mod real_sink;
mod replace;
mod shelf;
mod sink;
mod temporary;
mod text_sink;

pub use file::{find, missing_file, read_file, read_present};
pub use folder::{Folder, Read, Written};
pub use held_sink::HeldSink;
pub use mem_folder::MemFolder;
pub use mem_sink::MemSink;
pub use names::names_of;
pub use real_folder::RealFolder;
pub use real_sink::RealSink;
pub use shelf::Shelf;
pub use sink::{Put, Sink};
pub use text_sink::TextSink;
