//! What a run begins with, the files that it writes, and what it tells of one file. `read_templates` gives the types
//! that the 'TMPL' resources of a file declare before the first statement of `rez` and `derez`, exactly as
//! `specs/Templates` says. `read_base` gives what `rez` begins with: a new file, or what the file to append to holds.
//! `read_held` gives the same of the file that `restring` changes, and `all_short` refuses resources that are too long
//! (301). `write_output` makes the file of the resources, as a `Target` asks for it. `plan_bridge` carries a file from
//! one form to another, as the `BridgeWords` of a command ask for it. `plan_det` tells each rule that the fork of a
//! file breaks, as its `DetWords` ask for it, and `read_list` what the file holds, as the same words ask for it. Each
//! gives exactly what its definition says, or the first fault. `sample_source` is the source that `sample` compiles,
//! and `sample_lines` what it says.
//! It rests on `rz_core`, `rz_folder`, `rz_fork`, `rz_told`, `rz_set`, `rz_bridge`, `rz_bridge_files`, `rz_types`,
//! `rz_types_table`, `rz_tmpl`, which gives the template of each 'TMPL' resource, `rz_tools_args`, whose commands it
//! asks, `rz_tools_answer`, whose plans it makes, and `bitflags`. `rez`, `types`, `strings`, `restring` and `answer` of
//! `rz_tools` call it. A new option of the output is one more field of `Target` and of its definition; another file
//! beside the output is one more write in `bridge`; another look at a file is a module beside `det`.
#![tactic(auto)]

mod base;
mod bridge;
mod declared;
mod det;
mod laws;
mod list;
mod output;
mod sample;
mod target;
mod templates;

pub use base::{Base, Beginning, all_short, read_base, read_held};
pub use bridge::{BridgeWords, plan_bridge};
pub use det::{DetWords, plan_det};
pub use laws::{every_types, one_types, types_are_templates};
pub use list::{check_fork, read_list};
pub use output::write_output;
pub use sample::{sample_lines, sample_source, sample_types};
pub use target::Target;
pub use templates::read_templates;
