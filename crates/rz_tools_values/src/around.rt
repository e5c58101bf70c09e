//! What a statement is done with.

use crate::setting::Setting;
use rz_core::{FileNames, Mark};

/// What is the same for all that one statement does.
#[derive(Clone, Copy)]
pub struct Around<'a> {
    /// The paths after which the files that it names are looked for.
    pub paths: &'a FileNames,
    /// The line on which it begins.
    pub mark: Mark,
    /// What holds for all statements of the program.
    pub setting: Setting,
}
