//! What holds for all statements of a program.

use rz_core::Moment;
use rz_pre::Tool;

/// What holds for all statements of a program.
#[derive(Clone, Copy, Debug)]
pub struct Setting {
    /// The tool that reads the statements.
    pub tool: Tool,
    /// Types may be declared again without a warning.
    pub redeclare: bool,
    /// The program begins with the resources of a file, which it may change and delete.
    pub append: bool,
    /// Protected resources may be replaced, changed and deleted.
    pub over: bool,
    /// The moment of the run.
    pub moment: Moment,
}
