//! The names of the commands.

/// The name of a command.
#[derive(Clone, Copy, Debug)]
pub enum CommandName {
    /// `rez`.
    Rez,
    /// `derez`.
    DeRez,
    /// `bridge`.
    Bridge,
    /// `det`.
    Det,
    /// `list`.
    List,
    /// `strings`.
    Strings,
    /// `restring`.
    Restring,
    /// `sample`.
    Sample,
    /// `--help`.
    Help,
    /// `--version`.
    Version,
}
