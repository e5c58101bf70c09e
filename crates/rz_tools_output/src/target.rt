//! The file that is to be written, as it is asked for.

ghost use Rattle.std.specs.Prelude.{◌≡◌, false, None};
ghost use Rattle.rz_tools_output.specs.Output.{target};

use rz_bridge_files::Form;
use rz_core::OsType;

/// The file that is to be written.
#[derive(Clone, Copy)]
pub struct Target<'a> {
    /// Its name.
    pub name: &'a str,
    /// Its form, if that is given.
    pub form: Option<Form>,
    /// Its type, if that is given.
    pub kind: Option<OsType>,
    /// Its creator, if that is given.
    pub creator: Option<OsType>,
    /// The map of its fork becomes read only.
    pub read_only: bool,
}

impl<'a> Target<'a> {
    /// The file of this name, of which nothing else is asked for.
    pub fn named(name: &'a str) -> Target<'a>
        ensures { target result ≡ record { name = name.now; form = None; kind = None; creator = None; read_only = false } }
    {
        Target {
            name,
            form: None,
            kind: None,
            creator: None,
            read_only: false,
        }
    }
}
