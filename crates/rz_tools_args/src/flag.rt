//! Options: those after which a value stands, and those without one.

ghost use Rattle.std.specs.Prelude.{◌≡◌};
ghost use Rattle.rz_tools_args.specs.Syntax.{sort_of};

/// An option after which a value stands.
#[derive(Clone, Copy, Debug, PartialEq, Eq)]
pub enum Flag {
    /// `-o`: the name of the file to write.
    Output,
    /// `-i`: a path for included files.
    Path,
    /// `-s` of `rez`: a path for the files of statements.
    Search,
    /// `-d`: a definition.
    Define,
    /// `-u`: a name to undefine.
    Undefine,
    /// `-only`: a type that alone is shown.
    Only,
    /// `-skip`, or `-s` of `derez`: a type that isn't shown.
    Skip,
    /// `-t`: the type of the file to write.
    Kind,
    /// `-c`: the creator of the file to write.
    Creator,
    /// `-form` or `-to`: the form of the file to write.
    Into,
    /// `-from`: the form of the file that is read.
    From,
    /// `-tmpl`: the file whose 'TMPL' resources declare types.
    Templates,
}

/// What the value after an option is.
#[derive(Clone, Copy, Debug)]
pub enum Sort {
    /// A name of a file, or a path.
    Name,
    /// A name, or a name, `=` and a text, that is defined.
    Definition,
    /// A name that is undefined.
    Undefinition,
    /// A type or creator: four characters that have bytes in Mac Roman.
    Kind,
    /// A form: `raw`, `double`, `macbin` or `hqx`.
    Form,
}

/// An option without a value.
#[derive(Clone, Copy, Debug, PartialEq, Eq)]
pub enum Switch {
    /// `-rd`: types may be declared again without a warning.
    Redeclare,
    /// `-a`: the fork starts from the file that has the name of the file to write.
    Append,
    /// `-ov`: protected resources may be replaced, changed and removed.
    Over,
    /// `-ro`: the map of the fork becomes read-only.
    ReadOnly,
}

impl Flag {
    /// What the value after the option is.
    pub fn sort(self) -> Sort
        ensures { result ≡ sort_of self }
    {
        match self {
            Flag::Output | Flag::Path | Flag::Search | Flag::Templates => Sort::Name,
            Flag::Define => Sort::Definition,
            Flag::Undefine => Sort::Undefinition,
            Flag::Only | Flag::Skip | Flag::Kind | Flag::Creator => Sort::Kind,
            Flag::Into | Flag::From => Sort::Form,
        }
    }
}
