//! Why no run begins, and what is said of it, as `specs/Hindrance` says.

ghost use Rattle.std.specs.Prelude.{◌≡◌};
ghost use Rattle.rz_tools_host.specs.Hindrance.{line_of, status_of};

/// Why no run begins.
#[derive(Clone, Copy)]
pub enum Hindrance {
    /// An argument isn't UTF-8.
    NoArguments,
    /// `SOURCE_DATE_EPOCH` tells no moment.
    NoMoment,
    /// There is no memory for what the host gives.
    NoMemory,
}

impl Hindrance {
    /// The line that is said of it.
    pub fn line(self) -> &'static [u8]
        ensures { result.now ≡ line_of self }
    {
        match self {
            Hindrance::NoArguments => b"rezkit: no words\n",
            Hindrance::NoMoment =>
                b"rezkit: SOURCE_DATE_EPOCH isn't a decimal number from 0 to 2208988799\n",
            Hindrance::NoMemory => b"rezkit: no memory\n",
        }
    }

    /// The exit status of the program: 5 for NoArguments and NoMoment, 4 for NoMemory.
    pub fn status(self) -> u8
        ensures { result ≡ status_of self }
    {
        match self {
            Hindrance::NoArguments | Hindrance::NoMoment => 5,
            Hindrance::NoMemory => 4,
        }
    }
}
