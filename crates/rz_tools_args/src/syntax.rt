//! What stands in the arguments of each command: one table, that of `specs/Syntax`. A new command is a line of both.

ghost use Rattle.std.specs.Prelude.{◌≡◌, ◌↔◌, IsTrue};
ghost use Rattle.rz_tools_args.specs.Held.{fewest, syntax, words_of, IsCount, MayStand};
ghost use Rattle.rz_tools_args.specs.Syntax.{command_named, named, syntax_of};

use crate::flag::{Flag, Switch};
use crate::name::CommandName;
use crate::number::number_told;

/// What stands outside options.
#[derive(Clone, Copy, Debug)]
pub enum Places {
    /// At least so many files.
    AtLeast(u64),
    /// Exactly so many files.
    Exactly(u64),
    /// A number from 1 to this one, in decimal without a sign or a leading zero.
    Count(u32),
}

impl Places {
    /// How many words stand there at least.
    pub fn fewest(self) -> u64
        ensures { result ≡ fewest self }
    {
        match self {
            Places::AtLeast(count) | Places::Exactly(count) => count,
            Places::Count(_) => 1,
        }
    }

    /// Whether after so many words one more may stand, and be this.
    pub fn may_stand(self, count: u64, word: &str) -> bool
        ensures { IsTrue result ↔ MayStand self count word.now }
    {
        match self {
            Places::AtLeast(_) => true,
            Places::Exactly(most) => count < most,
            Places::Count(most) => count == 0 && is_count(most, word),
        }
    }
}

/// Whether a word is a number from 1 to this one, in decimal without a sign or a leading zero.
fn is_count(most: u32, word: &str) -> bool
    ensures { IsTrue result ↔ IsCount most word.now }
{
    match number_told(word) {
        Some(number) => 1 <= number && number <= most,
        None => false,
    }
}

/// What stands in the arguments of a command.
#[derive(Clone, Copy, Debug)]
pub struct Syntax {
    /// The name of the command.
    pub name: &'static str,
    /// The options after which a value stands, as they are written.
    pub flags: &'static [(&'static str, Flag)],
    /// The options without a value, as they are written.
    pub switches: &'static [(&'static str, Switch)],
    /// What stands outside options.
    pub places: Places,
    /// The options that must be there.
    pub needs: &'static [Flag],
    /// How its usage is told, after the program's name: whole lines.
    pub usage: &'static str,
}

/// The commands, in the order in which help tells them.
pub const COMMANDS: [CommandName; 10] = [
    CommandName::Rez,
    CommandName::DeRez,
    CommandName::Bridge,
    CommandName::Det,
    CommandName::List,
    CommandName::Strings,
    CommandName::Restring,
    CommandName::Sample,
    CommandName::Help,
    CommandName::Version,
];

/// What stands in the arguments of a command.
pub fn syntax_of(command: CommandName) -> Syntax
    ensures { syntax result ≡ syntax_of command }
{
    match command {
        CommandName::Rez => Syntax {
            name: "rez",
            flags: &[
                ("-o", Flag::Output),
                ("-t", Flag::Kind),
                ("-c", Flag::Creator),
                ("-form", Flag::Into),
                ("-i", Flag::Path),
                ("-s", Flag::Search),
                ("-d", Flag::Define),
                ("-u", Flag::Undefine),
                ("-tmpl", Flag::Templates),
            ],
            switches: &[
                ("-a", Switch::Append),
                ("-ov", Switch::Over),
                ("-ro", Switch::ReadOnly),
                ("-rd", Switch::Redeclare),
            ],
            places: Places::AtLeast(1),
            needs: &[],
            usage: "rez FILE... [-o NAME] [-a] [-ov] [-ro] [-form FORM] [-t TYPE] [-c CREATOR]
             [-i PATH]... [-s PATH]... [-d NAME[=TEXT]]... [-u NAME]... [-rd]
             [-tmpl FILE]
",
        },
        CommandName::DeRez => Syntax {
            name: "derez",
            flags: &[
                ("-only", Flag::Only),
                ("-skip", Flag::Skip),
                ("-s", Flag::Skip),
                ("-from", Flag::From),
                ("-i", Flag::Path),
                ("-d", Flag::Define),
                ("-u", Flag::Undefine),
                ("-tmpl", Flag::Templates),
            ],
            switches: &[("-rd", Switch::Redeclare)],
            places: Places::AtLeast(1),
            needs: &[],
            usage: "derez FORK [FILE]... [-from FORM] [-i PATH]... [-d NAME[=TEXT]]... [-u NAME]...
               [-rd] [-tmpl FILE] [-only TYPE]... [-skip TYPE]...
",
        },
        CommandName::Bridge => Syntax {
            name: "bridge",
            flags: &[
                ("-to", Flag::Into),
                ("-o", Flag::Output),
                ("-from", Flag::From),
            ],
            switches: &[],
            places: Places::Exactly(1),
            needs: &[Flag::Into, Flag::Output],
            usage: "bridge FILE -to FORM -o NAME [-from FORM]\n",
        },
        CommandName::Det => Syntax {
            name: "det",
            flags: &[("-from", Flag::From)],
            switches: &[],
            places: Places::Exactly(1),
            needs: &[],
            usage: "det FORK [-from FORM]\n",
        },
        CommandName::List => Syntax {
            name: "list",
            flags: &[("-from", Flag::From)],
            switches: &[],
            places: Places::Exactly(1),
            needs: &[],
            usage: "list FILE [-from FORM]\n",
        },
        CommandName::Strings => Syntax {
            name: "strings",
            flags: &[
                ("-from", Flag::From),
                ("-i", Flag::Path),
                ("-d", Flag::Define),
                ("-u", Flag::Undefine),
                ("-tmpl", Flag::Templates),
            ],
            switches: &[("-rd", Switch::Redeclare)],
            places: Places::AtLeast(1),
            needs: &[],
            usage: "strings FORK [FILE]... [-from FORM] [-i PATH]... [-d NAME[=TEXT]]... [-u NAME]...
                 [-rd] [-tmpl FILE]
",
        },
        CommandName::Restring => Syntax {
            name: "restring",
            flags: &[
                ("-o", Flag::Output),
                ("-from", Flag::From),
                ("-i", Flag::Path),
                ("-d", Flag::Define),
                ("-u", Flag::Undefine),
                ("-tmpl", Flag::Templates),
            ],
            switches: &[("-ov", Switch::Over), ("-rd", Switch::Redeclare)],
            places: Places::AtLeast(2),
            needs: &[],
            usage: "restring FORK CATALOGUE [FILE]... [-o NAME] [-ov] [-from FORM] [-i PATH]...
                  [-d NAME[=TEXT]]... [-u NAME]... [-rd] [-tmpl FILE]
",
        },
        CommandName::Sample => Syntax {
            name: "sample",
            flags: &[],
            switches: &[],
            places: Places::Count(5000),
            needs: &[],
            usage: "sample COUNT\n",
        },
        CommandName::Help => Syntax {
            name: "--help",
            flags: &[],
            switches: &[],
            places: Places::Exactly(0),
            needs: &[],
            usage: "--help\n",
        },
        CommandName::Version => Syntax {
            name: "--version",
            flags: &[],
            switches: &[],
            places: Places::Exactly(0),
            needs: &[],
            usage: "--version\n",
        },
    }
}

/// What a word stands for in a table of words.
pub fn named<X: Copy>(table: &[(&'static str, X)], word: &str) -> Option<X>
    ensures { result ≡ named (words_of table.now) word.now }
{
    for (spelled, one) in table {
        if word == *spelled {
            return Some(*one);
        }
    }
    None
}

/// The command that a word names.
pub fn command_named(word: &str) -> Option<CommandName>
    ensures { result ≡ command_named word.now }
{
    for name in COMMANDS {
        if word == syntax_of(name).name {
            return Some(name);
        }
    }
    None
}
