//! The texts of `--help` and `--version`, as `specs/Help` has them.

ghost use Rattle.std.specs.Prelude.{◌≡◌, ◌++◌, IfOk, OnOk};
ghost use Rattle.rz_tools_answer.specs.Help.{explanation, help_text, usage_of, version_text};

use rz_core::{Bytes, NoMemory};
use rz_tools_args::{COMMANDS, CommandName, syntax_of};
use std::alloc::Global;

/// The usage of each command, and what its arguments are, and the exit statuses.
pub fn help_text(alloc: Global) -> Result<Bytes, NoMemory>
    ensures { IfOk result (λ text. text ≡ help_text) }
{
    let mut text = Bytes::of(alloc, b"usage:\n")?;
    for command in &COMMANDS {
        append_usage(*command, &mut text)?;
    }
    text.append(explanation())?;
    Ok(text)
}

/// Appends the usage of a command, after the program's name.
#[tactic(auto, unfolding(crate::specs::Help::usage_of))]
fn append_usage(command: CommandName, text: &mut Bytes) -> Result<(), NoMemory>
    ensures { OnOk result (text.new ≡ text.old ++ usage_of command) }
{
    text.append(b"  rezkit ")?;
    text.append(syntax_of(command).usage.as_bytes())?;
    Ok(())
}

/// What the commands do, their options, and the exit statuses.
#[tactic(auto, unfolding(crate::specs::Help::explanation))]
fn explanation() -> &'static [u8]
    ensures { result.now ≡ explanation }
{
    b"
rez compiles the sources into one resource fork. derez writes the resources of a fork as
text to standard output; the files after the fork declare types. bridge writes a file in
another form. det prints a line for each rule that a fork breaks, and last how many there
are. list prints what the Finder keeps of a file, and a line for each resource of its fork.
strings prints the texts of a fork's resources as a catalogue, and restring puts the texts
of a catalogue in their place, both under types as derez has them. sample compiles a source
of its own with COUNT resources, 1 to 5000, shows them as text and compiles the text again;
it prints COUNT and how many bytes the fork, the text and the second fork have. The
arguments of each command stand in any order:
  -o NAME         the file to write; of rez and restring Rez.Out if none is named
  -a              rez starts from the file that has this name, and adds to it
  -ov             protected resources may be replaced, changed and deleted
  -ro             rez makes the fork read only
  -form FORM      the form in which rez writes; else that of -a's file, else raw
  -t TYPE, -c CREATOR
                  the type and creator of the file that rez writes, if it isn't raw
  -from FORM      the form of the fork's file, or of bridge's; else it is found
  -to FORM        the form in which bridge writes
  -i PATH         a folder in which included sources are looked for
  -s PATH         a folder in which files of include and read statements are looked for
  -d NAME[=TEXT]  a macro that stands for the text, or for nothing
  -u NAME         a macro that is undefined again
  -rd             types may be declared again without a warning
  -tmpl FILE      a file whose 'TMPL' resources declare types, before the sources do
  -only TYPE      derez shows the resources of these types alone
  -skip TYPE, and of derez -s TYPE
                  derez doesn't show the resources of these types

A form is raw (the resource fork alone), double (AppleDouble), single (AppleSingle),
macbin (MacBinary III) or hqx (BinHex 4.0). With -form double or -to double, -o ._NAME
is the header file, and the data fork is the file NAME beside it: bridge writes it first,
if it isn't empty, in the place of any file NAME, also the one that it reads; rez doesn't.
In a new folder, as with -o NEW/._NAME, nothing is replaced. -to raw drops the data fork,
the type and the creator.

The moment of a run is SOURCE_DATE_EPOCH, if the environment has it: the seconds since
1970, a decimal number up to 2208988799, the end of 2039. Else it is the clock's.

exit status: 0 done, of det also where rules are broken, 1 the arguments are no command,
2 refused, 3 a file can't be read or written, 4 out of memory, 5 the host gives no
arguments, or SOURCE_DATE_EPOCH is no moment
"
}

/// The name and the version of the program.
#[tactic(auto, unfolding(crate::specs::Help::version_text))]
pub fn version_text() -> &'static [u8]
    ensures { result.now ≡ version_text }
{
    b"rezkit 0.1.0\n"
}
