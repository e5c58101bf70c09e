//! All arguments, read as a command or as the position of the first misplaced one. What they are is in `specs/Command`.

ghost use Rattle.std.specs.Prelude.{◌≡◌, ℕ, ◌∷◌, Ok, Err, IfOk, length, map};
ghost use Rattle.std.specs.List.{list_all, list_any};
ghost use Rattle.std.specs.String.{string_bytes};
ghost use Rattle.rz_core.specs.Stop.{fault_seen, seen, Gives, OnFault};
ghost use Rattle.rz_core.specs.declared.stop.Stop.TheVariants.{Refused};
ghost use Rattle.rz_tools_args.specs.Command.{places_of, AreItems, Asked, IsCommand, IsMisplaced};
ghost use Rattle.rz_tools_args.specs.Held.{asked, is_whole, item, position_of, says, syntax, MayBegin};
ghost use Rattle.rz_tools_args.specs.Syntax.{syntax_of};

use crate::command::{Command, Items};
use crate::flag::Flag;
use crate::item::{Item, read_item};
use crate::laws::one_command;
use crate::name::CommandName;
use crate::syntax::{Syntax, command_named, syntax_of};
use rz_core::Stop;
use rz_lex::{cut_back, one_cut};
use rz_pre_source::one_text;
use std::alloc::Global;

/// The words are no command.
#[derive(Clone, Copy, Debug, Drop, PartialEq, Eq)]
pub struct UsageFault {
    /// The first word that can't stand where it stands, from 1; one past the last where a word is missing.
    pub position: u64,
}

/// The command that the words after the program's name are, or the position of the first word that can't
/// stand where it stands. `syntax_of` has the table of all that may stand where:
/// - `rez` with sources, at least one, and in whatever order `-o name`, `-t type`, `-c creator`, `-form form`,
///   `-tmpl file`, `-i path`, `-s path`, `-d name[=text]`, `-u name`, `-rd`, `-a`, `-ov` and `-ro`, each as often as may
///   be; of several of the first five the last counts, one of the last four counts once however often it stands, and the
///   others add up; a type or creator is four characters that have bytes in Mac Roman, and a form is `raw`, `double`,
///   `macbin` or `hqx`;
/// - `derez` with files, of which the first is the fork and the others are type files, and in whatever order `-i`,
///   `-d`, `-u`, `-rd` and `-tmpl` as above, `-only type`, `-skip type` or `-s type`, which add up, and `-from form`, of which
///   the last counts;
/// - `bridge` with one file, and in whatever order `-to form` and `-o name`, each at least once, and `-from form`; of
///   several the last counts;
/// - `sample` with a number from 1 to 5000, in decimal without a sign or a leading zero;
/// - `--help` or `--version` alone.
pub fn read_words<'a>(alloc: Global, words: &'a [String]) -> Result<Command<'a>, Stop<UsageFault>>
    ensures command { IfOk result (λ command. IsCommand (map string_bytes words.now) (asked command)) }
    ensures misplaced { OnFault result (λ fault. IsMisplaced (map string_bytes words.now) fault.position) }
    ensures every_command { (wanted : Asked) → IsCommand (map string_bytes words.now) wanted → Gives (Ok wanted) (seen asked (fault_seen position_of result)) }
    ensures every_position { (position : ℕ) → IsMisplaced (map string_bytes words.now) position → Gives (Err position) (seen asked (fault_seen position_of result)) }
{
    one_command();
    read_all(alloc, words)
}

/// The command, or the position.
fn read_all<'a>(alloc: Global, words: &'a [String]) -> Result<Command<'a>, Stop<UsageFault>>
    ensures command { IfOk result (λ command. IsCommand (map string_bytes words.now) (asked command)) }
    ensures misplaced { OnFault result (λ fault. IsMisplaced (map string_bytes words.now) fault.position) }
{
    let Some((first, behind)) = words.split_first() else {
        return misplaced(1);
    };
    match command_named(first.as_str()) {
        Some(name) => read_command(alloc, name, behind),
        None => misplaced(1),
    }
}

/// The words after the name of a command.
fn read_command<'a>(
    alloc: Global,
    name: CommandName,
    words: &'a [String],
) -> Result<Command<'a>, Stop<UsageFault>>
    ensures command { IfOk result (λ command. IsCommand ((syntax_of name).name ∷ map string_bytes words.now) (asked command)) }
    ensures misplaced { OnFault result (λ fault. IsMisplaced ((syntax_of name).name ∷ map string_bytes words.now) fault.position) }
{
    cut_back();
    one_cut();
    one_text();
    let read = read_items(alloc, name, words)?;
    if is_whole(syntax_of(name), read.places, read.items.as_slice()) {
        Ok(Command {
            name,
            items: read.items,
        })
    } else {
        misplaced(words.len() as u64 + 2)
    }
}

/// Items, and how many words they are outside options.
#[derive(Drop)]
struct ReadItems<'a> {
    /// The items, in the order of the words.
    items: Items<'a>,
    /// How many words stand outside options.
    places: u64,
}

/// The items after the name of a command.
fn read_items<'a>(
    alloc: Global,
    name: CommandName,
    words: &'a [String],
) -> Result<ReadItems<'a>, Stop<UsageFault>>
    ensures items { IfOk result (λ read. AreItems (syntax_of name) (map string_bytes words.now) (map item read.items)) }
    ensures begin { IfOk result (λ read. MayBegin (syntax_of name).places (places_of (map item read.items))) }
    ensures places { IfOk result (λ read. read.places ≡ length (places_of (map item read.items))) }
    ensures misplaced { OnFault result (λ fault. IsMisplaced ((syntax_of name).name ∷ map string_bytes words.now) fault.position) }
{
    cut_back();
    one_cut();
    one_text();
    let takes = syntax_of(name);
    let mut items = Items::new(alloc);
    let mut places = 0;
    let mut rest = words;
    while let Some((first, behind)) = rest.split_first() {
        let read = (words.len() - rest.len()) as u64;
        match read_item(alloc, takes, first.as_str(), behind) {
            Ok(item) => {
                if !item.may_follow(takes.places, places) {
                    drop(item);
                    return Err(Stop::Refused(UsageFault { position: read + 2 }));
                }
                let size = item.size();
                places += item.places();
                items.push(item)?;
                rest = rest.split_at(size).1;
            }
            Err(Stop::Refused(misfit)) => {
                return Err(Stop::Refused(UsageFault {
                    position: read + 2 + misfit.fitting,
                }));
            }
            Err(Stop::NoMemory) => return Err(Stop::NoMemory),
        }
    }
    Ok(ReadItems { items, places })
}

/// Whether all that must be there is among the items, of which so many stand outside options.
fn is_whole(takes: Syntax, places: u64, items: &[Item]) -> bool
    ensures { result ≡ is_whole (syntax takes) places (map item items.now) }
{
    takes.places.fewest() <= places && are_there(takes.needs, items)
}

/// Whether each of these options is among the items.
fn are_there(needs: &[Flag], items: &[Item]) -> bool
    ensures { result ≡ list_all (λ flag. list_any (says flag) (map item items.now)) needs.now }
{
    for need in needs {
        if !is_there(*need, items) {
            return false;
        }
    }
    true
}

/// Whether this option is among the items.
fn is_there(flag: Flag, items: &[Item]) -> bool
    ensures { result ≡ list_any (says flag) (map item items.now) }
{
    for one in items {
        if one.says(flag) {
            return true;
        }
    }
    false
}

/// The refusal of a word.
fn misplaced<'a>(position: u64) -> Result<Command<'a>, Stop<UsageFault>>
    ensures { result ≡ Err (Refused (record { position = position })) }
{
    Err(Stop::Refused(UsageFault { position }))
}
