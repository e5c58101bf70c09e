//! What each key of an entry says of its case. A new key is an arm here, and a line of the README.

use crate::case::{Case, FolderRoom, Left, Piece, Stored, Target};
use crate::content::{append_bytes, content_of};
use crate::entry::Entry;
use crate::place::{Place, What};
use crate::sweep::Sweep;
use crate::trouble::Trouble;
use std::alloc::Global;

/// What is wrong with an entry that says again what the case has said.
const TWICE: &str = "the case states this twice";

/// Adds what an entry says to its case.
pub fn add_entry(alloc: Global, case: &mut Case, entry: &Entry<'_>) -> Result<(), Trouble> {
    match entry.key {
        "file" => add_file(alloc, case, entry),
        "leaves" => add_left(alloc, case, entry),
        "out" => {
            let bytes = content_of(alloc, entry.argument, entry)?;
            set_once(&mut case.out, bytes, entry)
        }
        "err" => {
            let bytes = content_of(alloc, entry.argument, entry)?;
            set_once(&mut case.err, bytes, entry)
        }
        _ if !entry.block.is_empty() => Err(entry.flaw("this key takes no content")),
        _ => add_plain(alloc, case, entry),
    }
}

/// Adds what an entry without content says to its case.
fn add_plain(alloc: Global, case: &mut Case, entry: &Entry<'_>) -> Result<(), Trouble> {
    match entry.key {
        "words" => add_words(alloc, case, entry),
        "word" => add_word(alloc, case, entry.argument),
        "word-bytes" => add_spelled_word(alloc, case, entry),
        "moment" => {
            let moment = given(entry.argument.parse::<i64>().ok(), entry)?;
            set_once(&mut case.moment, moment, entry)
        }
        "fail" => add_failure(case, entry),
        "fails" => set_never(case, entry),
        "sweep" => set_sweep(case, entry),
        "room" => add_room(case, entry),
        "status" => {
            let status = given(entry.argument.parse::<u8>().ok(), entry)?;
            set_once(&mut case.status, status, entry)
        }
        "differs" => add_wrong(alloc, case, entry),
        "gone" => push_left(alloc, case, entry.argument, None, entry),
        _ => Err(entry.flaw("there is no such key")),
    }
}

/// Words between blanks.
fn add_words(alloc: Global, case: &mut Case, entry: &Entry<'_>) -> Result<(), Trouble> {
    for word in entry.argument.split_whitespace() {
        add_word(alloc, case, word)?;
    }
    Ok(())
}

/// A word as it stands.
fn add_word(alloc: Global, case: &mut Case, word: &str) -> Result<(), Trouble> {
    case.words.push(String::from_str(alloc, word)?)?;
    Ok(())
}

/// A word that is spelled in bytes.
fn add_spelled_word(alloc: Global, case: &mut Case, entry: &Entry<'_>) -> Result<(), Trouble> {
    let mut bytes = Vec::new(alloc);
    append_bytes(entry.argument, &mut bytes, entry)?;
    match String::from_utf8(bytes) {
        Ok(word) => {
            case.words.push(word)?;
            Ok(())
        }
        Err(_) => Err(entry.flaw("a word isn't UTF-8")),
    }
}

/// A file before the run.
fn add_file(alloc: Global, case: &mut Case, entry: &Entry<'_>) -> Result<(), Trouble> {
    let (kind, name) = kind_and_name(entry);
    for stored in &case.files {
        if stored.name.as_str() == name {
            return Err(entry.flaw(TWICE));
        }
    }
    case.files.push(Stored {
        name: String::from_str(alloc, name)?,
        bytes: content_of(alloc, kind, entry)?,
    })?;
    Ok(())
}

/// A file after the run.
fn add_left(alloc: Global, case: &mut Case, entry: &Entry<'_>) -> Result<(), Trouble> {
    let (kind, name) = kind_and_name(entry);
    let bytes = content_of(alloc, kind, entry)?;
    push_left(alloc, case, name, Some(bytes), entry)
}

/// What a name holds after the run, of which the case must not have spoken yet.
fn push_left(
    alloc: Global,
    case: &mut Case,
    name: &str,
    bytes: Option<Vec<u8>>,
    entry: &Entry<'_>,
) -> Result<(), Trouble> {
    for left in &case.left {
        if left.name.as_str() == name {
            return Err(entry.flaw(TWICE));
        }
    }
    let name = String::from_str(alloc, name)?;
    case.left.push(Left { name, bytes })?;
    Ok(())
}

/// The kind of content, and the name after it, which may be empty.
fn kind_and_name<'a>(entry: &Entry<'a>) -> (&'a str, &'a str) {
    entry
        .argument
        .split_once(' ')
        .unwrap_or((entry.argument, ""))
}

/// A call that is to fail: `folder CALL`, `out CALL TAKEN` or `err CALL TAKEN`.
fn add_failure(case: &mut Case, entry: &Entry<'_>) -> Result<(), Trouble> {
    let [target, call, taken, more] = parts_of(entry.argument);
    let target = target_of(target.unwrap_or(""), entry)?;
    let call = call.and_then(|text| text.parse::<u64>().ok());
    let call = given(call.filter(|call| *call > 0), entry)?;
    if target == Target::Folder {
        set_once(&mut case.failures.folder, call, entry)?;
        return nothing_more(taken, entry);
    }
    let taken = next_number(taken, entry)?;
    nothing_more(more, entry)?;
    let piece = Piece { call, taken };
    if target == Target::Out {
        set_once(&mut case.failures.out, piece, entry)
    } else {
        set_once(&mut case.failures.err, piece, entry)
    }
}

/// The calls that fail in turn: `folder READS WRITES`, `out CALLS TAKEN` or `err CALLS TAKEN`.
fn set_sweep(case: &mut Case, entry: &Entry<'_>) -> Result<(), Trouble> {
    let [target, first, second, more] = parts_of(entry.argument);
    let target = target_of(target.unwrap_or(""), entry)?;
    let first = next_number(first, entry)?;
    let second = next_number(second, entry)?;
    nothing_more(more, entry)?;
    let (reads, puts, taken) = match target {
        Target::Folder => (first, second, 0),
        Target::Out | Target::Err => (0, first, second),
    };
    let sweep = Sweep {
        target,
        reads,
        puts,
        taken,
    };
    if sweep.calls() == 0 || !sweep.is_short() {
        return Err(entry.flaw("a sweep of no calls, or of more than 100,000"));
    }
    set_once(&mut case.sweep, sweep, entry)
}

/// That the calls that are to fail never come.
fn set_never(case: &mut Case, entry: &Entry<'_>) -> Result<(), Trouble> {
    if entry.argument != "never" {
        return Err(entry.flaw("of calls that are to fail nothing is said but never"));
    }
    if case.failures.never {
        return Err(entry.flaw(TWICE));
    }
    case.failures.never = true;
    Ok(())
}

/// The room: `folder WRITES BYTES`, `out BYTES` or `err BYTES`.
fn add_room(case: &mut Case, entry: &Entry<'_>) -> Result<(), Trouble> {
    let [target, number, bytes, more] = parts_of(entry.argument);
    let target = target_of(target.unwrap_or(""), entry)?;
    let number = next_number(number, entry)?;
    match target {
        Target::Folder => {
            let room = FolderRoom {
                writes: number,
                bytes: next_number(bytes, entry)?,
            };
            set_once(&mut case.room.folder, room, entry)?;
            nothing_more(more, entry)
        }
        Target::Out => {
            set_once(&mut case.room.out, number, entry)?;
            nothing_more(bytes, entry)
        }
        Target::Err => {
            set_once(&mut case.room.err, number, entry)?;
            nothing_more(bytes, entry)
        }
    }
}

/// Places in which the case is wrong on purpose: `file NAME`, `fail PLACE`, or any of `status`, `out` and `err`.
fn add_wrong(alloc: Global, case: &mut Case, entry: &Entry<'_>) -> Result<(), Trouble> {
    match entry.argument.split_once(' ') {
        Some(("file", name)) => {
            let name = String::from_str(alloc, name)?;
            push_wrong(case, Place::File(name), entry)
        }
        Some(("fail", name)) => push_wrong(case, Place::Call(target_of(name, entry)?), entry),
        _ => add_wrong_words(case, entry),
    }
}

/// Places that are words.
fn add_wrong_words(case: &mut Case, entry: &Entry<'_>) -> Result<(), Trouble> {
    if entry.argument.is_empty() {
        return Err(entry.flaw("no place is named"));
    }
    for word in entry.argument.split_whitespace() {
        add_wrong_word(case, word, entry)?;
    }
    Ok(())
}

/// The place that a word names.
fn add_wrong_word(case: &mut Case, word: &str, entry: &Entry<'_>) -> Result<(), Trouble> {
    match word {
        "status" => push_wrong(case, Place::Status, entry),
        "out" => push_wrong(case, Place::Out, entry),
        "err" => push_wrong(case, Place::Err, entry),
        _ => Err(entry.flaw("a place is none of status, out, err, file NAME and fail PLACE")),
    }
}

/// A place in which the case is wrong on purpose, of which it must not have spoken yet.
fn push_wrong(case: &mut Case, place: Place, entry: &Entry<'_>) -> Result<(), Trouble> {
    if case.is_wrong_in(What::of(&place)) {
        drop(place);
        return Err(entry.flaw(TWICE));
    }
    case.wrong.push(place)?;
    Ok(())
}

/// The first four parts of an argument, with blanks between them.
fn parts_of(argument: &str) -> [Option<&str>; 4] {
    let mut parts = argument.split_whitespace();
    [parts.next(), parts.next(), parts.next(), parts.next()]
}

/// What has calls and room, by its name.
fn target_of(name: &str, entry: &Entry<'_>) -> Result<Target, Trouble> {
    match name {
        "folder" => Ok(Target::Folder),
        "out" => Ok(Target::Out),
        "err" => Ok(Target::Err),
        _ => Err(entry.flaw("what is named is none of folder, out and err")),
    }
}

/// The number that a part of an argument spells.
fn next_number(part: Option<&str>, entry: &Entry<'_>) -> Result<u32, Trouble> {
    given(part.and_then(|text| text.parse::<u32>().ok()), entry)
}

/// That an argument has no further part.
fn nothing_more(part: Option<&str>, entry: &Entry<'_>) -> Result<(), Trouble> {
    match part {
        Some(_) => Err(entry.flaw("the argument has too many parts")),
        None => Ok(()),
    }
}

/// A number that must be there.
fn given<T>(number: Option<T>, entry: &Entry<'_>) -> Result<T, Trouble> {
    match number {
        Some(number) => Ok(number),
        None => Err(entry.flaw("a number is missing, wrong or too great")),
    }
}

/// Gives a place its value, which it must not have yet.
fn set_once<T: Drop>(place: &mut Option<T>, value: T, entry: &Entry<'_>) -> Result<(), Trouble> {
    if place.is_some() {
        return Err(entry.flaw(TWICE));
    }
    *place = Some(value);
    Ok(())
}
