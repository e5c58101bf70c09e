//! Files that are opened, and their texts in Mac Roman. What opening gives is in `specs/Program`.

ghost use Rattle.std.specs.Prelude.{◌≡◌, ◌+◌, ◌<◌, ◌^◌, OnOk, length, IfOk, IfSome};
ghost use Rattle.rz_core.specs.Message.{IsMarked};
ghost use Rattle.rz_core.specs.Stop.{IsReadFault, Meets, OnFault, OnRefusal, Yields};
ghost use Rattle.rz_pre.specs.Placed.{IsSourceFault};
ghost use Rattle.rz_folder.specs.MayRead.{IsOneOf, MayRead};
ghost use Rattle.rz_folder.specs.OnlyReads.{OnlyReads};
ghost use Rattle.rz_pre.specs.Lexed.{IsLexedReading};
ghost use Rattle.rz_pre.specs.Program.{bad_text, HasText, Opens};
ghost use Rattle.rz_folder.specs.Names.{missing_file};
ghost use Rattle.rz_pre.specs.Reading.{state_of, together, with_state};

use crate::reading::Reading;
use rz_core::{Bytes, Fault, FileNames, Halt, Kept, Mark, Stop};
use rz_folder::{Folder, find, missing_file};
use rz_pre_source::to_mac_roman;
use std::alloc::Global;

/// Opens the file that stands under the first of these names: the text of its source in Mac Roman. Where none
/// of them has a file it is 101 with a mark and a name.
pub fn open_file<F: Folder>(
    alloc: Global,
    folder: &mut F,
    names: &FileNames,
    mark: Option<Mark>,
    kept: &[u8],
    reading: &mut Reading,
) -> Result<Bytes, Halt<Fault>>
    requires mark { IsMarked (length reading.now.files) mark }
    requires may { MayRead F.Folder folder.old (IsOneOf names.now) }
    ensures opened { IfSome (F.files folder.old) (λ files.
        Yields (with_state together (state_of reading.new) result) (Opens files names.now (missing_file mark kept.now) (state_of reading.old))) }
    ensures more { OnOk result (length reading.new.files ≡ length reading.old.files + 1) }
    ensures tokens { reading.new.tokens ≡ reading.old.tokens }
    ensures lexed { IsLexedReading reading.old → IsLexedReading reading.new }
    ensures nameable { OnRefusal result (IsSourceFault (length reading.new.files)) }
    ensures short { IfOk result (λ text. length text < 2 ^ 32) }
    ensures reads { OnlyReads F.Folder folder.old folder.new (IsReadFault result) }
{
    match find(alloc, folder, names)? {
        Some((name, source)) => {
            let file = reading.files.len();
            reading.files.push(name)?;
            Ok(text_of(alloc, file, source)?)
        }
        None => Err(Halt::Refused(missing_file(alloc, mark, kept)?)),
    }
}

/// The text in Mac Roman of the source at this position of the list of files. Refused is 102 on its first line for the
/// first bytes that can't be turned into it (kept: their offset, in bytes). (Unicode Standard, table 3-7; Inside
/// Macintosh: Text.)
pub fn text_of(alloc: Global, file: u64, source: Bytes) -> Result<Bytes, Stop<Fault>>
    requires { length source < 2 ^ 32 }
    ensures text { Meets result (HasText file source) }
    ensures nameable { OnFault result (IsSourceFault (file + 1)) }
    ensures short { IfOk result (λ text. length text < 2 ^ 32) }
{
    match to_mac_roman(alloc, source) {
        Ok(text) => Ok(text),
        Err(Stop::Refused(bad)) => Err(Stop::Refused(bad_text(file, bad.offset))),
        Err(Stop::NoMemory) => Err(Stop::NoMemory),
    }
}

/// 102 in this file.
fn bad_text(file: u64, offset: u64) -> Fault
    requires { offset < 2 ^ 63 }
    ensures fault { result ≡ bad_text file offset }
    ensures nameable { IsSourceFault (file + 1) result }
{
    Fault {
        number: 102,
        mark: Some(Mark { file, line: 1 }),
        kept: Kept::Number(offset as i64),
    }
}
