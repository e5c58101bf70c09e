//! The named files as one program, with the files that they include. What they mean is in `specs/Program`.

ghost use Rattle.std.specs.Prelude.{◌≡◌, ℕ, ◌+◌, ◌<◌, ◌≤◌, ◌^◌, List, [], ◌∷◌, length, reverse, Result, Err, IfOk, IfSome, OnOk};
ghost use Rattle.rz_lex.specs.Lexeme.{AreLexed};
ghost use Rattle.rz_pre.specs.Lexed.{HaveLexedTexts, IsLexedReading};
ghost use Rattle.rz_pre.specs.Live.{live_in};
ghost use Rattle.rz_pre.specs.Macros.{rows_of};
ghost use Rattle.rz_folder.specs.Counts.{Rose};
ghost use Rattle.rz_folder.specs.MayRead.{IsOneOf, MayRead, MayReadOf};
ghost use Rattle.rz_folder.specs.OnlyReads.{OnlyReads};
ghost use Rattle.rz_folder.specs.Names.{names_of, utf8_name};
ghost use Rattle.rz_pre.specs.Placed.{AreOpenIn, IsPlaced, IsSourceFault};
ghost use Rattle.rz_pre.specs.Program.{ends, live_after, open_if, start, too_deep, AheadGoes, Enters, IncludedGoes, NamedGoes, NamesGo, ProgramGoes, State};
ghost use Rattle.rz_pre.specs.declared.program.Failure.{Failure};
ghost use Rattle.rz_pre.specs.Reached.{IsIncluded, IsReached};
ghost use Rattle.rz_pre.specs.Reading.{alone, state_of, together, with_state, Finishes, IsAnswer, IsProgram, OfProgram};
ghost use Rattle.rz_core.specs.Stop.{IsReadFault, OnRefusal, Yields};
ghost use Rattle.rz_lex.specs.Within.{AreWithin};

use crate::condition::Tool;
use crate::conditional::Open;
use crate::copy::copy_all;
use crate::laws::one_program;
use crate::macros::Macros;
use crate::open::open_file;
use crate::program::{Defs, Failure, Program};
use crate::reading::{Reading, step};
use rz_core::{Bytes, Fault, FileNames, Halt, Kept, Mark, NoMemory};
use rz_folder::{Folder, names_of};
use rz_lex::{Lexer, every_text_has_lines, tokens_are_lexed};
use std::alloc::Global;

/// How many levels deep a file on level 1 may include files.
const LEVELS_BELOW: u32 = 15;

/// What is the same for all files.
#[derive(Clone, Copy)]
struct Setting<'a> {
    tool: Tool,
    paths: &'a FileNames,
}

/// Reads the source of a file that was opened, and the files that it includes, so many levels deep. The calls of this
/// function are the stack of the sources that are open: each owns one, at most 16, and its text goes when it returns.
fn read_file<F: Folder>(
    alloc: Global,
    folder: &mut F,
    setting: Setting<'_>,
    levels: u32,
    mut source: Lexer,
    reading: &mut Reading,
) -> Result<(), Halt<Fault>>
    requires open { source.file < length reading.now.files }
    requires placed { IsPlaced reading.now }
    requires may { MayReadOf F.Folder folder.old (λ files. IsReached setting.paths.now files (IsIncluded setting.paths.now source.file source.ahead)) }
    ensures read { IfSome (F.files folder.old) (λ files. Yields (with_state alone (state_of reading.new) result)
        (AheadGoes (IncludedGoes setting.entry.tool files setting.entry.paths.now levels) setting.entry.tool source.file source.ahead (state_of reading.old))) }
    ensures placed { OnOk result (IsPlaced reading.new) }
    ensures more { OnOk result (length reading.old.files ≤ length reading.new.files) }
    ensures nameable { OnRefusal result (IsSourceFault (length reading.new.files)) }
    ensures lexed { IsLexedReading reading.old → OnOk result (IsLexedReading reading.new) }
    ensures reads { OnlyReads F.Folder folder.old folder.new (IsReadFault result) }
{
    every_text_has_lines();
    tokens_are_lexed();
    let mut opens: Vec<Open> = Vec::new(alloc);
    while let Some(line) = source.next(alloc)? {
        if let Some(name) = step(alloc, setting.tool, &line, &mut opens, reading)? {
            let file = reading.files.len();
            let text = open_included(
                alloc,
                folder,
                setting,
                levels,
                name.as_slice(),
                line.mark,
                reading,
            )?;
            let included = Lexer::over(text, file);
            read_file(alloc, folder, setting, levels - 1, included, reading)?;
        }
    }
    end(&opens)
}

/// After the last line of a file no conditional may be open.
fn end(opens: &[Open]) -> Result<(), Halt<Fault>>
    ensures nameable { (files : ℕ) → AreOpenIn files (reverse opens.now) → OnRefusal result (IsSourceFault files) }
    ensures end { (s : State) → Yields (with_state alone s result) (λ answer. answer ≡ ends (reverse opens.now) s) }
    ensures quiet { IsReadFault result → ⊥ }
{
    match opens.last() {
        Some(innermost) => Err(Halt::Refused(open_if(*innermost))),
        None => Ok(()),
    }
}

/// 105 for a conditional.
fn open_if(conditional: Open) -> Fault
    ensures fault { result ≡ open_if conditional }
    ensures nameable { (files : ℕ) → conditional.mark.file < files → IsSourceFault files result }
{
    Fault {
        number: 105,
        mark: Some(conditional.mark),
        kept: Kept::Nothing,
    }
}

/// 103 on a line.
fn too_deep(mark: Mark) -> Fault
    ensures fault { result ≡ too_deep mark }
    ensures nameable { (files : ℕ) → mark.file < files → IsSourceFault files result }
{
    Fault {
        number: 103,
        mark: Some(mark),
        kept: Kept::Number(17),
    }
}

/// Opens the file that a line includes.
fn open_included<F: Folder>(
    alloc: Global,
    folder: &mut F,
    setting: Setting<'_>,
    levels: u32,
    name: &[u8],
    mark: Mark,
    reading: &mut Reading,
) -> Result<Bytes, Halt<Fault>>
    requires mark { mark.file < length reading.now.files }
    requires may { MayRead F.Folder folder.old (IsOneOf (names_of setting.paths.now (utf8_name name.now))) }
    ensures opened { IfSome (F.files folder.old) (λ files. Yields (with_state together (state_of reading.new) result)
        (Enters files setting.entry.paths.now levels name.now mark (state_of reading.old))) }
    ensures deep { IfOk result (λ _. 0 < levels) }
    ensures short { IfOk result (λ text. length text < 2 ^ 32) }
    ensures more { OnOk result (length reading.new.files ≡ length reading.old.files + 1) }
    ensures tokens { reading.new.tokens ≡ reading.old.tokens }
    ensures nameable { OnRefusal result (IsSourceFault (length reading.new.files)) }
    ensures lexed { IsLexedReading reading.old → IsLexedReading reading.new }
    ensures reads { OnlyReads F.Folder folder.old folder.new (IsReadFault result) }
{
    if levels == 0 {
        return Err(Halt::Refused(too_deep(mark)));
    }
    let names = names_of(alloc, setting.paths, name)?;
    open_file(alloc, folder, &names, Some(mark), name, reading)
}

/// Reads the named files, one after the other.
fn read_names<F: Folder>(
    alloc: Global,
    folder: &mut F,
    setting: Setting<'_>,
    names: &FileNames,
    reading: &mut Reading,
) -> Result<(), Halt<Fault>>
    requires placed { IsPlaced reading.now }
    requires may { MayReadOf F.Folder folder.old (λ files. IsReached setting.paths.now files (IsOneOf names.now)) }
    ensures read { IfSome (F.files folder.old) (λ files. Yields (with_state alone (state_of reading.new) result)
        (NamesGo setting.entry.tool files setting.entry.paths.now names.now (state_of reading.old))) }
    ensures placed { OnOk result (IsPlaced reading.new) }
    ensures more { OnOk result (length reading.old.files ≤ length reading.new.files) }
    ensures nameable { OnRefusal result (IsSourceFault (length reading.new.files)) }
    ensures lexed { IsLexedReading reading.old → OnOk result (IsLexedReading reading.new) }
    ensures reads { OnlyReads F.Folder folder.old folder.new (IsReadFault result) }
{
    let mut k = 0;
    while k < names.len() {
        read_named(alloc, folder, setting, names.at(k), reading)?;
        k += 1;
    }
    Ok(())
}

/// Reads a file that the words name.
fn read_named<F: Folder>(
    alloc: Global,
    folder: &mut F,
    setting: Setting<'_>,
    name: &str,
    reading: &mut Reading,
) -> Result<(), Halt<Fault>>
    requires placed { IsPlaced reading.now }
    requires may { MayReadOf F.Folder folder.old (λ files. IsReached setting.paths.now files (IsOneOf (name.now ∷ []))) }
    ensures read { IfSome (F.files folder.old) (λ files. Yields (with_state alone (state_of reading.new) result)
        (NamedGoes setting.entry.tool files setting.entry.paths.now name.now (state_of reading.old))) }
    ensures placed { OnOk result (IsPlaced reading.new) }
    ensures more { OnOk result (length reading.old.files ≤ length reading.new.files) }
    ensures nameable { OnRefusal result (IsSourceFault (length reading.new.files)) }
    ensures lexed { IsLexedReading reading.old → OnOk result (IsLexedReading reading.new) }
    ensures reads { OnlyReads F.Folder folder.old folder.new (IsReadFault result) }
{
    let file = reading.files.len();
    let mut own = FileNames::new(alloc);
    own.push(name)?;
    let text = open_file(alloc, folder, &own, None, name.as_bytes(), reading)?;
    let source = Lexer::over(text, file);
    read_file(alloc, folder, setting, LEVELS_BELOW, source, reading)
}

/// What the words define, before any file is read.
fn define_all(alloc: Global, defs: &Defs, macros: &mut Macros) -> Result<(), NoMemory>
    ensures { OnOk result (live_in (rows_of macros.new) ≡ live_after defs.now (live_in (rows_of macros.old))) }
{
    for def in defs.as_slice() {
        let text = match &def.text {
            Some(text) => Some(copy_all(alloc, text.as_slice())?),
            None => None,
        };
        macros.set(alloc, &def.name, text)?;
    }
    Ok(())
}

/// Reads the named files, where nothing was read before, under what the words define.
fn read_all<F: Folder>(
    alloc: Global,
    folder: &mut F,
    setting: Setting<'_>,
    names: &FileNames,
    defs: &Defs,
    reading: &mut Reading,
) -> Result<(), Halt<Fault>>
    requires fresh { state_of reading.now ≡ start [] }
    requires may { MayReadOf F.Folder folder.old (λ files. IsReached setting.paths.now files (IsOneOf names.now)) }
    ensures read { IfSome (F.files folder.old) (λ files. Yields (with_state alone (state_of reading.new) result)
        (ProgramGoes files setting.entry.tool names.now setting.entry.paths.now defs.now)) }
    ensures placed { OnOk result (IsPlaced reading.new) }
    ensures nameable { OnRefusal result (IsSourceFault (length reading.new.files)) }
    ensures lexed { HaveLexedTexts defs.now → OnOk result (IsLexedReading reading.new) }
    ensures reads { OnlyReads F.Folder folder.old folder.new (IsReadFault result) }
{
    define_all(alloc, defs, &mut reading.macros)?;
    read_names(alloc, folder, setting, names, reading)
}

/// What the whole call gives, where reading ended so.
fn finish(
    alloc: Global,
    reading: Reading,
    ended: Result<(), Halt<Fault>>,
) -> Result<Program, Halt<Failure>>
    requires placed { OnOk ended (IsPlaced reading) }
    requires nameable { OnRefusal ended (IsSourceFault (length reading.files)) }
    ensures finished { Finishes ended (state_of reading) result }
    ensures lexed { OnOk ended (IsLexedReading reading) → IfOk result (λ program. AreLexed program.tokens) }
    ensures within { IfOk result (λ program. AreWithin (length program.files) program.tokens) }
    ensures nameable { OnRefusal result (λ failure. IsSourceFault (length failure.files) failure.fault) }
{
    match ended {
        Ok(()) => Ok(into_program(alloc, reading)?),
        Err(Halt::Refused(fault)) => Err(Halt::Refused(Failure {
            fault,
            files: reading.files,
        })),
        Err(Halt::ReadFault) => Err(Halt::ReadFault),
        Err(Halt::NoMemory) => Err(Halt::NoMemory),
    }
}

/// The program of what was read.
fn into_program(alloc: Global, reading: Reading) -> Result<Program, NoMemory>
    ensures program { IfOk result (λ program. IsProgram program (state_of reading)) }
    ensures placed { IfOk result (λ program. (program.files ≡ reading.files) × (program.tokens ≡ reading.tokens)) }
{
    let macros = reading.macros.names(alloc)?;
    let Reading { tokens, files, .. } = reading;
    Ok(Program {
        files,
        tokens,
        macros,
    })
}

/// Reads the named files, one after the other, as one program: with the lines of each included file after the
/// line that includes it, the parts of conditionals that are chosen, and macros in place of words. The words'
/// definitions come first, in their order. An included file is looked for under its name, in UTF-8, and then
/// under it after each path and `/`. The tool decides the values of `rez` and `derez`.
///
/// A refusal is the first fault in the order of the lines, with the files that were opened until then:
/// - 101 where no file has the name, of an included file with the line's mark (kept: the name as it was given);
/// - 102 for a source in UTF-8 that can't be turned into Mac Roman, on its line 1 (kept: the offset);
/// - 103 for an included file on level 17, where a file that the words name is on level 1 (kept: 17);
/// - 104 for a directive of another form (kept: its first token, where that is a word);
/// - 105 for a conditional that is open at the end of its file, 106 for an `#else`, `#elif` or `#endif` that
///   belongs to none, each kept nothing;
/// - 107 to 111, 113 and 115 of the lines and their tokens, as for `Lexer` and `cut` of `rz_lex`;
/// - 112 for a word for which more than 65,536 tokens are handled (kept: the word);
/// - 114 for a condition with more than 1,024 tokens after its macros, with the name of a function, that is no
///   expression or has no value.
///
/// Where the texts of the definitions were cut from lines, each token of the program is one that a line can be
/// cut into, whatever the folder tells: a word of at most 255 bytes, a number below 2^32, a literal of one to
/// four bytes, a text or a sign.
///
/// A read fault comes only where the folder's count of read faults rose. No file changes. Over a folder that tells its
/// files no name is read but those that `specs/Reached` has: those of `names`, and for each of these the names under
/// which a file is looked for that a line of its file includes, and so on. (MPW Rez.)
pub fn preprocess<F: Folder>(
    alloc: Global,
    folder: &mut F,
    tool: Tool,
    names: &FileNames,
    paths: &FileNames,
    defs: &Defs,
) -> Result<Program, Halt<Failure>>
    requires { MayReadOf F.Folder folder.old (λ files. IsReached paths.now files (IsOneOf names.now)) }
    ensures program { IfSome (F.files folder.old) (λ files. Yields result (OfProgram (ProgramGoes files tool names.now paths.now defs.now))) }
    ensures every { IfSome (F.files folder.old) (λ files. (answer : Result State Failure)
        → ProgramGoes files tool names.now paths.now defs.now answer → Yields result (IsAnswer answer)) }
    ensures within { IfOk result (λ program. AreWithin (length program.files) program.tokens) }
    ensures nameable { OnRefusal result (λ failure. IsSourceFault (length failure.files) failure.fault) }
    ensures lexed { HaveLexedTexts defs.now → IfOk result (λ program. AreLexed program.tokens) }
    ensures unchanged { F.files folder.new ≡ F.files folder.old }
    ensures counted { F.read_faults folder.old ≤ F.read_faults folder.new }
    ensures other_count { F.write_faults folder.new ≡ F.write_faults folder.old }
    ensures unwritten { F.writes folder.new ≡ F.writes folder.old }
    ensures allowed { (name : List ℕ) → F.may_read folder.old name → F.may_read folder.new name }
    ensures cause { IsReadFault result → Rose (F.read_faults folder.old) (F.read_faults folder.new) }
{
    one_program();
    let mut reading = Reading::new(alloc);
    let ended = read_all(
        alloc,
        folder,
        Setting { tool, paths },
        names,
        defs,
        &mut reading,
    );
    finish(alloc, reading, ended)
}
