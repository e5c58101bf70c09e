//! `sample`: a source of its own is compiled, its fork shown, and the text compiled again. What it answers is in
//! `specs/Sample`.

ghost use Rattle.std.specs.Prelude.{◌≡◌, [], codes, IfOk, OnOk};
ghost use Rattle.std.specs.FinMap as finite;
ghost use Rattle.rz_core.specs.Stop.{seen, IsReadFault, OnRefusal, Yields};
ghost use Rattle.rz_tools.specs.DeRez.{IsFork};
ghost use Rattle.rz_tools.specs.Held.{derez, rez};
ghost use Rattle.rz_tools.specs.Sample.{derez_of, rez_of, CompilesAgain, CompilesSample, IsSampled, ShowsSample};
ghost use Rattle.rz_tools_answer.specs.Made.{making_of, IsSayable, IsWarned};
ghost use Rattle.rz_tools_text.specs.Put.{IsTextOf};

use crate::derez::{DeRezWords, read_and_show};
use crate::reply::ForkShown;
use crate::rez::{RezWords, compile};
use crate::sources::SourceWords;
use rz_core::{Bytes, FileNames, Halt, Listing, Moment, NoMemory};
use rz_folder::{Put, Shelf, TextSink};
use rz_pre::Defs;
use rz_tools_answer::{Failing, Made};
use rz_tools_output::{Target, sample_lines, sample_source, sample_types};
use rz_tools_text::every_list_is_shown;
use std::alloc::Global;

/// The lines of a sample of so many resources, or what stopped it: the number of resources, and the numbers of bytes of
/// their fork, of its text, and of the fork of that text.
pub fn sampled(alloc: Global, count: u32, moment: Moment) -> Result<Made, Halt<Failing>>
    ensures lines { Yields (seen making_of result) (IsSampled count moment) }
    ensures good { IfOk (seen making_of result) IsWarned }
    ensures bad { OnRefusal (seen making_of result) IsSayable }
    ensures unread { IsReadFault (seen making_of result) → ⊥ }
{
    let fork = compile_source(alloc, count, moment)?;
    let text = show_fork(alloc, &fork.bytes, moment)?;
    let again = compile_text(alloc, &text.bytes, moment)?;
    let bytes = sample_lines(alloc, count, &fork.bytes, &text.bytes, &again.bytes)?;
    Ok(Made {
        bytes,
        said: Bytes::new(alloc),
    })
}

/// The fork of the source.
fn compile_source(alloc: Global, count: u32, moment: Moment) -> Result<Made, Halt<Failing>>
    ensures made { Yields (seen making_of result) (CompilesSample count moment) }
    ensures bad { OnRefusal (seen making_of result) IsSayable }
    ensures unread { IsReadFault (seen making_of result) → ⊥ }
{
    let source = sample_source(alloc, count)?;
    let mut shelf = Shelf::new(alloc);
    hold(&mut shelf, "source", source.as_slice())?;
    let mut files = FileNames::new(alloc);
    files.push("source")?;
    compile(alloc, &mut shelf, &rez_words(alloc, files), moment)
}

/// The text of a fork, under the type of the source.
fn show_fork(alloc: Global, fork: &Bytes, moment: Moment) -> Result<Made, Halt<Failing>>
    ensures made { Yields (seen making_of result) (ShowsSample moment fork.now) }
    ensures bad { OnRefusal (seen making_of result) IsSayable }
    ensures unread { IsReadFault (seen making_of result) → ⊥ }
{
    let mut shelf = Shelf::new(alloc);
    hold(&mut shelf, "fork", fork.as_slice())?;
    hold(&mut shelf, "types", sample_types())?;
    let shown = read_and_show(alloc, &mut shelf, derez_words(alloc)?, moment)?;
    Ok(whole_text(alloc, shown)?)
}

/// The text of a fork, whole, and what is said beside it.
fn whole_text(alloc: Global, shown: ForkShown) -> Result<Made, NoMemory>
    requires { IsFork shown.text.fork }
    ensures text { IfOk result (λ made. IsTextOf shown.text made.bytes) }
    ensures said { IfOk result (λ made. made.said ≡ shown.said) }
{
    every_list_is_shown();
    let ForkShown { text, said } = shown;
    let mut sink = TextSink::new(alloc);
    let put = text.put(alloc, &mut sink);
    drop(text);
    match put? {
        Put::Done => Ok(Made {
            bytes: sink.into_bytes(),
            said,
        }),
        Put::Failed => Err(NoMemory),
    }
}

/// The fork of a text, after the type of the source.
fn compile_text(alloc: Global, text: &Bytes, moment: Moment) -> Result<Made, Halt<Failing>>
    ensures made { Yields (seen making_of result) (CompilesAgain moment text.now) }
    ensures bad { OnRefusal (seen making_of result) IsSayable }
    ensures unread { IsReadFault (seen making_of result) → ⊥ }
{
    let mut shelf = Shelf::new(alloc);
    hold(&mut shelf, "types", sample_types())?;
    hold(&mut shelf, "text", text.as_slice())?;
    let mut files = FileNames::new(alloc);
    files.push("types")?;
    files.push("text")?;
    compile(alloc, &mut shelf, &rez_words(alloc, files), moment)
}

/// Puts a file on a shelf, which takes fewer than 2^32 bytes, as each folder.
fn hold(shelf: &mut Shelf, name: &str, bytes: &[u8]) -> Result<(), NoMemory>
    ensures { OnOk result (shelf.new.files ≡ finite.insert shelf.old.files name.now bytes.now) }
{
    if bytes.len() > u32::MAX as usize {
        return Err(NoMemory);
    }
    shelf.insert(name, bytes)
}

/// What `rez` is asked for by the names of its sources alone.
fn rez_words(alloc: Global, files: FileNames) -> RezWords<'static>
    ensures asked { rez result ≡ rez_of files }
    ensures defs { result.sources.defs ≡ [] }
{
    RezWords {
        sources: SourceWords {
            files,
            paths: FileNames::new(alloc),
            defs: Defs::new(alloc),
            tmpl: None,
            redeclare: false,
        },
        searches: FileNames::new(alloc),
        append: false,
        over: false,
        target: Target::named("fork"),
    }
}

/// What `derez` is asked for by the names of the fork and of the file of its type.
fn derez_words(alloc: Global) -> Result<DeRezWords<'static>, NoMemory>
    ensures asked { IfOk result (λ words. derez words ≡ derez_of (codes "fork") (codes "types")) }
    ensures defs { IfOk result (λ words. words.types.defs ≡ []) }
{
    let mut files = FileNames::new(alloc);
    files.push("types")?;
    Ok(DeRezWords {
        file: "fork".to_string(alloc)?,
        from: None,
        only: Listing::new(alloc),
        skip: Listing::new(alloc),
        types: SourceWords {
            files,
            paths: FileNames::new(alloc),
            defs: Defs::new(alloc),
            tmpl: None,
            redeclare: false,
        },
    })
}
