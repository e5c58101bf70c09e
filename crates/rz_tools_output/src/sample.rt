//! The source of a sample: a type, and resources of it whose rows follow from their numbers; and the lines that are
//! said of it. What they are is in `specs/SampleSource`.

ghost use Rattle.std.specs.Prelude.{◌≡◌, ◌<◌, ◌++◌, IfOk, OnOk};
ghost use Rattle.rz_tools_output.specs.SampleSource.{number_line, rows_text, sample_lines, sample_row, sample_rows, sample_source, sample_statement, sample_types};

use rz_core::{Bytes, NoMemory, write_decimal};
use std::alloc::Global;

/// The text of the longest row.
const LETTERS: &[u8; 4] = b"aaaa";

/// The line that declares the type.
#[tactic(auto, unfolding(crate::specs::SampleSource::sample_types))]
pub fn sample_types() -> &'static [u8]
    ensures { result.now ≡ sample_types }
{
    b"type 'Samp' { integer = $$CountOf(r); array r { byte; pstring; }; };\n"
}

/// The type, and so many resources of it.
pub fn sample_source(alloc: Global, count: u32) -> Result<Bytes, NoMemory>
    ensures { IfOk result (λ source. source ≡ sample_source count) }
{
    let mut source = Bytes::of(alloc, sample_types())?;
    for k in 0..count {
        write_statement(k, &mut source)?;
    }
    Ok(source)
}

/// The line of a resource.
#[tactic(auto, unfolding(crate::specs::SampleSource::sample_statement))]
fn write_statement(k: u32, into: &mut Bytes) -> Result<(), NoMemory>
    ensures { OnOk result (into.new ≡ into.old ++ sample_statement k) }
{
    into.append(b"resource 'Samp' (")?;
    write_decimal(u64::from(k), into)?;
    into.append(b") { { ")?;
    write_rows(k, into)?;
    into.append(b" } };\n")?;
    Ok(())
}

/// The rows of a resource.
fn write_rows(k: u32, into: &mut Bytes) -> Result<(), NoMemory>
    ensures { OnOk result (into.new ≡ into.old ++ rows_text (sample_rows k)) }
{
    for j in 0..k % 8 {
        if 0 < j {
            into.append(b", ")?;
        }
        write_row(k, j, into)?;
    }
    Ok(())
}

/// One row of a resource.
#[tactic(auto, unfolding(crate::specs::SampleSource::sample_row))]
fn write_row(k: u32, j: u32, into: &mut Bytes) -> Result<(), NoMemory>
    ensures { OnOk result (into.new ≡ into.old ++ sample_row k j) }
{
    let (k, j) = (u64::from(k), u64::from(j));
    let letters = ((k + j) % 5) as usize;
    write_decimal((7 * k + 13 * j) % 128, into)?;
    into.append(b", \"")?;
    into.append(&LETTERS[..letters])?;
    into.append(b"\"")?;
    Ok(())
}

/// How many resources there are, and how many bytes the fork, its text and the second fork have.
pub fn sample_lines(
    alloc: Global,
    count: u32,
    fork: &Bytes,
    text: &Bytes,
    again: &Bytes,
) -> Result<Bytes, NoMemory>
    ensures { IfOk result (λ lines. lines ≡ sample_lines count fork.now text.now again.now) }
{
    let mut lines = Bytes::new(alloc);
    write_line(b"resources ", u64::from(count), &mut lines)?;
    write_line(b"fork ", fork.len(), &mut lines)?;
    write_line(b"text ", text.len(), &mut lines)?;
    write_line(b"again ", again.len(), &mut lines)?;
    Ok(lines)
}

/// A line: a word and a number.
fn write_line(word: &[u8], number: u64, into: &mut Bytes) -> Result<(), NoMemory>
    ensures { OnOk result (into.new ≡ into.old ++ number_line word.now number) }
{
    into.append(word)?;
    write_decimal(number, into)?;
    into.append(b"\n")?;
    Ok(())
}
