//! The facts of a file, each on a line of its own, as `specs/Text` and `specs/Parts` have them.
#![tactic(auto, using(rz_show_lines::proofs::Writes::writes))]

ghost use Rattle.std.specs.Prelude.{◌≡◌, ◌++◌, codes};
ghost use Rattle.rz_core.specs.Decimal.{decimal_of};
ghost use Rattle.rz_core.specs.Quoted.{literal_text};
ghost use Rattle.rz_lex.specs.Spelled.{digits_of};
ghost use Rattle.rz_show_lines.specs.Cut.{cut};
ghost use Rattle.rz_told.specs.Date.{date_told};
ghost use Rattle.rz_told.specs.Held.{AreStored};
ghost use Rattle.rz_told.specs.Parts.{after_name, before_name, carried_rest, finder_rest, fork_fact, lock_fact};
ghost use Rattle.rz_told.specs.Text.{data_fact, date_facts, fact};

use crate::date::date;
use crate::number::decimal;
use rz_bridge::MacFile;
use rz_bridge_files::Form;
use rz_core::OsType;
use rz_show_lines::Line;

/// What stands up to the name of a file, in a form that has one; of a raw file its form alone.
pub fn before_name(form: Form) -> &'static [u8]
    ensures { result.now ≡ before_name form }
{
    match form {
        Form::Raw => b"form raw\n",
        Form::AppleDouble => b"form double\nname \"",
        Form::AppleSingle => b"form single\nname \"",
        Form::MacBinary => b"form macbin\nname \"",
        Form::BinHex => b"form hqx\nname \"",
    }
}

/// What stands after the name of a file, up to the length of its fork.
pub fn after_name(form: Form, file: &MacFile) -> Line
    ensures { result ≡ after_name form file.now }
{
    are_stored(file);
    let mut line = Line::new();
    carried_rest(form, file, &mut line);
    fork_fact(file, &mut line);
    line
}

/// A law, which reads the dates and the lengths and does nothing with them: they have 32 and 64 bits.
fn are_stored(file: &MacFile)
    ensures { AreStored file.now }
{
    let _created = file.created;
    let _modified = file.modified;
    let _data = file.data_fork.len();
    let _res = file.res_fork.len();
}

/// Writes the facts after the name that a form carries.
fn carried_rest(form: Form, file: &MacFile, line: &mut Line)
    ensures { line.new ≡ cut (line.old ++ carried_rest form file.now) }
{
    match form {
        Form::Raw => line.append(b""),
        Form::AppleDouble => {
            finder_rest(file, line);
            date_facts(file, line);
        }
        Form::AppleSingle => {
            finder_rest(file, line);
            date_facts(file, line);
            data_fact(file, line);
        }
        Form::MacBinary => {
            finder_rest(file, line);
            lock_fact(file, line);
            date_facts(file, line);
            data_fact(file, line);
        }
        Form::BinHex => {
            finder_rest(file, line);
            data_fact(file, line);
        }
    }
}

/// Writes what the Finder keeps, after the name.
#[tactic(auto, using(rz_show_lines::proofs::Writes::writes), unfolding(crate::specs::Parts::finder_rest))]
fn finder_rest(file: &MacFile, line: &mut Line)
    ensures { line.new ≡ cut (line.old ++ finder_rest file.now) }
{
    line.append(b"\"\n");
    type_fact(b"type", file.finder.kind, line);
    type_fact(b"creator", file.finder.creator, line);
    flags_fact(file.finder.flags, line);
}

/// Writes the Finder's flags.
#[tactic(auto, using(rz_show_lines::proofs::Writes::writes), unfolding(crate::specs::Text::fact))]
fn flags_fact(flags: u16, line: &mut Line)
    ensures { line.new ≡ cut (line.old ++ fact (codes "flags") (codes "0x" ++ digits_of 16 4 flags)) }
{
    line.append(b"flags ");
    line.hex(4, u32::from(flags));
    line.push(b'\n');
}

/// Writes whether the file is locked.
#[tactic(auto, using(rz_show_lines::proofs::Writes::writes), unfolding(crate::specs::Parts::lock_fact, crate::specs::Text::fact))]
fn lock_fact(file: &MacFile, line: &mut Line)
    ensures { line.new ≡ cut (line.old ++ lock_fact file.now) }
{
    line.append(b"locked ");
    line.append(if file.locked { b"true" } else { b"false" });
    line.push(b'\n');
}

/// Writes when the file was made and when it was last changed.
#[tactic(auto, using(rz_show_lines::proofs::Writes::writes), unfolding(crate::specs::Text::date_facts))]
fn date_facts(file: &MacFile, line: &mut Line)
    ensures { line.new ≡ cut (line.old ++ date_facts file.now) }
{
    date_fact(b"created", file.created, line);
    date_fact(b"modified", file.modified, line);
}

/// Writes the length of the data fork.
#[tactic(auto, using(rz_show_lines::proofs::Writes::writes), unfolding(crate::specs::Text::data_fact))]
fn data_fact(file: &MacFile, line: &mut Line)
    ensures { line.new ≡ cut (line.old ++ data_fact file.now) }
{
    number_fact(b"data", file.data_fork.len(), line);
}

/// Writes the length of the resource fork.
#[tactic(auto, using(rz_show_lines::proofs::Writes::writes), unfolding(crate::specs::Parts::fork_fact))]
fn fork_fact(file: &MacFile, line: &mut Line)
    ensures { line.new ≡ cut (line.old ++ fork_fact file.now) }
{
    number_fact(b"fork", file.res_fork.len(), line);
}

/// Writes a word and a number after it.
#[tactic(auto, using(rz_show_lines::proofs::Writes::writes), unfolding(crate::specs::Text::fact))]
pub fn number_fact(word: &[u8], number: u64, line: &mut Line)
    ensures { line.new ≡ cut (line.old ++ fact word.now (decimal_of number)) }
{
    line.append(word);
    line.push(b' ');
    decimal(number, line);
    line.push(b'\n');
}

/// Writes a word and a type after it, as a literal.
#[tactic(auto, using(rz_show_lines::proofs::Writes::writes), unfolding(crate::specs::Text::fact))]
fn type_fact(word: &[u8], kind: OsType, line: &mut Line)
    ensures { line.new ≡ cut (line.old ++ fact word.now (literal_text kind.code)) }
{
    line.append(word);
    line.push(b' ');
    line.literal(4, kind.code);
    line.push(b'\n');
}

/// Writes a word and a date after it.
#[tactic(auto, using(rz_show_lines::proofs::Writes::writes), unfolding(crate::specs::Text::fact))]
fn date_fact(word: &[u8], seconds: u32, line: &mut Line)
    ensures { line.new ≡ cut (line.old ++ fact word.now (date_told seconds)) }
{
    line.append(word);
    line.push(b' ');
    date(seconds, line);
    line.push(b'\n');
}
