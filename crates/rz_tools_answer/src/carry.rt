//! An answer is carried out: files, output, messages. What a run then leaves is in `specs/Carried`.

ghost use Rattle.std.specs.Prelude.{◌≡◌, ◌≤◌, ◌⊎◌, ◌++◌, [], map, Ok};
ghost use Rattle.rz_folder.specs.Counts.{faults_with, Rose};
ghost use Rattle.rz_folder.specs.Sink.{GotFront, IsOut, PutsOut, Told};
ghost use Rattle.rz_tools_answer.specs.Plan.{answer_of, write_of, WritesEach};
ghost use Rattle.rz_tools_answer.specs.Carried.{end_of, said_behind, CarriesOut, IsTriedOnce};
ghost use Rattle.rz_tools_answer.specs.World.{Runs, Says};
ghost use Rattle.rz_tools_answer.specs.Message.{write_fault_line};
ghost use Rattle.rz_tools_answer.specs.WellFormed.{AreWritable, IsWellFormed};

use crate::message::{NO_MEMORY, WRITE_FAULT};
use crate::outcome::Outcome;
use crate::plan::{Plan, Writes};
use rz_core::NoMemory;
use rz_folder::{Folder, Put, Sink, Written};

/// Carries out an answer: writes the files, then puts the text of the output and sees to it that it is out, and says its
/// text. What failed isn't tried again: the output counts as many faults as before, or, after a write fault, one more.
pub fn carry_out<F: Folder, O: Sink, E: Sink>(
    plan: Plan,
    folder: &mut F,
    out: &mut O,
    err: &mut E,
) -> Outcome
    requires well_formed { IsWellFormed (answer_of plan) }
    requires writable { AreWritable (answer_of plan).writes }
    ensures carried { Runs F.Folder O.Sink E.Sink folder.old folder.new out.old out.new err.old err.new
        (λ before after. CarriesOut (answer_of plan) before after result) }
    ensures ended { (result ≡ plan.outcome) ⊎ (result ≡ Outcome.WriteFault) }
    ensures tried { IsTriedOnce (O.faults out.old) (O.faults out.new) result }
{
    let Plan {
        outcome,
        writes,
        out: text,
        err: said,
    } = plan;
    match write_all(&writes, folder) {
        Written::Done => match put_text(text.as_slice(), out) {
            Put::Done => {
                put_line(said.as_slice(), err);
                outcome
            }
            Put::Failed => say_write_fault(said.as_slice(), err),
        },
        Written::Failed => say_write_fault(said.as_slice(), err),
    }
}

/// Says how a run ends whose text was put so: this text, and after it the line of what went wrong. The text for standard
/// output is put by then, or a front of it.
pub fn say_end<E: Sink>(put: Result<Put, NoMemory>, said: &[u8], err: &mut E) -> Outcome
    ensures outcome { result ≡ end_of put }
    ensures says { Says (said_behind put said.now) (E.stream err.old) (E.stream err.new) (E.faults err.old) (E.faults err.new) }
{
    match put {
        Ok(Put::Done) => {
            put_line(said, err);
            Outcome::Done
        }
        Ok(Put::Failed) => say_write_fault(said, err),
        Err(NoMemory) => {
            put_lines(said, NO_MEMORY, err);
            Outcome::NoMemory
        }
    }
}

/// Says that a write failed, after what is said in any case.
fn say_write_fault<E: Sink>(said: &[u8], err: &mut E) -> Outcome
    ensures outcome { result ≡ Outcome.WriteFault }
    ensures says { Says (said.now ++ write_fault_line) (E.stream err.old) (E.stream err.new) (E.faults err.old) (E.faults err.new) }
{
    put_lines(said, WRITE_FAULT, err);
    Outcome::WriteFault
}

/// Writes files one after the other, each in one write, up to one whose write fails.
fn write_all<F: Folder>(writes: &Writes, folder: &mut F) -> Written
    requires { AreWritable (map write_of writes.now) }
    ensures told { WritesEach (map write_of writes.now) (F.files folder.old) (F.files folder.new) (F.writes folder.old) (F.writes folder.new) result }
    ensures nothing { map write_of writes.now ≡ [] → (result ≡ Written.Done) × (F.files folder.new ≡ F.files folder.old) }
    ensures counted { F.write_faults folder.old ≤ F.write_faults folder.new }
    ensures cause { result ≡ Written.Failed → Rose (F.write_faults folder.old) (F.write_faults folder.new) }
    ensures other_count { F.read_faults folder.new ≡ F.read_faults folder.old }
{
    for write in writes.as_slice() {
        match folder.write(&write.name, write.bytes.as_slice()) {
            Written::Done => {}
            Written::Failed => return Written::Failed,
        }
    }
    Written::Done
}

/// Puts the text of the output, where it isn't empty, and sees to it that it is out.
fn put_text<O: Sink>(text: &[u8], out: &mut O) -> Put
    ensures done { result ≡ Put.Done → Told (IsOut text.now) (O.stream out.old) (O.stream out.new) }
    ensures failed { result ≡ Put.Failed → Told (GotFront text.now) (O.stream out.old) (O.stream out.new) }
    ensures nothing { text.now ≡ [] → (result ≡ Put.Done) × (O.stream out.new ≡ O.stream out.old) }
    ensures counted { O.faults out.new ≡ faults_with (O.faults out.old) result }
{
    if text.is_empty() {
        Put::Done
    } else {
        put_out(text, out)
    }
}

/// Puts a text, and sees to it that it is out.
fn put_out<S: Sink>(text: &[u8], sink: &mut S) -> Put
    ensures told { PutsOut text.now (S.stream sink.old) (S.stream sink.new) (Ok result) }
    ensures counted { S.faults sink.new ≡ faults_with (S.faults sink.old) result }
{
    match sink.put(text) {
        Put::Done => sink.flush(),
        Put::Failed => Put::Failed,
    }
}

/// Puts lines and then a line, and sees to it that both are out. A failure changes nothing here, for there is no other
/// place to report it to; after it nothing more is put.
fn put_lines<E: Sink>(lines: &[u8], line: &[u8], err: &mut E)
    ensures { Says (lines.now ++ line.now) (E.stream err.old) (E.stream err.new) (E.faults err.old) (E.faults err.new) }
{
    if lines.is_empty() {
        put_line(line, err);
    } else {
        match err.put(lines) {
            Put::Done => {
                let _ = put_out(line, err);
            }
            Put::Failed => {}
        }
    }
}

/// Puts a line, where it isn't empty, and sees to it that it is out.
pub fn put_line<E: Sink>(line: &[u8], err: &mut E)
    ensures { Says line.now (E.stream err.old) (E.stream err.new) (E.faults err.old) (E.faults err.new) }
{
    if !line.is_empty() {
        let _ = put_out(line, err);
    }
}
