//! The top call: an answer is made, and then carried out. What a run promises is the contract of `run`.

ghost use Rattle.std.specs.Prelude.{map};
ghost use Rattle.std.specs.String.{string_bytes};
ghost use Rattle.rz_folder.specs.MayRead.{MayReadOf};
ghost use Rattle.rz_tools.specs.Asked.{WordsAsk};
ghost use Rattle.rz_tools.specs.Headline.{Headline};
ghost use Rattle.rz_tools_answer.specs.World.{Runs};

use crate::answer::answer;
use crate::laws::{
    catalogues_are_put_back, every_answer, one_answer, reserved_words_are_spared,
    shown_forks_are_read_again,
};
use rz_catalog::{changed_catalogue, others_stay};
use rz_core::{Halt, Moment};
use rz_folder::{Folder, Sink};
use rz_tools_answer::{NO_MEMORY, Outcome, READ_FAULT, put_line};
use rz_tools_args::{definitions_are_free, one_command};
use std::alloc::Global;

/// Carries out the one answer to the arguments: its outcome, the files, and what `out` and `err` get are the answer's.
/// `words` are the arguments after the program's name. They have exactly one answer, if the folder tells its files
/// ([`every_answer`], [`one_answer`]).
///
/// Usage comes exactly where the words are no command, and, if the folder tells its files, Refused only with the first
/// fault. ReadFault and WriteFault come only where a read, or a write of the folder or of `out`, failed in this call.
/// After Done the text is out, after all that `out` held back before, and `out` holds nothing back; if the text is
/// empty, `out` may also be as before. What failed isn't tried again: `out` counts as many faults as before, or, after
/// WriteFault, one more.
/// After Usage, Refused and ReadFault the folder is as before and `out` has got nothing; after NoMemory the folder is
/// as before, and `out` has got nothing, or a front of its text and not the whole text; after WriteFault the writes
/// before the one that failed are done, and but for that one's file and a front of `out` all else is as before. No byte
/// that was out is taken back. After `derez` of a fork, where the resources that are shown have at most 16,777,212
/// bytes each, the text on `out` means these resources again to `rez`. After `strings` the catalogue on `out`, put back
/// under the same types, gives the resources of its fork again, or 219 where a protected one has a text and may not be
/// changed. After `restring` the row of each resource has the catalogue's texts in place of its own, counts and labels
/// are solved again, and all else of the resources stays. What `err` does changes no outcome. NoMemory may come in
/// place of any other answer.
///
/// No name is read but those that the words ask for, as `specs/Asked` says; the folder has to allow these. A folder
/// that doesn't tell its files has to allow all names.
pub fn run<F: Folder, O: Sink, E: Sink>(
    alloc: Global,
    words: &[String],
    folder: &mut F,
    out: &mut O,
    err: &mut E,
    moment: Moment,
) -> Outcome
    requires { MayReadOf F.Folder folder.old (WordsAsk (map string_bytes words.now)) }
    ensures { Runs F.Folder O.Sink E.Sink folder.old folder.new out.old out.new err.old err.new
        (λ before after. Headline (record { words = map string_bytes words.now; moment = moment; before = before; after = after; result = result })) }
{
    one_answer();
    every_answer();
    one_command();
    shown_forks_are_read_again();
    reserved_words_are_spared();
    definitions_are_free();
    catalogues_are_put_back();
    changed_catalogue();
    others_stay();
    match answer(alloc, words, folder, moment) {
        Ok(reply) => reply.carry_out(alloc, folder, out, err),
        Err(Halt::ReadFault) => {
            put_line(READ_FAULT, err);
            Outcome::ReadFault
        }
        Err(Halt::NoMemory) => {
            put_line(NO_MEMORY, err);
            Outcome::NoMemory
        }
    }
}
