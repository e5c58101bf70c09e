//! The laws of answers: one is carried out, but for want of memory, a failed read or a failed write; no warning
//! refuses; and where a text that is out stands.

ghost use Rattle.std.specs.Prelude.{◌≡◌, ◌≢◌, ◌⊎◌, ◌++◌, ℕ, List};
ghost use Rattle.rz_core.specs.declared.fault.Fault.{Fault};
ghost use Rattle.rz_folder.specs.Sink.{all_out, IsOut, Stream};
ghost use Rattle.rz_tools_answer.specs.Answer.{Answer};
ghost use Rattle.rz_tools_answer.specs.Carried.{CarriesOut};
ghost use Rattle.rz_tools_answer.specs.WellFormed.{IsWellFormed};
ghost use Rattle.rz_tools_answer.specs.World.{ReadFailed, World, WriteFailed};
ghost use Rattle.rz_tools_answer.specs.declared.outcome.Outcome.{Outcome};
ghost use Rattle.rz_tools_answer.specs.declared.outcome.Outcome.TheVariants.{Done, NoMemory, Refused};

/// A law, with nothing to run: a run that carries out an answer ends as the answer does, unless memory was refused, a
/// read failed, or, where the answer is Done, a write failed.
pub fn answers_are_carried_out()
    ensures { (answer : Answer) (before after : World) (result : Outcome) → CarriesOut answer before after result
        → (result ≡ answer.outcome) ⊎ (result ≡ NoMemory) ⊎ ReadFailed before after ⊎ ((answer.outcome ≡ Done) × WriteFailed before after) }
{}

/// A law, with nothing to run: the fault of a refusal never has the number of the one warning.
pub fn no_warning_refuses()
    ensures { (answer : Answer) (fault : Fault) → IsWellFormed answer → answer.outcome ≡ Refused fault → fault.number ≢ 240 }
{}

/// A law, with nothing to run: on a stream that holds nothing back, a text that is out stands right after all bytes
/// that were out before, also where it is empty, and nothing is held back.
pub fn texts_stand_after_what_was_out()
    ensures { (text bytes : List ℕ) (after : Stream) → IsOut text (all_out bytes) after → after ≡ all_out (bytes ++ text) }
{}
