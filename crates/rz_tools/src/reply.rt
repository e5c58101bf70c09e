//! What is to be carried out, and the call that does it: an answer that is held whole, or the text of a fork or of a
//! file, which is put line by line. Which answers it stands for is in `specs/Reply`.

ghost use Rattle.std.specs.Prelude.{◌≡◌, ◌⊎◌};
ghost use Rattle.rz_core.specs.Stop.{seen};
ghost use Rattle.rz_tools.specs.Reply.{outcome_of, IsReply, IsSound, IsText};
ghost use Rattle.rz_tools_answer.specs.Answer.{Answer};
ghost use Rattle.rz_tools_answer.specs.Carried.{CarriesOut, IsTriedOnce};
ghost use Rattle.rz_tools_answer.specs.World.{Runs};

use rz_core::{Bytes, Halt};
use rz_folder::{Folder, Sink};
use rz_told::FileText;
use rz_tools_answer::{Outcome, Plan, carry_out, say_end};
use rz_tools_text::{ForkText, every_list_is_shown};
use std::alloc::Global;
use std::convert::Infallible;

/// The text of a fork, which is not made yet, and what is said beside it.
#[derive(Drop)]
pub struct ForkShown {
    /// The text.
    pub text: ForkText,
    /// The lines of warnings.
    pub said: Bytes,
}

/// What is to be carried out.
#[derive(Drop)]
pub enum Reply {
    /// An answer that is held whole.
    Plan(Plan),
    /// The text of a fork, which is put line by line.
    Text(ForkShown),
    /// What a file holds, which is put piece by piece.
    List(FileText),
}

impl Reply {
    /// Carries it out: a plan as [`carry_out`] does; of a fork or a file the text is put line by line, and then what is
    /// to be said is said, after it the line of what went wrong. NoMemory comes only for the text of a fork, and before
    /// all of it is put: what `err` does changes no outcome. What failed isn't tried again: the output counts as
    /// many faults as before, or, after a write fault, one more.
    pub fn carry_out<F: Folder, O: Sink, E: Sink>(
        self,
        alloc: Global,
        folder: &mut F,
        out: &mut O,
        err: &mut E,
    ) -> Outcome
        requires { IsSound self }
        ensures carried { Runs F.Folder O.Sink E.Sink folder.old folder.new out.old out.new err.old err.new
            (λ before after. (done : Answer) × IsReply self done × CarriesOut done before after result) }
        ensures ended { (result ≡ outcome_of self) ⊎ (result ≡ Outcome.WriteFault)
            ⊎ ((result ≡ Outcome.NoMemory) × IsText self) }
        ensures tried { IsTriedOnce (O.faults out.old) (O.faults out.new) result }
    {
        every_list_is_shown();
        match self {
            Reply::Plan(plan) => carry_out(plan, folder, out, err),
            Reply::Text(shown) => {
                let put = shown.text.put(alloc, out);
                say_end(put, shown.said.as_slice(), err)
            }
            Reply::List(text) => {
                let put = text.put(out);
                say_end(Ok(put), &[], err)
            }
        }
    }
}

/// What is to be carried out of a plan.
pub fn planned(plan: Result<Plan, Halt<Infallible>>) -> Result<Reply, Halt<Infallible>>
    ensures { result ≡ seen (λ plan. Reply.Plan plan) plan }
{
    Ok(Reply::Plan(plan?))
}
