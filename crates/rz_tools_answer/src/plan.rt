//! An answer before it is carried out: outcome, writes, output and messages, as `specs/Plan` sees them.

ghost use Rattle.std.specs.Prelude.{◌≡◌, length, [], map, Err, IfOk};
ghost use Rattle.rz_core.specs.Message.{IsNameable};
ghost use Rattle.rz_tools_answer.specs.Answer.{misused, refused, shown, written};
ghost use Rattle.rz_core.specs.Stop.{seen, OnRefusal};
ghost use Rattle.rz_core.specs.declared.stop.Halt.TheVariants.{ReadFault};
ghost use Rattle.rz_tools_answer.specs.Made.{making_of, FitsFile, IsSayable, IsWarned};
ghost use Rattle.rz_tools_answer.specs.Plan.{answer_of, write_of, IsRefused, EndsIn};
ghost use Rattle.rz_tools_answer.specs.Plans.{Concludes};
ghost use Rattle.rz_tools_answer.specs.WellFormed.{AreWritable, IsWellFormed};
ghost use Rattle.rz_tools_answer.specs.declared.made.Made.{Made as MadeOf};

use crate::made::{Failing, Made};
use crate::message::usage_line;
use crate::outcome::Outcome;
use rz_core::{Bytes, Fault, FileNames, Halt, Listing, NoMemory, write_fault};
use rz_tools_args::UsageFault;
use std::alloc::Global;
use std::convert::Infallible;

/// A file to write.
#[derive(Drop)]
pub struct Write {
    /// Its name.
    pub name: String,
    /// What it is to hold.
    pub bytes: Bytes,
}

/// Files to write, one after the other.
pub type Writes = Listing<Write>;

/// The answer to words, before anything of it is carried out. All memory that it takes is taken.
#[derive(Drop)]
pub struct Plan {
    /// How the run is to end: Done, Usage or Refused.
    pub outcome: Outcome,
    /// The files to write, one after the other.
    pub writes: Writes,
    /// The text for standard output.
    pub out: Bytes,
    /// The text for standard error.
    pub err: Bytes,
}

impl Plan {
    /// To write what was made to the file of this name.
    pub fn written(alloc: Global, name: &str, made: Made) -> Result<Plan, NoMemory>
        ensures { IfOk result (λ plan. answer_of plan ≡ written name.now (making_of made)) }
    {
        let Made { bytes, said } = made;
        let mut writes = Writes::new(alloc);
        writes.push(Write {
            name: name.to_string(alloc)?,
            bytes,
        })?;
        Ok(Plan {
            outcome: Outcome::Done,
            writes,
            out: Bytes::new(alloc),
            err: said,
        })
    }

    /// To write these files, and to say nothing.
    pub fn writing(alloc: Global, writes: Writes) -> Plan
        ensures { answer_of result ≡ record { outcome = Outcome.Done; writes = map write_of writes; out = []; err = [] } }
    {
        Plan {
            outcome: Outcome::Done,
            writes,
            out: Bytes::new(alloc),
            err: Bytes::new(alloc),
        }
    }

    /// To write what was made to standard output.
    pub fn shown(alloc: Global, made: Made) -> Plan
        ensures { answer_of result ≡ shown (making_of made) }
    {
        let Made { bytes, said } = made;
        Plan {
            outcome: Outcome::Done,
            writes: Writes::new(alloc),
            out: bytes,
            err: said,
        }
    }

    /// To write a text to standard output.
    pub fn text(alloc: Global, text: &[u8]) -> Result<Plan, NoMemory>
        ensures { IfOk result (λ plan. answer_of plan ≡ shown (record { bytes = text.now; said = [] })) }
    {
        let made = Made {
            bytes: Bytes::of(alloc, text)?,
            said: Bytes::new(alloc),
        };
        Ok(Plan::shown(alloc, made))
    }

    /// To write what a command made to the file of this name, or to say what stopped it.
    pub fn to_write(
        alloc: Global,
        name: &str,
        made: Result<Made, Halt<Failing>>,
    ) -> Result<Plan, Halt<Infallible>>
        requires good { IfOk (seen making_of made) FitsFile }
        requires bad { OnRefusal (seen making_of made) IsSayable }
        ensures { Concludes (written name.now) made result }
    {
        match made {
            Ok(made) => Ok(Plan::written(alloc, name, made)?),
            Err(halt) => Plan::stopped(alloc, halt),
        }
    }

    /// To write what a command made to standard output, or to say what stopped it.
    pub fn to_show(
        alloc: Global,
        made: Result<Made, Halt<Failing>>,
    ) -> Result<Plan, Halt<Infallible>>
        requires good { IfOk (seen making_of made) IsWarned }
        requires bad { OnRefusal (seen making_of made) IsSayable }
        ensures { Concludes shown made result }
    {
        match made {
            Ok(made) => Ok(Plan::shown(alloc, made)),
            Err(halt) => Plan::stopped(alloc, halt),
        }
    }

    /// To say that the words are no command.
    pub fn misused(alloc: Global, fault: UsageFault) -> Result<Plan, NoMemory>
        ensures { IfOk result (λ plan. answer_of plan ≡ misused fault.position) }
    {
        let err = usage_line(alloc, fault)?;
        Ok(Plan::said(alloc, Outcome::Usage(fault), err))
    }

    /// To say what was said before a fault, and then the line of the fault, where these are the files that marks count.
    #[tactic(auto, using(crate::proofs::Warnings::refusal_line))]
    pub fn refused(
        alloc: Global,
        fault: Fault,
        files: &FileNames,
        said: Bytes,
    ) -> Result<Plan, NoMemory>
        requires { IsNameable (length files.now) fault }
        ensures { IfOk result (λ plan. answer_of plan ≡ refused (record { fault = fault; files = files.now; said = said })) }
    {
        let mut err = said;
        write_fault(&fault, files, &mut err)?;
        Ok(Plan::said(alloc, Outcome::Refused(fault), err))
    }

    /// The answer where this stopped a command: the refusal, or none.
    pub fn stopped(alloc: Global, halt: Halt<Failing>) -> Result<Plan, Halt<Infallible>>
        requires { OnRefusal {X = MadeOf} (Err halt) IsSayable }
        ensures refused { IfOk result (λ plan. EndsIn halt (answer_of plan)) }
        ensures well_formed { IfOk result (λ plan. IsWellFormed (answer_of plan)) }
        ensures writable { IfOk result (λ plan. AreWritable (answer_of plan).writes) }
        ensures no_usage { IfOk result (λ plan. IsRefused plan.outcome) }
        ensures read_fault { result ≡ Err ReadFault → halt ≡ ReadFault }
    {
        match halt {
            Halt::Refused(failing) => {
                let Failing { fault, files, said } = failing;
                Ok(Plan::refused(alloc, fault, &files, said)?)
            }
            Halt::ReadFault => Err(Halt::ReadFault),
            Halt::NoMemory => Err(Halt::NoMemory),
        }
    }

    /// To end so and to say this, and nothing else.
    fn said(alloc: Global, outcome: Outcome, err: Bytes) -> Plan
        ensures { answer_of result ≡ record { outcome = outcome; writes = []; out = []; err = err } }
    {
        Plan {
            outcome,
            writes: Writes::new(alloc),
            out: Bytes::new(alloc),
            err,
        }
    }
}
