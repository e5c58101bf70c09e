//! The lines of warnings, before a command's work or its refusal. A new warning is one more number of `specs/Warning`.

ghost use Rattle.std.specs.Prelude.{◌≡◌, ℕ, List, length, Err, IfOk};
ghost use Rattle.rz_core.specs.Message.{IsNameable};
ghost use Rattle.rz_core.specs.Stop.{OnRefusal};
ghost use Rattle.rz_tools_answer.specs.Made.{IsBeside, IsSayable};
ghost use Rattle.rz_tools_answer.specs.Warning.{warning_lines, AreWarnings};

use crate::made::{Failing, Made};
use rz_core::{Bytes, Fault, FileNames, Halt, Listing, NoMemory, write_fault};
use std::alloc::Global;

/// A list of faults.
pub type Faults = Listing<Fault>;

/// What a command makes, with the lines of the warnings; or what stopped it, a refusal after these lines.
pub fn say_beside(
    alloc: Global,
    output: Result<Bytes, Halt<Fault>>,
    warnings: &Faults,
    files: FileNames,
) -> Result<Made, Halt<Failing>>
    requires fault { OnRefusal output (IsNameable (length files)) }
    requires warnings { AreWarnings (length files) warnings.now }
    ensures { IsBeside files warnings.now output result }
{
    match output {
        Ok(bytes) => {
            let said = warning_lines(alloc, warnings, &files)?;
            Ok(Made { bytes, said })
        }
        Err(halt) => Err(say_stop(alloc, halt, warnings, files)),
    }
}

/// What stopped a command, a refusal after the lines of the warnings.
pub fn say_stop(
    alloc: Global,
    halt: Halt<Fault>,
    warnings: &Faults,
    files: FileNames,
) -> Halt<Failing>
    requires fault { OnRefusal {X = List ℕ} (Err halt) (IsNameable (length files)) }
    requires warnings { AreWarnings (length files) warnings.now }
    ensures { IsBeside files warnings.now (Err halt) (Err result) }
{
    match halt {
        Halt::Refused(fault) => match refusal(alloc, fault, warnings, files) {
            Ok(failing) => Halt::Refused(failing),
            Err(NoMemory) => Halt::NoMemory,
        },
        Halt::ReadFault => Halt::ReadFault,
        Halt::NoMemory => Halt::NoMemory,
    }
}

/// The refusal with a fault, after the lines of the warnings.
fn refusal(
    alloc: Global,
    fault: Fault,
    warnings: &Faults,
    files: FileNames,
) -> Result<Failing, NoMemory>
    requires fault { IsNameable (length files) fault }
    requires warnings { AreWarnings (length files) warnings.now }
    ensures failing { IfOk result (λ failing. failing ≡ record { fault = fault; files = files; said = warning_lines files warnings.now }) }
    ensures sayable { IfOk result IsSayable }
{
    let said = warning_lines(alloc, warnings, &files)?;
    Ok(Failing { fault, files, said })
}

/// The lines of warnings.
#[tactic(auto, using(crate::proofs::Warnings::warning_line))]
fn warning_lines(alloc: Global, warnings: &Faults, files: &FileNames) -> Result<Bytes, NoMemory>
    requires { AreWarnings (length files.now) warnings.now }
    ensures { IfOk result (λ lines. lines ≡ warning_lines files.now warnings.now) }
{
    let mut lines = Bytes::new(alloc);
    for warning in warnings.as_slice() {
        write_fault(warning, files, &mut lines)?;
    }
    Ok(lines)
}
