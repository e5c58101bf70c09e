//! The faults of forms and of forks, with the mark of a line; changed only with `specs/Faults`.

ghost use Rattle.std.specs.Prelude.{◌≡◌, ℕ};
ghost use Rattle.rz_core.specs.Message.{IsMarked, IsNameable};
ghost use Rattle.rz_bridge.specs.Faults.{IsSayable};
ghost use Rattle.rz_fork.specs.Admit.{IsSayable as IsForkSayable};
ghost use Rattle.rz_bridge_files.specs.Faults.{fork_fault, form_fault};

use rz_bridge::BridgeFault;
use rz_core::{Fault, Kept, Mark};
use rz_fork::ForkFault;

/// The fault of a rule of a form, with the mark of the line that names the file, where there is one. It keeps what
/// the rule keeps.
pub fn form_fault(fault: BridgeFault, mark: Option<Mark>) -> Fault
    requires { IsSayable fault }
    ensures fault { result ≡ form_fault mark fault }
    ensures nameable { (files : ℕ) → IsMarked files mark → IsNameable files result }
{
    Fault {
        number: fault.number,
        mark,
        kept: fault.kept,
    }
}

/// The fault of a rule of a fork, with the mark of the line that names the file, where there is one. It keeps the
/// offset and the value of the rule.
pub fn fork_fault(fault: ForkFault, mark: Option<Mark>) -> Fault
    requires { IsForkSayable fault }
    ensures fault { result ≡ fork_fault mark fault }
    ensures nameable { (files : ℕ) → IsMarked files mark → IsNameable files result }
{
    Fault {
        number: fault.number,
        mark,
        kept: Kept::Pair(fault.offset as i64, i64::from(fault.value)),
    }
}
