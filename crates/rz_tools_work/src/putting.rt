//! A resource that is put into the list, and the list's faults on a line, as `specs/Put` says.

ghost use Rattle.std.specs.Prelude.{◌≡◌, ◌<◌, ℕ, length};
ghost use Rattle.rz_core.specs.Message.{IsNameable};
ghost use Rattle.rz_core.specs.Stop.{OnFault, left, Meets, fault_seen};
ghost use Rattle.rz_tools_work.specs.Put.{list_with, set_fault};

use rz_core::{Fault, Kept, Mark, Resource, Stop};
use rz_set::{ResSet, SetFault};

/// Puts a resource into the list: in the place of the one with its type and id, or at the end. Where that one is protected
/// and protected ones aren't given up it is 219 (kept: the type and the id). (MPW Rez.)
pub fn put(
    resources: &mut ResSet,
    resource: Resource,
    over: bool,
    mark: Mark,
) -> Result<(), Stop<Fault>>
    requires named { length resource.name < 256 }
    ensures put { Meets (left resources.new result) (λ answer. answer ≡ list_with mark over resources.old resource) }
    ensures nameable { (files : ℕ) → mark.file < files → OnFault result (IsNameable files) }
{
    let left = resources.put(resource, over);
    on_line(left, mark, Kept::Nothing)
}

/// What a call of the list answers, with its fault on this line; of a resource that there isn't it keeps what was looked for.
pub fn on_line(
    ended: Result<(), Stop<SetFault>>,
    mark: Mark,
    sought: Kept,
) -> Result<(), Stop<Fault>>
    ensures left { result ≡ fault_seen (set_fault mark sought) ended }
    ensures nameable { (files : ℕ) → mark.file < files → OnFault result (IsNameable files) }
{
    match ended {
        Ok(()) => Ok(()),
        Err(Stop::Refused(fault)) => Err(Stop::Refused(set_fault(fault, mark, sought))),
        Err(Stop::NoMemory) => Err(Stop::NoMemory),
    }
}

/// 218 with what was looked for, or 219 with the type and the id.
fn set_fault(fault: SetFault, mark: Mark, sought: Kept) -> Fault
    ensures fault { result ≡ set_fault mark sought fault }
    ensures nameable { (files : ℕ) → mark.file < files → IsNameable files result }
{
    match fault {
        SetFault::NoSuchResource(_) => Fault {
            number: 218,
            mark: Some(mark),
            kept: sought,
        },
        SetFault::Protected(kind, id) => Fault {
            number: 219,
            mark: Some(mark),
            kept: Kept::Key(kind, i32::from(id)),
        },
    }
}
