//! The statement `type`. What it declares, and the order of its faults, is in `specs/Declare`.

ghost use Rattle.std.specs.Prelude.{◌≡◌, ◌<◌, ℕ, Err};
ghost use Rattle.rz_core.specs.Message.{IsNameable};
ghost use Rattle.rz_core.specs.Stop.{Gives, OnFault, left, Meets, seen, fault_seen};
ghost use Rattle.rz_stmt_type.specs.Constants.{declare_of, made_of};
ghost use Rattle.rz_stmt_type.specs.Shaped.{IsShapedMade};
ghost use Rattle.rz_types.specs.Template.{template_of as plain_template};
ghost use Rattle.rz_tools_work.specs.Declare.{copied_id, first_id, redeclared, scope_of, template_of, type_fault, IsRule};
ghost use Rattle.rz_tools_work.specs.Held.{work_of};
ghost use Rattle.rz_tools_answer.specs.Warning.{AreWarnings, IsWarning};
ghost use Rattle.rz_tools_work.specs.Work.{declared};
ghost use Rattle.rz_types_table.specs.TypeTable.{table_of};

use crate::work::Work;
use rz_core::{Fault, Kept, Mark, OsType, Stop};
use rz_stmt_type::{Bounds, Made, TypeStmt};
use rz_tools_values::{Setting, id_of};
use rz_types::{Template, TypeFault};
use rz_types_check::check;
use rz_types_table::{Scope, TypeTable};
use std::alloc::Global;

/// Declares the type of a `type` statement on this line, or gives its first fault. The ids of its scope and then that of
/// the type that it copies are from -32768 to 32767 (204); the type that it copies is there (239); its fields keep the
/// rules (230 to 238, 212). A declaration of the same type and scope is taken out, and is warned of (240) unless the
/// setting allows it.
pub fn declare_type(
    alloc: Global,
    declare: TypeStmt,
    mark: Mark,
    setting: Setting,
    work: &mut Work,
) -> Result<(), Stop<Fault>>
    requires shaped { IsShapedMade (made_of declare.made) }
    ensures declared { Meets (left (work_of work.new) result) (λ answer. answer ≡ declared setting mark (work_of work.old) (declare_of declare)) }
    ensures resources { work.new.resources ≡ work.old.resources }
    ensures kept { OnFault result (λ _. work.new.warnings ≡ work.old.warnings) }
    ensures warned { (files : ℕ) → mark.file < files → AreWarnings files work.old.warnings → AreWarnings files work.new.warnings }
    ensures nameable { (files : ℕ) → mark.file < files → OnFault result (IsNameable files) }
{
    let TypeStmt { kind, bounds, made } = declare;
    let scope = scope_of(bounds, mark)?;
    let template = template_of(alloc, made, &work.types, mark)?;
    let again = work.types.declare(kind, scope, template)?;
    if again && !setting.redeclare {
        work.warnings.push(redeclared(kind, scope, mark))?;
    }
    Ok(())
}

/// The ids that a declaration is for.
fn scope_of(bounds: Bounds, mark: Mark) -> Result<Scope, Stop<Fault>>
    ensures scope { Gives (scope_of mark bounds) result }
    ensures nameable { (files : ℕ) → mark.file < files → OnFault result (IsNameable files) }
{
    match bounds {
        Bounds::Any => Ok(Scope::Any),
        Bounds::One(id) => Ok(Scope::Id(id_of(id, mark)?)),
        Bounds::Two(first, last) => {
            let first = id_of(first, mark)?;
            let last = id_of(last, mark)?;
            Ok(Scope::Range(first, last))
        }
    }
}

/// The template of what is declared.
fn template_of(
    alloc: Global,
    made: Made,
    types: &TypeTable,
    mark: Mark,
) -> Result<Template, Stop<Fault>>
    requires shaped { IsShapedMade (made_of made) }
    ensures template { Gives (template_of mark (table_of types.now) (made_of made)) (seen plain_template result) }
    ensures nameable { (files : ℕ) → mark.file < files → OnFault result (IsNameable files) }
{
    match made {
        Made::Fields(body) => on_line(check(alloc, body), mark),
        Made::Copy(kind, id) => {
            let id = copied_id(id, mark)?;
            on_line(types.copy_of(kind, id), mark)
        }
    }
}

/// The id of a type that is copied.
fn copied_id(id: Option<i32>, mark: Mark) -> Result<Option<i16>, Stop<Fault>>
    ensures id { Gives (copied_id mark id) result }
    ensures nameable { (files : ℕ) → mark.file < files → OnFault result (IsNameable files) }
{
    match id {
        Some(id) => Ok(Some(id_of(id, mark)?)),
        None => Ok(None),
    }
}

/// The same, where a broken rule is on this line.
fn on_line(template: Result<Template, Stop<TypeFault>>, mark: Mark) -> Result<Template, Stop<Fault>>
    requires { OnFault template IsRule }
    ensures template { seen plain_template result ≡ fault_seen (type_fault mark) (seen plain_template template) }
    ensures nameable { (files : ℕ) → mark.file < files → OnFault result (IsNameable files) }
{
    match template {
        Ok(template) => Ok(template),
        Err(Stop::Refused(fault)) => Err(Stop::Refused(type_fault(fault, mark))),
        Err(Stop::NoMemory) => Err(Stop::NoMemory),
    }
}

/// A broken rule of a type, on this line.
fn type_fault(fault: TypeFault, mark: Mark) -> Fault
    requires { IsRule fault }
    ensures fault { result ≡ type_fault mark fault }
    ensures nameable { (files : ℕ) → mark.file < files → IsNameable files result }
{
    Fault {
        number: fault.number,
        mark: Some(mark),
        kept: fault.kept,
    }
}

/// The warning of a declaration again: 240, with the type and the first id of the scope, or 0.
fn redeclared(kind: OsType, scope: Scope, mark: Mark) -> Fault
    ensures fault { result ≡ redeclared mark kind scope }
    ensures warning { (files : ℕ) → mark.file < files → IsWarning files result }
{
    Fault {
        number: 240,
        mark: Some(mark),
        kept: Kept::Key(kind, i32::from(first_id(scope))),
    }
}

fn first_id(scope: Scope) -> i16
    ensures { result ≡ first_id scope }
{
    match scope {
        Scope::Id(id) | Scope::Range(id, _) => id,
        Scope::Any => 0,
    }
}
