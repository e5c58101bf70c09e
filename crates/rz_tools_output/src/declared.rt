//! The types that the resources of a fork declare, one after another. What each declares is in `specs/Templates`.

ghost use Rattle.std.specs.Prelude.{◌≡◌, ◌<◌, ◌^◌, ℕ, []};
ghost use Rattle.rz_core.specs.Message.{IsNameable};
ghost use Rattle.rz_core.specs.Stop.{left, seen, Meets, OnFault};
ghost use Rattle.rz_fork.specs.View.{lent};
ghost use Rattle.rz_tmpl.specs.Faults.{IsSayable};
ghost use Rattle.rz_types_table.specs.TypeTable.{table_of};
ghost use Rattle.rz_tools_output.specs.Templates.{declares, entry_fault, AreDeclared, IsDeclared};

use rz_core::{Fault, Kept, OsType, Stop};
use rz_fork::{ForkView, ResView};
use rz_tmpl::{TmplFault, template_of, tmpl_types_are_templates};
use rz_types_table::{Scope, TypeTable};
use std::alloc::Global;

/// The type of templates, `TMPL`.
const TEMPLATE: OsType = OsType { code: 0x544D_504C };

/// The number of an entry with an unknown code.
const UNKNOWN_CODE: u16 = 452;

/// The types that the resources of a fork declare, in map order, or the first fault of a template.
pub fn declared_by(alloc: Global, fork: &ForkView<'_>) -> Result<TypeTable, Stop<Fault>>
    ensures types { Meets (seen table_of result) (AreDeclared [] fork.now.list) }
    ensures nameable { (files : ℕ) → OnFault result (IsNameable files) }
{
    let mut types = TypeTable::new(alloc);
    let mut walk = fork.walk();
    while let Some(one) = walk.next() {
        declare(alloc, &one, &mut types)?;
    }
    Ok(types)
}

/// Declares the type that a resource declares, if it declares one.
fn declare(alloc: Global, one: &ResView<'_>, types: &mut TypeTable) -> Result<(), Stop<Fault>>
    ensures declared { Meets (left (table_of types.new) result) (IsDeclared (table_of types.old) (lent one.now) (declares (lent one.now))) }
    ensures nameable { (files : ℕ) → OnFault result (IsNameable files) }
{
    tmpl_types_are_templates();
    let Some(kind) = declares(one) else {
        return Ok(());
    };
    match template_of(alloc, one.bytes) {
        Ok(template) => {
            types.declare(kind, Scope::Any, template)?;
            Ok(())
        }
        Err(Stop::Refused(fault)) => {
            if fault.number == UNKNOWN_CODE {
                Ok(())
            } else {
                Err(Stop::Refused(entry_fault(one, fault)))
            }
        }
        Err(Stop::NoMemory) => Err(Stop::NoMemory),
    }
}

/// The type that a resource declares: that of its name, if it is a template.
fn declares(one: &ResView<'_>) -> Option<OsType>
    ensures { result ≡ declares (lent one.now) }
{
    if one.kind.code == TEMPLATE.code {
        OsType::of_bytes(one.name)
    } else {
        None
    }
}

/// The fault of an entry, with the id of its resource.
fn entry_fault(one: &ResView<'_>, fault: TmplFault) -> Fault
    requires sayable { IsSayable fault }
    requires short { fault.offset < 2 ^ 63 }
    ensures fault { result ≡ entry_fault (lent one.now) fault }
    ensures nameable { (files : ℕ) → IsNameable files result }
{
    Fault {
        number: fault.number,
        mark: None,
        kept: Kept::Pair(i64::from(one.id), fault.offset as i64),
    }
}
