//! The file that is written of the resources. What it holds is in `specs/Output`.

ghost use Rattle.std.specs.Prelude.{◌≡◌, ◌≤◌, ◌<◌, ◌^◌, [], ℕ, List, length, IfOk};
ghost use Rattle.rz_core.specs.Stop.{Meets, Gives, OnFault};
ghost use Rattle.rz_core.specs.Message.{IsNameable};
ghost use Rattle.rz_core.specs.Resources.{KeysDiffer};
ghost use Rattle.rz_core.specs.declared.resource.Resource.{Resource as ResourceOf};
ghost use Rattle.rz_bridge_files.specs.Written.{written_as};
ghost use Rattle.rz_fork.specs.Image.{AreNamed};
ghost use Rattle.rz_tools_output.specs.Base.{attributes_asked, base_with};
ghost use Rattle.rz_tools_output.specs.Output.{file_of, list_fork, past_limit, target, IsFileOf, IsLimit, IsOutput};

use crate::base::Base;
use crate::target::Target;
use bitflags::Flags;
use rz_bridge::{Finder, MacFile};
use rz_bridge_files::{Form, named, write_as};
use rz_core::{Bytes, Fault, Kept, Moment, Resources, Stop};
use rz_fork::{LimitFault, MapAttributes, write_fork};
use std::alloc::Global;

/// The file that is written of the resources: their fork with the attributes and the reserved bytes to begin with, read
/// only where that is asked for, in the form that is asked for or that of the file to begin with. Refused with the
/// first limit that the fork passes (302, 303, 304); in another form than raw then 425 where the file has no name and
/// takes one from that of the file to write that isn't Mac Roman, and then 425 or 428, as the form's writer refuses.
/// (MPW Rez; RFC 1740; RFC 1741.)
pub fn write_output(
    alloc: Global,
    into: &Target<'_>,
    base: Base,
    list: &Resources,
    moment: Moment,
) -> Result<Bytes, Stop<Fault>>
    requires keys { KeysDiffer [] list.now }
    requires named { AreNamed list.now }
    requires room { length base.reserved ≤ 240 }
    ensures output { (others : List ResourceOf) → Meets result (IsOutput (target into.now) moment (base_with base others) list.now) }
    ensures nameable { (files : ℕ) → OnFault result (IsNameable files) }
    ensures short { IfOk result (λ bytes. length bytes < 2 ^ 32) }
{
    let attributes = attributes_asked(into.read_only, &base);
    let fork = write_list(alloc, list, attributes, base.reserved.as_slice())?;
    write_file(alloc, into, base, fork, moment)
}

/// The attributes of the map that is written.
fn attributes_asked(read_only: bool, base: &Base) -> MapAttributes
    ensures { (others : List ResourceOf) → result ≡ attributes_asked read_only (base_with base.now others) }
{
    if read_only {
        base.attributes.union(MapAttributes::READ_ONLY)
    } else {
        base.attributes
    }
}

/// The file of a fork.
fn write_file(
    alloc: Global,
    into: &Target<'_>,
    base: Base,
    fork: Bytes,
    moment: Moment,
) -> Result<Bytes, Stop<Fault>>
    requires { length fork < 2 ^ 32 }
    ensures output { (others : List ResourceOf) → Meets result (IsFileOf (target into.now) moment (base_with base others) fork) }
    ensures nameable { (files : ℕ) → OnFault result (IsNameable files) }
    ensures short { IfOk result (λ bytes. length bytes < 2 ^ 32) }
{
    let form = into.form.unwrap_or(base.form);
    let file = file_of(into, base.file, fork, moment);
    let named = named(alloc, form, into.name, file)?;
    written_as(alloc, form, named)
}

/// What is written of a file in a form. A raw file is its resource fork, which takes no memory.
fn written_as(alloc: Global, form: Form, file: MacFile) -> Result<Bytes, Stop<Fault>>
    requires { length file.res_fork < 2 ^ 32 }
    ensures bytes { Gives (written_as form file) result }
    ensures nameable { (files : ℕ) → OnFault result (IsNameable files) }
    ensures short { IfOk result (λ bytes. length bytes < 2 ^ 32) }
{
    match form {
        Form::Raw => Ok(file.res_fork),
        _ => write_as(alloc, form, &file),
    }
}

/// The file of a fork, with its other fields from one to begin with.
fn file_of(into: &Target<'_>, file: MacFile, fork: Bytes, moment: Moment) -> MacFile
    ensures { result ≡ file_of (target into.now) moment file fork }
{
    let now = moment.mac_time();
    MacFile {
        finder: Finder {
            kind: into.kind.unwrap_or(file.finder.kind),
            creator: into.creator.unwrap_or(file.finder.creator),
            ..file.finder
        },
        created: if file.created == 0 { now } else { file.created },
        modified: now,
        res_fork: fork,
        ..file
    }
}

/// The fork of a list of resources.
#[tactic(auto, unfolding(crate::specs::Output::list_fork))]
fn write_list(
    alloc: Global,
    list: &Resources,
    attributes: MapAttributes,
    reserved: &[u8],
) -> Result<Bytes, Stop<Fault>>
    requires keys { KeysDiffer [] list.now }
    requires named { AreNamed list.now }
    requires room { length reserved.now ≤ 240 }
    ensures fork { Gives (list_fork attributes reserved.now list.now) result }
    ensures nameable { (files : ℕ) → OnFault result (IsNameable files) }
    ensures short { IfOk result (λ fork. length fork < 2 ^ 32) }
{
    match write_fork(alloc, list, attributes, reserved) {
        Ok(fork) => Ok(fork),
        Err(Stop::Refused(fault)) => Err(Stop::Refused(past_limit(fault))),
        Err(Stop::NoMemory) => Err(Stop::NoMemory),
    }
}

/// The fault of a length that is past its limit.
fn past_limit(fault: LimitFault) -> Fault
    requires { IsLimit fault }
    ensures fault { result ≡ past_limit fault }
    ensures nameable { (files : ℕ) → IsNameable files result }
{
    Fault {
        number: fault.number,
        mark: None,
        kept: Kept::Number(fault.length as i64),
    }
}
