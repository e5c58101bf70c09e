//! The parts of a fork as they are written: data area, names, references and types. See `specs/Image`.

ghost use Rattle.std.specs.Prelude.{◌≡◌, ◌<◌, ◌≤◌, ◌+◌, ◌*◌, ◌^◌, ◌==◌, ◌++◌, if◌then◌else◌, length, OnOk, FitsSigned};
ghost use Rattle.std.specs.Int.{w16};
ghost use Rattle.std.specs.List.{flat_map, AllByRecursion};
ghost use Rattle.rz_core.specs.Numbers.{be};
ghost use Rattle.rz_fork.specs.Groups.{shown, members_of, group_entries};
ghost use Rattle.rz_fork.specs.Image.{data_area, stored_name, name_list, reference_to, reference_lists, entry_of, AreNamed};

use crate::group::Group;
use crate::layout::NO_NAME;
use rz_core::{Bytes, NoMemory, Resource, append_u16, append_u24, append_u32};

/// Appends a count less one, modulo 65,536, in 2 bytes: how the format stores counts.
#[tactic(auto, unfolding(rz_core::specs::Numbers::be))]
pub fn append_count(out: &mut Bytes, count: usize) -> Result<(), NoMemory>
    requires { count ≤ 2 ^ 16 }
    ensures { OnOk result (out.new ≡ out.old ++ be 2 (count + 65535)) }
{
    append_u16(out, ((count + 65_535) % 65_536) as u16)?;
    Ok(())
}

/// Appends the data area.
pub fn append_data(out: &mut Bytes, order: &[&Resource]) -> Result<(), NoMemory>
    requires { length (data_area (shown order.now)) < 2 ^ 32 }
    ensures { OnOk result (out.new ≡ out.old ++ data_area (shown order.now)) }
{
    for resource in order {
        append_u32(out, resource.bytes.len() as u32)?;
        out.append(resource.bytes.as_slice())?;
    }
    Ok(())
}

/// How many bytes a name takes in the name list.
pub fn stored_name_length(resource: &Resource) -> u32
    requires { length resource.now.name < 256 }
    ensures { result ≡ length (stored_name resource.now) }
{
    if resource.name.is_empty() {
        return 0;
    }
    1 + resource.name.len() as u32
}

fn append_name(out: &mut Bytes, resource: &Resource) -> Result<(), NoMemory>
    requires { length resource.now.name < 256 }
    ensures { OnOk result (out.new ≡ out.old ++ stored_name resource.now) }
{
    if resource.name.is_empty() {
        return Ok(());
    }
    out.push(resource.name.len() as u8)?;
    out.append(resource.name.as_slice())?;
    Ok(())
}

/// Appends the name list.
pub fn append_names(out: &mut Bytes, order: &[&Resource]) -> Result<(), NoMemory>
    requires { AreNamed (shown order.now) }
    ensures { OnOk result (out.new ≡ out.old ++ name_list (shown order.now)) }
{
    for resource in order {
        append_name(out, resource)?;
    }
    Ok(())
}

fn name_offset(resource: &Resource, names: u16) -> u16
    ensures { result ≡ (if length resource.now.name == 0 then 65535 else names) }
{
    if resource.name.is_empty() {
        return NO_NAME;
    }
    names
}

#[tactic(auto, unfolding(crate::specs::Image::reference_to))]
fn append_reference(
    out: &mut Bytes,
    resource: &Resource,
    name_at: u16,
    data_at: u32,
) -> Result<(), NoMemory>
    requires { data_at < 2 ^ 24 }
    ensures reference { OnOk result
        (out.new ≡ out.old ++ reference_to name_at data_at resource.now) }
    ensures id { FitsSigned w16 resource.now.id }
{
    append_u16(out, resource.id.cast_unsigned())?;
    append_u16(out, name_at)?;
    out.push(resource.attr.byte())?;
    append_u24(out, data_at)?;
    append_u32(out, 0)?;
    Ok(())
}

/// Appends the reference lists, one after the other.
pub fn append_references(out: &mut Bytes, order: &[&Resource]) -> Result<(), NoMemory>
    requires area { length (data_area (shown order.now)) ≤ 2 ^ 24 }
    requires names { length (name_list (shown order.now)) < 2 ^ 16 }
    requires named { AreNamed (shown order.now) }
    ensures lists { OnOk result (out.new ≡ out.old ++ reference_lists (shown order.now)) }
    ensures ids { OnOk result (AllByRecursion (λ r. FitsSigned w16 r.id) (shown order.now)) }
{
    let mut data_end: u32 = 0;
    let mut names_end: u32 = 0;
    for resource in order {
        append_reference(
            out,
            resource,
            name_offset(resource, names_end as u16),
            data_end,
        )?;
        data_end += 4 + resource.bytes.len() as u32;
        names_end += stored_name_length(resource);
    }
    Ok(())
}

#[tactic(auto, unfolding(crate::specs::Image::entry_of))]
fn append_entry(out: &mut Bytes, code: u32, count: usize, list_at: usize) -> Result<(), NoMemory>
    requires count { count ≤ 2 ^ 16 }
    requires at { list_at < 2 ^ 16 }
    ensures { OnOk result (out.new ≡ out.old ++ entry_of code count list_at) }
{
    append_u32(out, code)?;
    append_count(out, count)?;
    append_u16(out, list_at as u16)?;
    Ok(())
}

/// Appends the entries of the type list.
pub fn append_entries(out: &mut Bytes, groups: &[Group]) -> Result<(), NoMemory>
    requires { 2 + 8 * length groups.now + 12 * length (flat_map members_of groups.now) < 2 ^ 16 }
    ensures entries { OnOk result (out.new ≡ out.old ++ group_entries groups.now) }
    ensures codes { OnOk result (AllByRecursion (λ g. g.code < 2 ^ 32) groups.now) }
{
    let mut at = 2 + 8 * groups.len();
    for group in groups {
        append_entry(out, group.code, group.members.len(), at)?;
        at += 12 * group.members.len();
    }
    Ok(())
}
