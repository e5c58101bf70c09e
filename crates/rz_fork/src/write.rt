//! The one fork of some resources, or the first limit that it passes; changed only with `specs/Image`.

ghost use Rattle.std.specs.Prelude.{◌≡◌, ◌<◌, ◌≤◌, ◌+◌, ◌-◌, ◌*◌, ◌^◌, ◌++◌, length, replicate, IfOk, OnOk, Ok};
ghost use Rattle.std.specs.List.{flat_map};
ghost use Rattle.rz_core.specs.Stop.{Gives};
ghost use Rattle.rz_fork.specs.Admit.{admitted};
ghost use Rattle.rz_fork.specs.Groups.{shown, members_of, lists_in, tail_in, image_in, AreInRange};
ghost use Rattle.rz_fork.specs.Image.{data_area, name_list, lists_end, header, map_fields, front, grouped, fork_of, AreNamed, IsWritable};

use crate::fault::LimitFault;
use crate::group::{Group, groups_in, in_order};
use crate::limit::{data_length, first_limit};
use crate::map_attributes::MapAttributes;
use crate::parts::{append_count, append_data, append_entries, append_names, append_references};
use bitflags::Flags;
use rz_core::{Bytes, NoMemory, Resource, Resources, Stop, append_u16, append_u32, append_zeros};
use std::alloc::Global;

/// Where the data area begins, in bytes from the start of the fork.
const DATA_AT: u32 = 256;

/// How many bytes stand between the header and the data area.
const RESERVED_LENGTH: usize = 240;

/// Where the type list begins, in bytes from the start of the map.
const TYPES_AT: u16 = 28;

/// The one fork of the resources: the header, the reserved bytes filled with zeros to 240, the data
/// area from offset 256 on, and the map with its type list at 28, the reference lists and the name
/// list. Resources stand grouped by type, types in the order of their first resources, and share
/// nothing; a resource without a name has the name offset FFFF. `attributes` are those of the map. Each
/// name has at most 255 bytes, pairs of type and id differ, and there are at most 240 reserved bytes.
/// [`ForkView::admit`](crate::ForkView::admit) of the fork gives the resources grouped by type, the
/// attributes and the 240 reserved bytes again. The time is linear in the resources and their bytes.
///
/// Refused with the first of three lengths in bytes that passes its limit: 302, the data area has more
/// than 16,777,216; 303, the map without its name list, which is `28 + 2 + 8 * types + 12 * resources`,
/// has more than 65,535; 304, the name list has more than 65,535. (Inside Macintosh: More Macintosh
/// Toolbox, Resource Manager, resource file format.)
pub fn write_fork(
    alloc: Global,
    list: &Resources,
    attributes: MapAttributes,
    reserved: &[u8],
) -> Result<Bytes, Stop<LimitFault>>
    requires { IsWritable list.now reserved.now }
    ensures fork { Gives (fork_of list.now attributes reserved.now) result }
    ensures again { IfOk result (λ bytes. admitted bytes ≡ Ok (record {
      list = grouped list.now;
      attributes = attributes;
      reserved = reserved.now ++ replicate (240 - length reserved.now) 0;
    })) }
    ensures short { IfOk result (λ bytes. length bytes < 2 ^ 32) }
{
    let groups = groups_in(alloc, list.as_slice())?;
    let order = in_order(alloc, &groups)?;
    if let Some(fault) = first_limit(groups.len(), &order) {
        return Err(Stop::Refused(fault));
    }
    Ok(write_image(alloc, &groups, &order, attributes.bits(), reserved)?)
}

fn write_image(
    alloc: Global,
    groups: &[Group],
    order: &[&Resource],
    attributes: u16,
    reserved: &[u8],
) -> Result<Bytes, NoMemory>
    requires order { shown order.now ≡ flat_map members_of groups.now }
    requires named { AreNamed (shown order.now) }
    requires reserved { length reserved.now ≤ 240 }
    requires area { length (data_area (shown order.now)) ≤ 2 ^ 24 }
    requires lists { lists_end (length groups.now) (length order.now) < 2 ^ 16 }
    requires names { length (name_list (shown order.now)) < 2 ^ 16 }
    ensures image { IfOk result (λ bytes.
        bytes ≡ image_in groups.now (shown order.now) attributes reserved.now) }
    ensures short { IfOk result (λ bytes. length bytes < 2 ^ 32) }
    ensures ranges { OnOk result (AreInRange groups.now (shown order.now)) }
{
    let tail = write_tail(alloc, groups, order, attributes)?;
    let mut out = Bytes::new(alloc);
    append_front(&mut out, order, reserved, 16 + tail.len() as u32)?;
    out.append(tail.as_slice())?;
    Ok(out)
}

fn append_front(
    out: &mut Bytes,
    order: &[&Resource],
    reserved: &[u8],
    map_length: u32,
) -> Result<(), NoMemory>
    requires reserved { length reserved.now ≤ 240 }
    requires area { length (data_area (shown order.now)) ≤ 2 ^ 24 }
    ensures { OnOk result (out.new ≡ out.old ++ front (shown order.now) reserved.now map_length) }
{
    let data_length = data_length(order) as u32;
    append_header(out, data_length, map_length)?;
    out.append(reserved)?;
    append_zeros(out, RESERVED_LENGTH - reserved.len())?;
    append_data(out, order)?;
    append_header(out, data_length, map_length)?;
    Ok(())
}

fn write_tail(
    alloc: Global,
    groups: &[Group],
    order: &[&Resource],
    attributes: u16,
) -> Result<Bytes, NoMemory>
    requires order { shown order.now ≡ flat_map members_of groups.now }
    requires named { AreNamed (shown order.now) }
    requires area { length (data_area (shown order.now)) ≤ 2 ^ 24 }
    requires lists { lists_end (length groups.now) (length order.now) < 2 ^ 16 }
    requires names { length (name_list (shown order.now)) < 2 ^ 16 }
    ensures tail { IfOk result (λ bytes. bytes ≡ tail_in groups.now (shown order.now) attributes) }
    ensures short { IfOk result (λ bytes. length bytes < 2 ^ 18) }
    ensures ranges { OnOk result (AreInRange groups.now (shown order.now)) }
{
    let lists = write_lists(alloc, groups, order)?;
    let mut out = Bytes::new(alloc);
    append_map_fields(&mut out, attributes, lists.len() as u16)?;
    out.append(lists.as_slice())?;
    append_names(&mut out, order)?;
    Ok(out)
}

fn write_lists(alloc: Global, groups: &[Group], order: &[&Resource]) -> Result<Bytes, NoMemory>
    requires order { shown order.now ≡ flat_map members_of groups.now }
    requires named { AreNamed (shown order.now) }
    requires area { length (data_area (shown order.now)) ≤ 2 ^ 24 }
    requires lists { lists_end (length groups.now) (length order.now) < 2 ^ 16 }
    requires names { length (name_list (shown order.now)) < 2 ^ 16 }
    ensures lists { IfOk result (λ bytes. bytes ≡ lists_in groups.now (shown order.now)) }
    ensures length { IfOk result (λ bytes.
        28 + length bytes ≡ lists_end (length groups.now) (length order.now)) }
    ensures ranges { OnOk result (AreInRange groups.now (shown order.now)) }
{
    let mut out = Bytes::new(alloc);
    append_count(&mut out, groups.len())?;
    append_entries(&mut out, groups)?;
    append_references(&mut out, order)?;
    Ok(out)
}

#[tactic(auto, unfolding(crate::specs::Image::header))]
fn append_header(out: &mut Bytes, data_length: u32, map_length: u32) -> Result<(), NoMemory>
    requires { data_length < 2 ^ 31 }
    ensures { OnOk result (out.new ≡ out.old ++ header data_length map_length) }
{
    append_u32(out, DATA_AT)?;
    append_u32(out, DATA_AT + data_length)?;
    append_u32(out, data_length)?;
    append_u32(out, map_length)?;
    Ok(())
}

#[tactic(auto, unfolding(crate::specs::Image::map_fields))]
fn append_map_fields(out: &mut Bytes, attributes: u16, lists_length: u16) -> Result<(), NoMemory>
    requires { 28 + lists_length < 2 ^ 16 }
    ensures { OnOk result (out.new ≡ out.old ++ map_fields attributes lists_length) }
{
    append_u32(out, 0)?;
    append_u16(out, 0)?;
    append_u16(out, attributes)?;
    append_u16(out, TYPES_AT)?;
    append_u16(out, TYPES_AT + lists_length)?;
    Ok(())
}
