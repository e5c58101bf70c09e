//! The reader of MacBinary II and III; changed only with `specs/MacBinary`.

ghost use Rattle.std.specs.Prelude.{◌≡◌, ◌≤◌, ◌<◌, ◌^◌, length, IfOk};
ghost use Rattle.rz_core.specs.Stop.{Gives, OnFault};
ghost use Rattle.rz_bridge.specs.Faults.{IsSayable};
ghost use Rattle.rz_bridge.specs.MacBinary.{macbin_extra, macbin_finder, macbin_fields, macbin_content};

use crate::fault::BridgeFault;
use crate::file::{Finder, MacFile};
use crate::macbin_rules::{data_length, data_place, macbin_torn, resource_length, resource_place};
use crate::place::{Span, piece_at, pieces_in};
use rz_core::{Bytes, NoMemory, OsType, Stop, u8_at, u16_at, u32_at};
use std::alloc::Global;

/// The four characters `mBIN`, which version III has and version II hasn't.
const SIGNATURE: u32 = 0x6D42_494E;

/// The file of a MacBinary II or III: name, type, creator, flags, position, folder, lock, dates and both forks. Of the
/// last 16 bytes of the Finder's fields version III has the bytes 8 and 9, the script and further flags; those that the
/// form doesn't have are zeros. A secondary header is skipped and a comment passes unread. Filler that is missing after
/// the last fork is no fault, nor is an empty fork that lies after the file. There are fewer than 2^32 bytes.
///
/// Refused with the first broken rule, in the order 421, 422, 427, 424, 425, 426 (see [`BridgeFault`]). (MacBinary II
/// and III.)
pub fn macbin_read(alloc: Global, bytes: Bytes) -> Result<MacFile, Stop<BridgeFault>>
    requires { length bytes < 2 ^ 32 }
    ensures file { Gives (macbin_content bytes) result }
    ensures data_fork { IfOk result (λ file. length file.data_fork < 2 ^ 32) }
    ensures res_fork { IfOk result (λ file. length file.res_fork < 2 ^ 32) }
    ensures sayable { OnFault result IsSayable }
{
    if let Some(fault) = macbin_torn(bytes.as_slice()) {
        return Err(Stop::Refused(fault));
    }
    Ok(read_fields(alloc, bytes)?)
}

/// The file that the fields make.
#[tactic(auto, unfolding(crate::specs::MacBinary::macbin_fields))]
fn read_fields(alloc: Global, bytes: Bytes) -> Result<MacFile, NoMemory>
    requires { 128 ≤ length bytes }
    ensures file { IfOk result (λ file. file ≡ macbin_fields bytes) }
    ensures data_fork { IfOk result (λ file. length file.data_fork ≤ length bytes) }
    ensures res_fork { IfOk result (λ file. length file.res_fork ≤ length bytes) }
{
    let lent = bytes.as_slice();
    let name = Bytes::of(alloc, piece_at(lent, 2, u8_at(lent, 1) as usize))?;
    let finder = read_finder(lent);
    let locked = u8_at(lent, 81) % 2 == 1;
    let created = u32_at(lent, 91);
    let modified = u32_at(lent, 95);
    let data = Span {
        place: data_place(lent),
        count: data_length(lent),
    };
    let resource = Span {
        place: resource_place(lent),
        count: resource_length(lent),
    };
    let (data_fork, res_fork) = pieces_in(alloc, bytes, data, resource)?;
    Ok(MacFile {
        name,
        finder,
        locked,
        created,
        modified,
        data_fork,
        res_fork,
    })
}

/// The Finder's fields of a header.
#[tactic(auto, unfolding(crate::specs::MacBinary::macbin_finder))]
fn read_finder(bytes: &[u8]) -> Finder
    requires { 128 ≤ length bytes.now }
    ensures { result ≡ macbin_finder bytes.now }
{
    Finder {
        kind: OsType {
            code: u32_at(bytes, 65),
        },
        creator: OsType {
            code: u32_at(bytes, 69),
        },
        flags: 256 * u16::from(u8_at(bytes, 73)) + u16::from(u8_at(bytes, 101)),
        vertical: u16_at(bytes, 75).cast_signed(),
        horizontal: u16_at(bytes, 77).cast_signed(),
        folder: u16_at(bytes, 79).cast_signed(),
        extra: read_extra(bytes),
    }
}

/// The last 16 bytes of the Finder's fields.
#[tactic(auto, unfolding(crate::specs::MacBinary::macbin_extra, crate::specs::MacBinary::around, crate::specs::Places::piece))]
fn read_extra(bytes: &[u8]) -> [u8; 16]
    requires { 128 ≤ length bytes.now }
    ensures { result ≡ macbin_extra bytes.now }
{
    let mut extra = [0; 16];
    if u32_at(bytes, 102) == SIGNATURE {
        extra[8..10].copy_from_slice(&bytes[106..108]);
    }
    extra
}
