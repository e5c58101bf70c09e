//! The writer of MacBinary III, header and forks; changed only with `specs/MacBinary`.

ghost use Rattle.std.specs.Prelude.{◌≡◌, ◌≤◌, ◌<◌, ◌^◌, ◌++◌, if◌then◌else◌, length, IfOk, OnOk, Ok};
ghost use Rattle.std.specs.Int.{cast_unsigned, w16};
ghost use Rattle.rz_core.specs.Numbers.{be};
ghost use Rattle.rz_core.specs.Stop.{Gives, OnFault};
ghost use Rattle.rz_bridge.specs.Check.{crc_of};
ghost use Rattle.rz_bridge.specs.Faults.{IsSayable};
ghost use Rattle.rz_bridge.specs.Ranges.{IsStored, AreDates};
ghost use Rattle.rz_bridge.specs.MacBinary.{macbin_names, macbin_place, macbin_lengths, macbin_versions, macbin_header, macbin_image, macbin_written, macbin_content, macbin_carried};

use crate::check::crc;
use crate::fault::BridgeFault;
use crate::file::{Finder, MacFile, finder_is_stored};
use crate::place::append_filled;
use crate::refuse::file_refused;
use rz_core::{Bytes, NoMemory, Stop, append_u16, append_u32, append_zeros};
use std::alloc::Global;

/// The four characters `mBIN`, which version III has.
const SIGNATURE: u32 = 0x6D42_494E;

/// The version of MacBinary III.
const VERSION: u8 = 130;

/// The version that a reader must know, that of MacBinary II.
const LEAST_VERSION: u8 = 129;

/// The one MacBinary III of a file, which readers of MacBinary II can read too: without a secondary header and without
/// a comment, both forks filled with zeros to a multiple of 128 bytes. [`macbin_read`](crate::macbin_read) of it gives
/// the file again, with zeros in the last 16 bytes of the Finder's fields but for the bytes 8 and 9. The time is linear
/// in the forks.
///
/// Refused with 425 where the name doesn't have 1 to 63 bytes, and then with 428 where a fork has more than 33,554,432
/// bytes, the data fork first; each keeps the length in bytes. (MacBinary III.)
pub fn macbin_write(alloc: Global, file: &MacFile) -> Result<Bytes, Stop<BridgeFault>>
    ensures file { Gives (macbin_written file.now) result }
    ensures again { IfOk result (λ bytes. macbin_content bytes ≡ Ok (macbin_carried file.now)) }
    ensures short { IfOk result (λ bytes. length bytes < 2 ^ 32) }
    ensures sayable { OnFault result IsSayable }
{
    if let Some(fault) = file_refused(file) {
        return Err(Stop::Refused(fault));
    }
    Ok(write_image(alloc, file)?)
}

/// The whole file.
#[tactic(auto, unfolding(crate::specs::MacBinary::macbin_image))]
fn write_image(alloc: Global, file: &MacFile) -> Result<Bytes, NoMemory>
    requires name { length file.now.name ≤ 63 }
    requires data_fork { length file.now.data_fork ≤ 33554432 }
    requires res_fork { length file.now.res_fork ≤ 33554432 }
    ensures image { IfOk result (λ bytes. bytes ≡ macbin_image file.now) }
    ensures fields { IsStored file.now.finder }
    ensures dates { OnOk result (AreDates file.now) }
    ensures check { OnOk result (crc_of 0 (macbin_header file.now) < 2 ^ 16) }
{
    finder_is_stored(&file.finder);
    let mut out = Bytes::new(alloc);
    append_names(&mut out, file)?;
    append_place(&mut out, file)?;
    append_lengths(&mut out, file)?;
    append_versions(&mut out, file)?;
    let check = crc(0, out.as_slice());
    append_u16(&mut out, check)?;
    append_u16(&mut out, 0)?;
    append_filled(&mut out, file.data_fork.as_slice())?;
    append_filled(&mut out, file.res_fork.as_slice())?;
    Ok(out)
}

/// Appends bytes 0 to 72.
#[tactic(auto, unfolding(crate::specs::MacBinary::macbin_names))]
fn append_names(out: &mut Bytes, file: &MacFile) -> Result<(), NoMemory>
    requires { length file.now.name ≤ 63 }
    ensures { OnOk result (out.new ≡ out.old ++ macbin_names file.now) }
{
    let length = file.name.len();
    out.push(0)?;
    out.push(length as u8)?;
    out.append(file.name.as_slice())?;
    append_zeros(out, 63 - length as usize)?;
    append_u32(out, file.finder.kind.code)?;
    append_u32(out, file.finder.creator.code)?;
    Ok(())
}

/// Appends bytes 73 to 82.
#[tactic(auto, unfolding(crate::specs::MacBinary::macbin_place))]
fn append_place(out: &mut Bytes, file: &MacFile) -> Result<(), NoMemory>
    ensures { OnOk result (out.new ≡ out.old ++ macbin_place file.now) }
{
    out.push((file.finder.flags / 256) as u8)?;
    out.push(0)?;
    append_position(out, &file.finder)?;
    out.push(lock_byte(file.locked))?;
    out.push(0)?;
    Ok(())
}

/// Appends the position and the folder.
fn append_position(out: &mut Bytes, finder: &Finder) -> Result<(), NoMemory>
    ensures { OnOk result (out.new ≡ out.old ++ be 2 (cast_unsigned w16 finder.now.vertical)
        ++ be 2 (cast_unsigned w16 finder.now.horizontal)
        ++ be 2 (cast_unsigned w16 finder.now.folder)) }
{
    append_u16(out, finder.vertical.cast_unsigned())?;
    append_u16(out, finder.horizontal.cast_unsigned())?;
    append_u16(out, finder.folder.cast_unsigned())?;
    Ok(())
}

/// The byte of the lock.
fn lock_byte(locked: bool) -> u8
    ensures { result ≡ (if locked then 1 else 0) }
{
    if locked { 1 } else { 0 }
}

/// Appends bytes 83 to 100.
#[tactic(auto, unfolding(crate::specs::MacBinary::macbin_lengths))]
fn append_lengths(out: &mut Bytes, file: &MacFile) -> Result<(), NoMemory>
    requires data_fork { length file.now.data_fork ≤ 33554432 }
    requires res_fork { length file.now.res_fork ≤ 33554432 }
    ensures bytes { OnOk result (out.new ≡ out.old ++ macbin_lengths file.now) }
    ensures dates { OnOk result (AreDates file.now) }
{
    append_u32(out, file.data_fork.len() as u32)?;
    append_u32(out, file.res_fork.len() as u32)?;
    append_u32(out, file.created)?;
    append_u32(out, file.modified)?;
    append_u16(out, 0)?;
    Ok(())
}

/// Appends bytes 101 to 123.
#[tactic(auto, unfolding(crate::specs::MacBinary::macbin_versions, crate::specs::Places::piece))]
fn append_versions(out: &mut Bytes, file: &MacFile) -> Result<(), NoMemory>
    ensures { OnOk result (out.new ≡ out.old ++ macbin_versions file.now) }
{
    out.push((file.finder.flags % 256) as u8)?;
    append_u32(out, SIGNATURE)?;
    out.append(&file.finder.extra[8..10])?;
    append_zeros(out, 12)?;
    append_u16(out, 0)?;
    out.push(VERSION)?;
    out.push(LEAST_VERSION)?;
    Ok(())
}
