//! The writer of BinHex 4.0; changed only with `specs/BinHex` and `specs/Text`.

ghost use Rattle.std.specs.Prelude.{◌≡◌, ◌≤◌, ◌<◌, ◌^◌, ◌++◌, length, IfOk, OnOk, Ok};
ghost use Rattle.std.specs.List.{AllByRecursion};
ghost use Rattle.rz_core.specs.Stop.{Gives, OnFault};
ghost use Rattle.rz_bridge.specs.Check.{crc_of};
ghost use Rattle.rz_bridge.specs.Faults.{IsSayable};
ghost use Rattle.rz_hqx.specs.BinHex.{hqx_header, hqx_bytes, with_check, hqx_written, hqx_content, hqx_carried, IsCarried};
ghost use Rattle.rz_hqx.specs.Text.{text_of};

use crate::coded::runs_write;
use crate::letters::{bytes_are_small, sixes};
use crate::text::lines_of;
use rz_bridge::{BridgeFault, MacFile, crc, file_refused, finder_is_stored};
use rz_core::{Bytes, NoMemory, Stop, append_u16, append_u32};
use std::alloc::Global;

/// The one BinHex 4.0 text of a file: the line that says what it is, and the letters between two colons, on lines of 64
/// characters that end in `\n`. [`hqx_read`](crate::hqx_read) of it gives name, type, creator, flags and both forks
/// again, and zeros for all else. The time is linear in the forks.
///
/// Refused with 425 where the name doesn't have 1 to 63 bytes, and then with 428 where a fork has more than 33,554,432
/// bytes, the data fork first; each keeps the length in bytes. (RFC 1741.)
pub fn hqx_write(alloc: Global, file: &MacFile) -> Result<Bytes, Stop<BridgeFault>>
    ensures file { Gives (hqx_written file.now) result }
    ensures again { IfOk result (λ text. hqx_content text ≡ Ok (hqx_carried file.now)) }
    ensures short { IfOk result (λ text. length text < 2 ^ 32) }
    ensures sayable { OnFault result IsSayable }
{
    if let Some(fault) = file_refused(file) {
        return Err(Stop::Refused(fault));
    }
    let bytes = write_bytes(alloc, file)?;
    let coded = runs_write(alloc, bytes.as_slice())?;
    Ok(write_text(alloc, coded.as_slice())?)
}

/// The text of bytes.
fn write_text(alloc: Global, bytes: &[u8]) -> Result<Bytes, NoMemory>
    ensures text { IfOk result (λ text. text ≡ text_of bytes.now) }
    ensures small { AllByRecursion (λ b. b < 256) bytes.now }
{
    bytes_are_small(bytes);
    let numbers = sixes(alloc, bytes)?;
    Ok(lines_of(alloc, numbers.as_slice())?)
}

/// The bytes of a file.
#[tactic(auto, unfolding(crate::specs::BinHex::hqx_bytes))]
fn write_bytes(alloc: Global, file: &MacFile) -> Result<Bytes, NoMemory>
    requires name { length file.now.name ≤ 63 }
    requires data_fork { length file.now.data_fork ≤ 33554432 }
    requires res_fork { length file.now.res_fork ≤ 33554432 }
    ensures bytes { IfOk result (λ bytes. bytes ≡ hqx_bytes file.now) }
    ensures ranges { OnOk result (IsCarried file.now) }
{
    finder_is_stored(&file.finder);
    let header = write_header(alloc, file)?;
    let mut out = Bytes::new(alloc);
    append_checked(&mut out, header.as_slice())?;
    append_checked(&mut out, file.data_fork.as_slice())?;
    append_checked(&mut out, file.res_fork.as_slice())?;
    Ok(out)
}

/// The fields up to the header's check.
#[tactic(auto, unfolding(crate::specs::BinHex::hqx_header))]
fn write_header(alloc: Global, file: &MacFile) -> Result<Bytes, NoMemory>
    requires name { length file.now.name ≤ 63 }
    requires data_fork { length file.now.data_fork ≤ 33554432 }
    requires res_fork { length file.now.res_fork ≤ 33554432 }
    ensures { IfOk result (λ bytes. bytes ≡ hqx_header file.now) }
{
    let mut out = Bytes::new(alloc);
    out.push(file.name.len() as u8)?;
    out.append(file.name.as_slice())?;
    out.push(0)?;
    append_u32(&mut out, file.finder.kind.code)?;
    append_u32(&mut out, file.finder.creator.code)?;
    append_u16(&mut out, file.finder.flags)?;
    append_u32(&mut out, file.data_fork.len() as u32)?;
    append_u32(&mut out, file.res_fork.len() as u32)?;
    Ok(out)
}

/// Appends bytes with their check.
fn append_checked(out: &mut Bytes, bytes: &[u8]) -> Result<(), NoMemory>
    ensures bytes { OnOk result (out.new ≡ out.old ++ with_check bytes.now) }
    ensures small { OnOk result (crc_of 0 bytes.now < 2 ^ 16) }
{
    let check = crc(0, bytes);
    out.append(bytes)?;
    append_u16(out, check)?;
    Ok(())
}
