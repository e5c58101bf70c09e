//! The readers of AppleDouble, a header file and its data file, and of AppleSingle; changed only with `specs/Apple`.

ghost use Rattle.std.specs.Prelude.{◌≡◌, ◌≤◌, ◌<◌, ◌+◌, ◌*◌, ◌^◌, length, IfOk};
ghost use Rattle.rz_core.specs.Stop.{Gives, OnFault};
ghost use Rattle.rz_bridge.specs.Faults.{IsSayable};
ghost use Rattle.rz_bridge.specs.declared.apple.AppleForm.TheVariants.{Double, Single};
ghost use Rattle.rz_bridge.specs.Apple.{entry_count, info_of, finder_of, mac_date, date_at, data_of, apple_fields, apple_content, double_content, single_content};

use crate::apple::AppleForm;
use crate::apple_rules::apple_torn;
use crate::entry::part;
use crate::fault::BridgeFault;
use crate::file::{Finder, MacFile};
use crate::place::piece_at;
use rz_core::{Bytes, NoMemory, OsType, Stop, u16_at, u32_at};
use std::alloc::Global;

/// The id of the data fork.
const DATA_FORK: u32 = 1;

/// The id of the resource fork.
const RESOURCE_FORK: u32 = 2;

/// The id of the name.
const REAL_NAME: u32 = 3;

/// The id of the dates.
const FILE_DATES: u32 = 8;

/// The id of the Finder's fields.
const FINDER_INFO: u32 = 9;

/// The stored date that is none.
const NO_DATE: u32 = 0x8000_0000;

/// The first second of 2000, from which stored dates count, in seconds since the first of 1904.
const FIRST_OF_2000: u32 = 3_029_529_600;

/// The longest name, in bytes.
const LONGEST_NAME: usize = 255;

/// The file of an AppleDouble header file and the data file beside it: the name, cut to 255 bytes, the Finder's fields,
/// the dates, and both forks. The first entry of an id counts, entries of other ids pass unread, also that of a data
/// fork, and an absent entry is empty. Fewer than 32 bytes of Finder info are filled with zeros, and more are cut.
/// Fewer than 8 bytes of dates have none. A date that is absent, is stored as 80000000 or lies after the last second
/// that 32 bits count from 1904 on is 0. The lock is off. An entry without bytes may have any offset. The header has
/// fewer than 2^32 bytes.
///
/// Refused with the header's first broken rule, in the order 421, 422, 427, 423 (see [`BridgeFault`]). (RFC 1740.)
pub fn double_read(
    alloc: Global,
    header: &[u8],
    data_file: &[u8],
) -> Result<MacFile, Stop<BridgeFault>>
    requires { length header.now < 2 ^ 32 }
    ensures file { Gives (double_content header.now data_file.now) result }
    ensures res_fork { IfOk result (λ file. length file.res_fork < 2 ^ 32) }
    ensures sayable { OnFault result IsSayable }
{
    read_apple(alloc, AppleForm::Double, header, data_file)
}

/// The file of an AppleSingle: both forks are entries, and all fields are read as [`double_read`] reads them from a
/// header. There are fewer than 2^32 bytes.
///
/// Refused with the first broken rule, in the order 421, 422, 427, 423 (see [`BridgeFault`]). (RFC 1740.)
pub fn single_read(alloc: Global, bytes: &[u8]) -> Result<MacFile, Stop<BridgeFault>>
    requires { length bytes.now < 2 ^ 32 }
    ensures file { Gives (single_content bytes.now) result }
    ensures res_fork { IfOk result (λ file. length file.res_fork < 2 ^ 32) }
    ensures sayable { OnFault result IsSayable }
{
    read_apple(alloc, AppleForm::Single, bytes, &[])
}

/// The file of bytes in a form, and of the data file beside them, which AppleDouble alone has.
fn read_apple(
    alloc: Global,
    form: AppleForm,
    bytes: &[u8],
    data_file: &[u8],
) -> Result<MacFile, Stop<BridgeFault>>
    requires { length bytes.now < 2 ^ 32 }
    ensures file { Gives (apple_content form bytes.now data_file.now) result }
    ensures res_fork { IfOk result (λ file. length file.res_fork < 2 ^ 32) }
    ensures sayable { OnFault result IsSayable }
{
    if let Some(fault) = apple_torn(form, bytes) {
        return Err(Stop::Refused(fault));
    }
    Ok(read_fields(alloc, bytes, data_of(form, bytes, data_file))?)
}

/// The bytes of the data fork.
fn data_of<'a>(form: AppleForm, bytes: &'a [u8], data_file: &'a [u8]) -> &'a [u8]
    requires start { 26 ≤ length bytes.now }
    requires entries { 26 + 12 * entry_count bytes.now ≤ length bytes.now }
    ensures { result.now ≡ data_of form bytes.now data_file.now }
{
    match form {
        AppleForm::Double => data_file,
        AppleForm::Single => part(bytes, DATA_FORK),
    }
}

/// The file that the entries make with a data fork.
#[tactic(auto, unfolding(crate::specs::Apple::apple_fields, crate::specs::Places::piece))]
fn read_fields(alloc: Global, bytes: &[u8], data_fork: &[u8]) -> Result<MacFile, NoMemory>
    requires start { 26 ≤ length bytes.now }
    requires entries { 26 + 12 * entry_count bytes.now ≤ length bytes.now }
    ensures file { IfOk result (λ file. file ≡ apple_fields bytes.now data_fork.now) }
    ensures res_fork { IfOk result (λ file. length file.res_fork ≤ length bytes.now) }
{
    let name = piece_at(part(bytes, REAL_NAME), 0, LONGEST_NAME);
    let info = info_of(part(bytes, FINDER_INFO));
    let dates = part(bytes, FILE_DATES);
    Ok(MacFile {
        name: Bytes::of(alloc, name)?,
        finder: read_finder(&info),
        locked: false,
        created: date_at(dates, 0),
        modified: date_at(dates, 4),
        data_fork: Bytes::of(alloc, data_fork)?,
        res_fork: Bytes::of(alloc, part(bytes, RESOURCE_FORK))?,
    })
}

/// A date among the dates of a file.
#[tactic(auto, unfolding(crate::specs::Apple::date_at))]
fn date_at(dates: &[u8], place: usize) -> u32
    requires { place ≤ 4 }
    ensures { result ≡ date_at dates.now place }
{
    if dates.len() < 8 {
        return 0;
    }
    mac_date(u32_at(dates, place))
}

/// The seconds since the first of 1904 that a stored date means.
#[tactic(auto, unfolding(crate::specs::Apple::mac_date))]
fn mac_date(stored: u32) -> u32
    ensures { result ≡ mac_date stored }
{
    if NO_DATE < stored {
        return stored - (u32::MAX - FIRST_OF_2000 + 1);
    }
    if u32::MAX - FIRST_OF_2000 < stored {
        return 0;
    }
    stored + FIRST_OF_2000
}

/// The first 32 bytes of these, filled with zeros.
#[tactic(auto, unfolding(crate::specs::Apple::info_of))]
fn info_of(bytes: &[u8]) -> [u8; 32]
    ensures { result ≡ info_of bytes.now }
{
    let given = piece_at(bytes, 0, 32);
    let mut info = [0; 32];
    info[..given.len()].copy_from_slice(given);
    info
}

/// The Finder's fields in 32 bytes.
#[tactic(auto, unfolding(crate::specs::Apple::finder_of, crate::specs::Places::piece))]
fn read_finder(info: &[u8]) -> Finder
    requires { length info.now ≡ 32 }
    ensures { result ≡ finder_of info.now }
{
    let mut extra = [0; 16];
    extra.copy_from_slice(&info[16..32]);
    Finder {
        kind: OsType {
            code: u32_at(info, 0),
        },
        creator: OsType {
            code: u32_at(info, 4),
        },
        flags: u16_at(info, 8),
        vertical: u16_at(info, 10).cast_signed(),
        horizontal: u16_at(info, 12).cast_signed(),
        folder: u16_at(info, 14).cast_signed(),
        extra,
    }
}
