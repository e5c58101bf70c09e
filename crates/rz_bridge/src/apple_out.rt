//! The writers of the header file of AppleDouble, and of AppleSingle; changed only with `specs/Apple`.

ghost use Rattle.std.specs.Prelude.{◌≡◌, ◌≤◌, ◌<◌, ◌+◌, ◌*◌, ◌^◌, ◌++◌, length, IfOk, OnOk, Ok};
ghost use Rattle.rz_core.specs.Lists.{each_with_front};
ghost use Rattle.rz_core.specs.Stop.{Gives, OnFault};
ghost use Rattle.rz_bridge.specs.Faults.{IsSayable};
ghost use Rattle.rz_bridge.specs.Ranges.{IsStored, AreDates};
ghost use Rattle.rz_bridge.specs.declared.apple.AppleForm.TheVariants.{Double, Single};
ghost use Rattle.rz_bridge.specs.Apple.{stored_date, dates_bytes, finder_bytes, short_name, entry_of, part_shown, parts_shown, bytes_of, part_entry, named, apple_start, image_of, apple_image, apple_written, apple_carried, data_beside, apple_content, double_content, single_content};

use crate::apple::{AppleForm, magic_of};
use crate::fault::BridgeFault;
use crate::file::{Finder, MacFile, finder_is_stored};
use crate::place::piece_at;
use crate::refuse::forks_refused;
use rz_core::{Bytes, NoMemory, Stop, append_u16, append_u32, append_zeros};
use std::alloc::Global;

/// The stored date that is none.
const NO_DATE: u32 = 0x8000_0000;

/// The first second that a stored date can mean, in seconds since the first of 1904.
const FIRST_DATE: u32 = 882_045_953;

/// The seconds that lead from one of 1904 to one of 2000, among the 2^32 that a date counts.
const TO_STORED: u32 = 1_265_437_696;

/// The longest name, in bytes.
const LONGEST_NAME: usize = 255;

/// The one AppleDouble header file of a file: the entries of the name, where it isn't empty, of the dates, of the
/// Finder's fields and of the resource fork, and their bytes after them. Of the name the first 255 bytes are written.
/// A date before 882,045,953 is written as none, and so are those of a copy and of the last reading. The data fork is a
/// file of its own. [`double_read`](crate::double_read) of the header and the data fork gives the file again, with its
/// name cut to 255 bytes, with 0 for dates before 882,045,953, and without its lock. The time is linear in the resource
/// fork.
///
/// Refused with 428 where a fork has more than 33,554,432 bytes, the data fork first; it keeps the length in bytes.
/// (RFC 1740.)
pub fn double_write(alloc: Global, file: &MacFile) -> Result<Bytes, Stop<BridgeFault>>
    ensures file { Gives (apple_written Double file.now) result }
    ensures again { IfOk result (λ bytes.
        double_content bytes file.now.data_fork ≡ Ok (apple_carried file.now)) }
    ensures short { IfOk result (λ bytes. length bytes < 2 ^ 32) }
    ensures data_fork { IfOk result (λ _. length file.now.data_fork ≤ 33554432) }
    ensures sayable { OnFault result IsSayable }
{
    write_apple(alloc, AppleForm::Double, file)
}

/// The one AppleSingle of a file: the entries of the name, where it isn't empty, of the dates, of the Finder's fields,
/// of the data fork and of the resource fork, and their bytes after them, each as [`double_write`] writes it.
/// [`single_read`](crate::single_read) gives the file again, with its name cut to 255 bytes, with 0 for dates before
/// 882,045,953, and without its lock. The time is linear in both forks.
///
/// Refused with 428 where a fork has more than 33,554,432 bytes, the data fork first; it keeps the length in bytes.
/// (RFC 1740.)
pub fn single_write(alloc: Global, file: &MacFile) -> Result<Bytes, Stop<BridgeFault>>
    ensures file { Gives (apple_written Single file.now) result }
    ensures again { IfOk result (λ bytes. single_content bytes ≡ Ok (apple_carried file.now)) }
    ensures short { IfOk result (λ bytes. length bytes < 2 ^ 32) }
    ensures sayable { OnFault result IsSayable }
{
    write_apple(alloc, AppleForm::Single, file)
}

/// The one file of a form.
fn write_apple(alloc: Global, form: AppleForm, file: &MacFile) -> Result<Bytes, Stop<BridgeFault>>
    ensures file { Gives (apple_written form file.now) result }
    ensures again { IfOk result (λ bytes.
        apple_content form bytes (data_beside form file.now) ≡ Ok (apple_carried file.now)) }
    ensures short { IfOk result (λ bytes. length bytes < 2 ^ 32) }
    ensures data_fork { IfOk result (λ _. length file.now.data_fork ≤ 33554432) }
    ensures sayable { OnFault result IsSayable }
{
    if let Some(fault) = forks_refused(file) {
        return Err(Stop::Refused(fault));
    }
    Ok(write_image(alloc, form, file)?)
}

/// The bytes of an id, lent.
#[derive(Clone, Copy)]
pub struct PartRef<'a> {
    /// What the bytes are.
    pub id: u32,
    /// The bytes.
    pub bytes: &'a [u8],
}

/// All bytes of a file in a form.
#[tactic(auto, unfolding(crate::specs::Apple::short_name, crate::specs::Places::piece))]
fn write_image(alloc: Global, form: AppleForm, file: &MacFile) -> Result<Bytes, NoMemory>
    requires data_fork { length file.now.data_fork ≤ 33554432 }
    requires res_fork { length file.now.res_fork ≤ 33554432 }
    ensures image { IfOk result (λ bytes. bytes ≡ apple_image form file.now) }
    ensures fields { IsStored file.now.finder }
    ensures dates { IfOk result (λ _. AreDates file.now) }
{
    finder_is_stored(&file.finder);
    let dates = write_dates(alloc, file)?;
    let info = write_finder(alloc, &file.finder)?;
    let name = lent(3, piece_at(file.name.as_slice(), 0, LONGEST_NAME));
    let dates = lent(8, dates.as_slice());
    let info = lent(9, info.as_slice());
    let data = lent(1, file.data_fork.as_slice());
    let fork = lent(2, file.res_fork.as_slice());
    let mut out = Bytes::new(alloc);
    match form {
        AppleForm::Double => append_named(&mut out, form, &[name, dates, info, fork])?,
        AppleForm::Single => append_named(&mut out, form, &[name, dates, info, data, fork])?,
    }
    Ok(out)
}

/// A part, lent.
fn lent<'a>(id: u32, bytes: &'a [u8]) -> PartRef<'a>
    ensures { part_shown result ≡ record { id = id; bytes = bytes.now } }
{
    PartRef { id, bytes }
}

/// Appends the whole of parts, without the first one, the name, where that is empty.
fn append_named(out: &mut Bytes, form: AppleForm, parts: &[PartRef<'_>]) -> Result<(), NoMemory>
    requires some { 0 < length parts.now }
    requires few { length parts.now < 2 ^ 16 }
    requires small { 26 + 12 * length parts.now + length (bytes_of (parts_shown parts.now)) < 2 ^ 32 }
    ensures { OnOk result (out.new ≡ out.old ++ image_of form (named (parts_shown parts.now))) }
{
    if parts[0].bytes.is_empty() {
        append_image(out, form, &parts[1..])
    } else {
        append_image(out, form, parts)
    }
}

/// Appends the start, the entries of parts, and their bytes.
fn append_image(out: &mut Bytes, form: AppleForm, parts: &[PartRef<'_>]) -> Result<(), NoMemory>
    requires few { length parts.now < 2 ^ 16 }
    requires small { 26 + 12 * length parts.now + length (bytes_of (parts_shown parts.now)) < 2 ^ 32 }
    ensures { OnOk result (out.new ≡ out.old ++ image_of form (parts_shown parts.now)) }
{
    append_start(out, form, parts.len() as u16)?;
    append_entries(out, parts)?;
    append_bytes(out, parts)?;
    Ok(())
}

/// Appends the entries of parts whose bytes stand after them.
fn append_entries(out: &mut Bytes, parts: &[PartRef<'_>]) -> Result<(), NoMemory>
    requires { 26 + 12 * length parts.now + length (bytes_of (parts_shown parts.now)) < 2 ^ 32 }
    ensures { OnOk result
        (out.new ≡ out.old ++ each_with_front (part_entry (length parts.now)) (parts_shown parts.now)) }
{
    let mut offset = 26 + 12 * parts.len() as u32;
    for part in parts {
        append_entry(out, part.id, offset, part.bytes.len() as u32)?;
        offset += part.bytes.len() as u32;
    }
    Ok(())
}

/// Appends the bytes of parts.
fn append_bytes(out: &mut Bytes, parts: &[PartRef<'_>]) -> Result<(), NoMemory>
    ensures { OnOk result (out.new ≡ out.old ++ bytes_of (parts_shown parts.now)) }
{
    for part in parts {
        out.append(part.bytes)?;
    }
    Ok(())
}

/// Appends the magic number, the version, the filler and the number of entries.
#[tactic(auto, unfolding(crate::specs::Apple::apple_start))]
fn append_start(out: &mut Bytes, form: AppleForm, count: u16) -> Result<(), NoMemory>
    ensures { OnOk result (out.new ≡ out.old ++ apple_start form count) }
{
    append_u32(out, magic_of(form))?;
    append_u32(out, 0x0002_0000)?;
    append_zeros(out, 16)?;
    append_u16(out, count)?;
    Ok(())
}

/// Appends an entry.
#[tactic(auto, unfolding(crate::specs::Apple::entry_of))]
fn append_entry(out: &mut Bytes, id: u32, offset: u32, count: u32) -> Result<(), NoMemory>
    ensures { OnOk result (out.new ≡ out.old ++ entry_of id offset count) }
{
    append_u32(out, id)?;
    append_u32(out, offset)?;
    append_u32(out, count)?;
    Ok(())
}

/// How a date is stored.
#[tactic(auto, unfolding(crate::specs::Apple::stored_date))]
fn stored_date(seconds: u32) -> u32
    ensures { result ≡ stored_date seconds }
{
    if seconds < FIRST_DATE {
        return NO_DATE;
    }
    seconds.wrapping_add(TO_STORED)
}

/// The dates as 16 bytes.
#[tactic(auto, unfolding(crate::specs::Apple::dates_bytes))]
fn write_dates(alloc: Global, file: &MacFile) -> Result<Bytes, NoMemory>
    ensures bytes { IfOk result (λ bytes. bytes ≡ dates_bytes file.now) }
    ensures dates { IfOk result (λ _. AreDates file.now) }
{
    let mut dates = Bytes::new(alloc);
    append_u32(&mut dates, stored_date(file.created))?;
    append_u32(&mut dates, stored_date(file.modified))?;
    append_u32(&mut dates, NO_DATE)?;
    append_u32(&mut dates, NO_DATE)?;
    Ok(dates)
}

/// The Finder's fields as 32 bytes.
#[tactic(auto, unfolding(crate::specs::Apple::finder_bytes))]
fn write_finder(alloc: Global, finder: &Finder) -> Result<Bytes, NoMemory>
    ensures { IfOk result (λ info. info ≡ finder_bytes finder.now) }
{
    let mut info = Bytes::new(alloc);
    append_u32(&mut info, finder.kind.code)?;
    append_u32(&mut info, finder.creator.code)?;
    append_u16(&mut info, finder.flags)?;
    append_u16(&mut info, finder.vertical.cast_unsigned())?;
    append_u16(&mut info, finder.horizontal.cast_unsigned())?;
    append_u16(&mut info, finder.folder.cast_unsigned())?;
    info.append(&finder.extra)?;
    Ok(info)
}
