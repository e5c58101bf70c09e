//! Bytes as run codes. What those are is in `specs/Runs`.

ghost use Rattle.std.specs.Prelude.{◌≡◌, ◌<◌, ◌++◌, replicate, IfOk, OnOk, Ok};
ghost use Rattle.std.specs.List.{flat_map};
ghost use Rattle.rz_hqx.specs.Runs.{equal_codes, literal, packed, stored, unpacked};

use rz_core::{Bytes, NoMemory};
use std::alloc::Global;

/// The byte that marks a run.
pub const MARK: u8 = 0x90;

/// The most bytes of a run.
const LONGEST_RUN: u8 = 255;

/// The one coding of bytes: runs of equal bytes are taken as long as they go, at most 255; a run of four or more is the
/// byte, 90 and the count, and shorter ones are the bytes one by one; the byte 90 by itself is 90 00.
/// [`runs_read`](crate::runs_read) of it gives the bytes again. (RFC 1741.)
pub fn runs_write(alloc: Global, bytes: &[u8]) -> Result<Bytes, NoMemory>
    ensures coded { IfOk result (λ coded. coded ≡ packed bytes.now) }
    ensures again { IfOk result (λ coded. unpacked coded ≡ Ok bytes.now) }
{
    Ok(write_runs(alloc, bytes)?)
}

/// The codes of bytes.
fn write_runs(alloc: Global, bytes: &[u8]) -> Result<Bytes, NoMemory>
    ensures { IfOk result (λ coded. coded ≡ packed bytes.now) }
{
    let mut out = Bytes::new(alloc);
    let [first, rest @ ..] = bytes else {
        return Ok(out);
    };
    let mut byte = *first;
    let mut count = 1;
    for next in rest {
        if *next == byte && count < LONGEST_RUN {
            count += 1;
        } else {
            append_run(&mut out, byte, count)?;
            byte = *next;
            count = 1;
        }
    }
    append_run(&mut out, byte, count)?;
    Ok(out)
}

/// Appends a byte by itself.
fn append_literal(out: &mut Bytes, byte: u8) -> Result<(), NoMemory>
    ensures { OnOk result (out.new ≡ out.old ++ literal byte) }
{
    out.push(byte)?;
    if byte == MARK {
        out.push(0)?;
    }
    Ok(())
}

/// Appends so many bytes by themselves.
fn append_literals(out: &mut Bytes, byte: u8, count: u8) -> Result<(), NoMemory>
    ensures { OnOk result (out.new ≡ out.old ++ flat_map literal (replicate count byte)) }
{
    for _ in 0..count {
        append_literal(out, byte)?;
    }
    Ok(())
}

/// Appends up to 255 equal bytes.
fn append_run(out: &mut Bytes, byte: u8, count: u8) -> Result<(), NoMemory>
    ensures { OnOk result (out.new ≡ out.old ++ flat_map stored (equal_codes byte count)) }
{
    if count < 4 {
        append_literals(out, byte, count)?;
        return Ok(());
    }
    append_literal(out, byte)?;
    out.push(MARK)?;
    out.push(count)?;
    Ok(())
}
