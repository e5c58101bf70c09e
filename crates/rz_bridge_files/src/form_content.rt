//! One reader and one writer over all forms, and the raw file. What a form holds is in `specs/Forms`.

ghost use Rattle.std.specs.Prelude.{◌≡◌, ◌≤◌, ◌<◌, ◌^◌, length, IfOk, Ok};
ghost use Rattle.rz_core.specs.Stop.{Gives, OnFault};
ghost use Rattle.rz_bridge.specs.Faults.{IsSayable};
ghost use Rattle.rz_bridge_files.specs.Forms.{raw_file, content_of, written_of, carried_of};

use crate::form::Form;
use rz_bridge::{
    BridgeFault, Finder, MacFile, double_read, double_write, macbin_read, macbin_write,
    single_read, single_write,
};
use rz_core::{Bytes, OsType, Stop};
use rz_hqx::{hqx_read, hqx_write};
use std::alloc::Global;

/// The type and the creator of a file that has none, `????`.
const UNKNOWN: OsType = OsType { code: 0x3F3F_3F3F };

/// The file of bytes in a form, and of the data file beside them, which AppleDouble alone has. A raw file has an empty
/// name, type and creator `????`, no data fork, and all other fields zero. There are fewer than 2^32 bytes.
///
/// Refused as by the form's own reader: [`double_read`], [`single_read`], [`macbin_read`] and [`hqx_read`]; a raw file
/// is never refused.
pub fn read_form(
    alloc: Global,
    form: Form,
    bytes: Bytes,
    data_file: &[u8],
) -> Result<MacFile, Stop<BridgeFault>>
    requires { length bytes < 2 ^ 32 }
    ensures file { Gives (content_of form bytes data_file.now) result }
    ensures res_fork { IfOk result (λ file. length file.res_fork < 2 ^ 32) }
    ensures sayable { OnFault result IsSayable }
{
    match form {
        Form::Raw => Ok(read_raw(alloc, bytes)),
        Form::AppleDouble => double_read(alloc, bytes.as_slice(), data_file),
        Form::AppleSingle => single_read(alloc, bytes.as_slice()),
        Form::MacBinary => macbin_read(alloc, bytes),
        Form::BinHex => hqx_read(alloc, bytes.as_slice()),
    }
}

/// The file whose resource fork is all of the bytes. It takes no memory.
fn read_raw(alloc: Global, bytes: Bytes) -> MacFile
    ensures { result ≡ raw_file bytes }
{
    MacFile {
        name: Bytes::new(alloc),
        finder: Finder {
            kind: UNKNOWN,
            creator: UNKNOWN,
            flags: 0,
            vertical: 0,
            horizontal: 0,
            folder: 0,
            extra: [0; 16],
        },
        locked: false,
        created: 0,
        modified: 0,
        data_fork: Bytes::new(alloc),
        res_fork: bytes,
    }
}

/// The one file of a form; of AppleDouble the header file, beside which the data fork is a file of its own. Of a raw
/// file the resource fork is written alone. [`read_form`] of it and of the data fork gives what the form carries again.
///
/// Refused as by the form's own writer: [`double_write`], [`single_write`], [`macbin_write`] and [`hqx_write`]; a raw
/// file is never refused.
pub fn write_form(alloc: Global, form: Form, file: &MacFile) -> Result<Bytes, Stop<BridgeFault>>
    ensures file { Gives (written_of form file.now) result }
    ensures again { IfOk result (λ bytes.
        content_of form bytes file.now.data_fork ≡ Ok (carried_of form file.now)) }
    ensures short { length file.now.res_fork < 2 ^ 32 → IfOk result (λ bytes. length bytes < 2 ^ 32) }
    ensures data_fork { form ≡ Form.AppleDouble → IfOk result (λ _. length file.now.data_fork ≤ 33554432) }
    ensures sayable { OnFault result IsSayable }
{
    match form {
        Form::Raw => Ok(Bytes::of(alloc, file.res_fork.as_slice())?),
        Form::AppleDouble => double_write(alloc, file),
        Form::AppleSingle => single_write(alloc, file),
        Form::MacBinary => macbin_write(alloc, file),
        Form::BinHex => hqx_write(alloc, file),
    }
}
