//! The writer of a file in a form, with its faults. What it gives is in `specs/Written`.

ghost use Rattle.std.specs.Prelude.{◌≡◌, ℕ, ◌<◌, ◌≤◌, ◌^◌, length, IfOk, Ok};
ghost use Rattle.rz_core.specs.Message.{IsNameable};
ghost use Rattle.rz_core.specs.Stop.{Gives, OnFault};
ghost use Rattle.rz_bridge_files.specs.Forms.{carried_of, content_of};
ghost use Rattle.rz_bridge_files.specs.Written.{written_as};

use crate::fault::form_fault;
use crate::{Form, write_form};
use rz_bridge::MacFile;
use rz_core::{Bytes, Fault, Stop};
use std::alloc::Global;

/// The one file of a form; of AppleDouble the header file, beside which the data fork is a file of its own. It and the
/// data fork are read as what the form carries.
///
/// Refused, without a mark, with 425 where the name hasn't a length that the form takes, and with 428 where a fork is
/// too long for it, as [`write_form`] says; a raw file is never refused. (RFC 1740, 1741; MacBinary III.)
pub fn write_as(alloc: Global, form: Form, file: &MacFile) -> Result<Bytes, Stop<Fault>>
    ensures bytes { Gives (written_as form file.now) result }
    ensures again { IfOk result (λ bytes.
        content_of form bytes file.now.data_fork ≡ Ok (carried_of form file.now)) }
    ensures short { length file.now.res_fork < 2 ^ 32 → IfOk result (λ bytes. length bytes < 2 ^ 32) }
    ensures data_fork { form ≡ Form.AppleDouble → IfOk result (λ _. length file.now.data_fork ≤ 33554432) }
    ensures nameable { (files : ℕ) → OnFault result (IsNameable files) }
{
    match write_form(alloc, form, file) {
        Ok(bytes) => Ok(bytes),
        Err(Stop::Refused(fault)) => Err(Stop::Refused(form_fault(fault, None))),
        Err(Stop::NoMemory) => Err(Stop::NoMemory),
    }
}
