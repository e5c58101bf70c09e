//! The file in bytes of a form, and its fork in place. What they are is in `specs/Contents`.

ghost use Rattle.std.specs.Prelude.{◌≡◌, ℕ, ◌<◌, ◌≤◌, ◌^◌, [], length, IfOk, IfErr, Ok, Err};
ghost use Rattle.std.specs.List.{AllByRecursion};
ghost use Rattle.rz_core.specs.Message.{IsMarked, IsNameable};
ghost use Rattle.rz_core.specs.Resources.{KeysDiffer};
ghost use Rattle.rz_core.specs.Stop.{Gives, OnFault};
ghost use Rattle.rz_fork.specs.Contents.{FitsFork};
ghost use Rattle.rz_fork.specs.Image.{AreNamed};
ghost use Rattle.rz_bridge_files.specs.Forms.{content_of};
ghost use Rattle.rz_bridge_files.specs.Contents.{admit_fork, file_in, form_or, IsFile};
ghost use Rattle.rz_bridge_files.specs.Faults.{or_broken};

use crate::fault::{fork_fault, form_fault};
use crate::{Form, form_of, read_form};
use rz_bridge::MacFile;
use rz_core::{Bytes, Fault, Mark, Stop};
use rz_fork::ForkView;
use std::alloc::Global;

/// The file in these bytes, fewer than 2^32, and in the data file beside them, which AppleDouble alone has; read in
/// the form that is given, else in the one that [`form_of`] tells. A raw file is all of the bytes as they are, which
/// takes no memory for them.
///
/// Refused at the mark with the first rule of its form that the file breaks: 421 to 427 of AppleDouble, AppleSingle and
/// MacBinary, 441 to 447 of BinHex. (RFC 1740, 1741; MacBinary II and III.)
pub fn file_in(
    alloc: Global,
    form: Option<Form>,
    bytes: Bytes,
    data_file: Bytes,
    mark: Option<Mark>,
) -> Result<MacFile, Stop<Fault>>
    requires { length bytes < 2 ^ 32 }
    ensures file { Gives (file_in mark form bytes data_file) result }
    ensures res_fork { IfOk result (λ file. IsFile file.res_fork) }
    ensures nameable { (files : ℕ) → IsMarked files mark → OnFault result (IsNameable files) }
{
    let form = form_or(form, bytes.as_slice());
    let file = read_as(alloc, form, bytes, data_file.as_slice(), mark)?;
    is_file(file.res_fork.as_slice());
    Ok(file)
}

/// The form that is given, else the one that the bytes have.
fn form_or(form: Option<Form>, bytes: &[u8]) -> Form
    ensures { result ≡ form_or form bytes.now }
{
    match form {
        Some(form) => form,
        None => form_of(bytes),
    }
}

/// What bytes of a form hold.
fn read_as(
    alloc: Global,
    form: Form,
    bytes: Bytes,
    data_file: &[u8],
    mark: Option<Mark>,
) -> Result<MacFile, Stop<Fault>>
    requires { length bytes < 2 ^ 32 }
    ensures file { Gives (or_broken mark (content_of form bytes data_file.now)) result }
    ensures res_fork { IfOk result (λ file. length file.res_fork < 2 ^ 32) }
    ensures nameable { (files : ℕ) → IsMarked files mark → OnFault result (IsNameable files) }
{
    match read_form(alloc, form, bytes, data_file) {
        Ok(file) => Ok(file),
        Err(Stop::Refused(fault)) => Err(Stop::Refused(form_fault(fault, mark))),
        Err(Stop::NoMemory) => Err(Stop::NoMemory),
    }
}

/// A law, which reads the bytes and does nothing with them.
fn is_file(bytes: &[u8])
    requires { length bytes.now < 2 ^ 32 }
    ensures { IsFile bytes.now }
{
    let _count = bytes.len();
}

/// The fork in these bytes, fewer than 2^32, in place: it takes no memory.
///
/// Refused at the mark with the first rule that the fork breaks, 401 to 410, as [`ForkView::admit`] says. (Inside
/// Macintosh: More Macintosh Toolbox, Resource Manager, resource file format.)
pub fn admit_fork<'a>(fork: &'a [u8], mark: Option<Mark>) -> Result<ForkView<'a>, Fault>
    requires { length fork.now < 2 ^ 32 }
    ensures fork { IfOk result (λ view. admit_fork mark fork.now ≡ Ok view) }
    ensures fault { IfErr result (λ fault. admit_fork mark fork.now ≡ Err fault) }
    ensures keys { IfOk result (λ view. KeysDiffer [] view.list) }
    ensures bytes { IfOk result (λ view. AllByRecursion FitsFork view.list) }
    ensures names { IfOk result (λ view. AreNamed view.list) }
    ensures room { IfOk result (λ view. length view.reserved ≤ 240) }
    ensures nameable { (files : ℕ) → IsMarked files mark → IfErr result (IsNameable files) }
{
    match ForkView::admit(fork) {
        Ok(view) => Ok(view),
        Err(fault) => Err(fork_fault(fault, mark)),
    }
}
