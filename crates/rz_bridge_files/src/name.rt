//! The name that a file takes from the path it is written to; changed only with `specs/Names`.

ghost use Rattle.std.specs.Prelude.{◌≡◌, ◌<◌, ◌^◌, ◌++◌, ◌↔◌, ℕ, length, IfOk, IsTrue};
ghost use Rattle.std.specs.Str.{chars};
ghost use Rattle.rz_core.specs.Stop.{Meets, OnFault};
ghost use Rattle.rz_core.specs.Message.{IsNameable};
ghost use Rattle.rz_pre_source.specs.Source.{mark};
ghost use Rattle.rz_bridge_files.specs.Names.{bad_name, Named, TakesName};

use crate::{Form, last_name};
use rz_bridge::MacFile;
use rz_core::{Bytes, Fault, Kept, NoMemory, Stop};
use rz_pre_source::{one_text, to_mac_roman};
use std::alloc::Global;

/// The bytes at the front of a source in UTF-8.
const UTF8_MARK: [u8; 3] = [0xEF, 0xBB, 0xBF];

/// The name that a file takes from the path that it is written to: the last name of the path, in Mac Roman.
///
/// Refused with 425 where a character of this name has no byte there, keeping the number of its characters. (Inside
/// Macintosh: Text.)
pub fn taken_name(alloc: Global, path: &str) -> Result<Bytes, Stop<Fault>>
    ensures name { Meets result (TakesName path.now) }
    ensures nameable { (files : ℕ) → OnFault result (IsNameable files) }
{
    one_text();
    let last = last_name(path);
    match to_mac_roman(alloc, marked(alloc, last)?) {
        Ok(name) => Ok(name),
        Err(Stop::Refused(_)) => Err(Stop::Refused(bad_name(last))),
        Err(Stop::NoMemory) => Err(Stop::NoMemory),
    }
}

/// A text in UTF-8 after its mark.
fn marked(alloc: Global, text: &str) -> Result<Bytes, NoMemory>
    ensures { IfOk result (λ source. source ≡ mark ++ text.now) }
{
    let mut source = Bytes::of(alloc, &UTF8_MARK)?;
    source.append(text.as_bytes())?;
    Ok(source)
}

/// 425 for a name.
fn bad_name(name: &str) -> Fault
    ensures fault { result ≡ bad_name name.now }
    ensures nameable { (files : ℕ) → IsNameable files result }
{
    Fault {
        number: 425,
        mark: None,
        kept: Kept::Number(characters(name) as i64),
    }
}

/// The number of characters of a text.
fn characters(text: &str) -> usize
    ensures count { result ≡ length (chars text.now) }
    ensures bound { result < 2 ^ 63 }
{
    text.chars().count()
}

/// The file with the name that it takes from the path that it is written to in a form, as [`taken_name`] says, where
/// it has none. A file with a name keeps it, and a raw file needs none. All else stays.
pub fn named(alloc: Global, form: Form, path: &str, file: MacFile) -> Result<MacFile, Stop<Fault>>
    ensures named { Meets result (Named form path.now file) }
    ensures forks { IfOk result (λ named. (named.data_fork ≡ file.data_fork) × (named.res_fork ≡ file.res_fork)) }
    ensures nameable { (files : ℕ) → OnFault result (IsNameable files) }
{
    if is_raw(form) || !file.name.is_empty() {
        return Ok(file);
    }
    let name = taken_name(alloc, path)?;
    Ok(MacFile { name, ..file })
}

/// Whether a form is the resource fork alone, which has no name.
fn is_raw(form: Form) -> bool
    ensures { IsTrue result ↔ (form ≡ Form.Raw) }
{
    matches!(form, Form::Raw)
}
