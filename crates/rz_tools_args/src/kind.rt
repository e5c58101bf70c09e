//! A resource type as an argument, as `specs/Kind` says.

ghost use Rattle.std.specs.Prelude.{IfOk};
ghost use Rattle.rz_core.specs.Decided.{Decided};
ghost use Rattle.rz_tools_args.specs.Kind.{IsKind};

use crate::roman::roman_of;
use rz_core::{NoMemory, OsType};
use rz_pre_source::one_text;
use std::alloc::Global;

/// The type that a word is: four characters that have bytes in Mac Roman. `None` for every other word.
pub fn kind_in(alloc: Global, word: &str) -> Result<Option<OsType>, NoMemory>
    ensures { IfOk result (Decided (IsKind word.now)) }
{
    one_text();
    match roman_of(alloc, word)? {
        Some(bytes) => Ok(OsType::of_bytes(bytes.as_slice())),
        None => Ok(None),
    }
}
