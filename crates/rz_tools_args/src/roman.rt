//! The characters of an argument in Mac Roman.

ghost use Rattle.std.specs.Prelude.{IfOk, ◌++◌};
ghost use Rattle.rz_core.specs.Decided.{Decided};
ghost use Rattle.rz_pre_source.specs.Source.{mark, IsTextOf};

use rz_core::{Bytes, NoMemory, Stop};
use rz_pre_source::to_mac_roman;
use std::alloc::Global;

/// The bytes at the front of a source in UTF-8.
const UTF8_MARK: [u8; 3] = [0xEF, 0xBB, 0xBF];

/// The characters of a word in Mac Roman. `None` where one of them has no byte.
pub fn roman_of(alloc: Global, word: &str) -> Result<Option<Bytes>, NoMemory>
    ensures { IfOk result (Decided (IsTextOf (mark ++ word.now))) }
{
    let mut source = Bytes::of(alloc, &UTF8_MARK)?;
    source.append(word.as_bytes())?;
    match to_mac_roman(alloc, source) {
        Ok(bytes) => Ok(Some(bytes)),
        Err(Stop::Refused(_)) => Ok(None),
        Err(Stop::NoMemory) => Err(NoMemory),
    }
}
