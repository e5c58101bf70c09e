//! The contents of a resource, within its limit. What they are is in `specs/Contents`.

ghost use Rattle.std.specs.Prelude.{◌≡◌, ◌<◌, ℕ, Err};
ghost use Rattle.rz_core.specs.Message.{IsNameable};
ghost use Rattle.rz_core.specs.Stop.{Gives, OnFault};
ghost use Rattle.rz_types_fields.specs.Text.{plain_parts};
ghost use Rattle.rz_tools_values.specs.Contents.{contents_of, short_bytes, with_bytes};

use crate::head::keeps_number;
use rz_core::{Bytes, Facts, Fault, Mark, Resource, Stop};
use rz_types_fields::{Texts, text_of};
use std::alloc::Global;

/// The most bytes of a resource.
const MOST_BYTES: u64 = 16_777_212;

/// The resource of which this is known, with these contents.
pub fn with_bytes(known: Facts, bytes: Bytes) -> Resource
    ensures { result ≡ with_bytes known bytes }
{
    let Facts {
        kind,
        id,
        name,
        attr,
        ..
    } = known;
    Resource {
        kind,
        id,
        name,
        attr,
        bytes,
    }
}

/// The contents that a text is: 301 for more than 16,777,212 bytes.
pub fn contents_of(
    alloc: Global,
    texts: &Texts,
    mark: Mark,
    facts: &Facts,
) -> Result<Bytes, Stop<Fault>>
    ensures contents { Gives (contents_of mark facts.now (plain_parts texts.now)) result }
    ensures nameable { (files : ℕ) → mark.file < files → OnFault result (IsNameable files) }
{
    short_bytes(text_of(alloc, texts, mark, facts)?, mark)
}

/// The contents of a resource on this line: 301 for more than 16,777,212 bytes. It takes no memory.
pub fn short_bytes(bytes: Bytes, mark: Mark) -> Result<Bytes, Stop<Fault>>
    ensures bytes { Gives (short_bytes mark bytes) result }
    ensures ample { result ≡ Err Stop.NoMemory → ⊥ }
    ensures nameable { (files : ℕ) → mark.file < files → OnFault result (IsNameable files) }
{
    if bytes.len() > MOST_BYTES {
        return Err(Stop::Refused(keeps_number(301, mark, bytes.len() as i64)));
    }
    Ok(bytes)
}
