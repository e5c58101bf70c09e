//! The entries of a template. See `specs/Cut`.

ghost use Rattle.rz_core.specs.Stop.{Meets};
ghost use Rattle.rz_tmpl.specs.Cut.{Reads};

use crate::bodies::Bodies;
use crate::entry::Entry;
use crate::fault::TmplFault;
use rz_core::{Listing, Stop, rest_at};
use std::alloc::Global;

/// The entries of a template, in order.
pub type Entries = Listing<Entry>;

/// The entries of a template, without their labels: counts, lists that are closed, and fields. Time and memory are
/// linear in the bytes.
///
/// Refused is the first entry with a fault, at its offset, or the end, at the length of the bytes: 451 TornEntry, the
/// label or the code ends after the bytes; 452 UnknownCode, a code that this project doesn't take; 453 ListUnbalanced,
/// the end of a list where none is open, or the end of the bytes where one is; 454 CountUnpaired, a list with a count
/// before which no count waits in its body, a count while one waits there, or one that still waits at the end; 455
/// EmptyElement, the end of a list whose rows have nothing but zeros; 456 ListTooDeep, the 61st list that is open at
/// once. An entry has the first of these that it meets. (ResEdit Reference, 'TMPL' resources.)
pub fn entries(alloc: Global, bytes: &[u8]) -> Result<Entries, Stop<TmplFault>>
    ensures { Meets result (Reads bytes.now) }
{
    let mut entries = Entries::new(alloc);
    let mut bodies = Bodies::new();
    let mut rest = bytes;
    loop {
        match bodies.next(rest) {
            Err(number) => {
                return Err(Stop::Refused(TmplFault {
                    number,
                    offset: (bytes.len() - rest.len()) as u64,
                }));
            }
            Ok(None) => return Ok(entries),
            Ok(Some(next)) => {
                entries.push(next.entry)?;
                bodies.take(next.entry);
                rest = rest_at(rest, next.length);
            }
        }
    }
}
