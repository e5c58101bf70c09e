//! The row that bytes say under a 'TMPL' resource. See `specs/Reading`.

ghost use Rattle.std.specs.Prelude.{◌≡◌, ◌≤◌, ◌+◌, ◌^◌, IfOk, length, List, Ok, Some};
ghost use Rattle.rz_core.specs.Stop.{seen, Meets};
ghost use Rattle.rz_tmpl.specs.Cut.{IsCut};
ghost use Rattle.rz_tmpl.specs.Items.{Items};
ghost use Rattle.rz_tmpl_laws.specs.Reading.{AreRead, IsSaid};
ghost use Rattle.rz_types_fields.specs.declared.tree.Tree.{Tree};
ghost use Rattle.rz_unlay.specs.Reading.{row_in};

use crate::laws::said_rows_are_plain;
use rz_core::{Facts, Stop};
use rz_tmpl::{TmplFault, closed_templates_are_readable, one_cut, template_of};
use rz_unlay::{Reading, read};
use std::alloc::Global;

/// The row that the bytes of a resource say under those of a 'TMPL' resource: `Tree` with the one row that they say
/// where the template is closed, and `NoTree` exactly where it isn't, or they say none. No row is said by more than
/// 16,777,212 bytes. Nothing depends on what is known of the resource. Time and memory are those of [`template_of`] and
/// of [`read`].
///
/// Refused is the first fault of the entries, 451 to 456, as by [`template_of`]. (ResEdit Reference, 'TMPL' resources.)
pub fn tmpl_read(
    alloc: Global,
    tmpl: &[u8],
    bytes: &[u8],
    facts: &Facts,
) -> Result<Reading, Stop<TmplFault>>
    ensures told { Meets (seen row_in result) (AreRead tmpl.now bytes.now) }
    ensures every { (items : Items) (row : List Tree) → IsCut tmpl.now (Ok items) → IsSaid items bytes.now row → IfOk result (λ reading. row_in reading ≡ Some row) }
{
    said_rows_are_plain();
    closed_templates_are_readable();
    one_cut();
    bytes_are_counted(tmpl);
    let template = template_of(alloc, tmpl)?;
    Ok(read(alloc, &template, bytes, facts)?)
}

/// A law of bytes in memory: 64 bits count them.
fn bytes_are_counted(tmpl: &[u8])
    ensures { 1 + length tmpl.now ≤ 2 ^ 64 }
{
    let _ = tmpl.len();
}
