//! The template of the bytes of a 'TMPL' resource. See `specs/Template`.

ghost use Rattle.std.specs.Prelude.{◌≡◌, ◌≤◌, ◌+◌, ◌^◌, IfOk, length};
ghost use Rattle.rz_core.specs.Stop.{seen, Meets};
ghost use Rattle.rz_tmpl.specs.Parts.{starts, starts_in, IsPart};
ghost use Rattle.rz_tmpl.specs.Template.{HasBody};
ghost use Rattle.rz_tmpl.specs.Items.{entries_of, Items};
ghost use Rattle.rz_types.specs.Template.{template_of};

use crate::laws::{closed_templates_are_readable, tmpl_bodies_are_templates};
use crate::parts::{Part, Parts};
use crate::{Entry, ListForm, TmplFault, entries};
use rz_core::{NoMemory, Stop};
use rz_types::Template;
use std::alloc::Global;

/// The template that the bytes of a 'TMPL' resource are. Its fields are those of a declaration: each entry is one, and
/// counted lists are arrays `L1`, `L2` and so on, in the order in which they begin. Time and memory are linear in the
/// bytes.
///
/// Refused is the first fault of the entries, 451 to 456, as by [`entries`]. (ResEdit Reference, 'TMPL' resources.)
pub fn template_of(alloc: Global, bytes: &[u8]) -> Result<Template, Stop<TmplFault>>
    ensures { Meets (seen template_of result) (HasBody bytes.now) }
{
    tmpl_bodies_are_templates();
    closed_templates_are_readable();
    let part = match entries(alloc, bytes) {
        Ok(entries) => part_of(alloc, entries.as_slice())?,
        Err(stop) => return Err(stop),
    };
    let readable = part.closing.closed;
    Ok(Template::of(alloc, part.into_body(), readable)?)
}

/// The fields of the entries of a body. They are read from the last to the first, so that a count is met after its
/// list.
fn part_of(alloc: Global, entries: &[Entry]) -> Result<Part, NoMemory>
    requires { (items : Items) × (entries.now ≡ entries_of items) }
    ensures few { 1 + starts_in entries.now ≤ 2 ^ 64 }
    ensures part { (items : Items) → entries.now ≡ entries_of items → IfOk result (IsPart 1 items) }
{
    let mut parts = Parts::new(alloc, counted_lists(entries) + 1);
    let mut left = entries;
    while let Some((entry, front)) = left.split_last() {
        parts = parts.with(alloc, *entry)?;
        left = front;
    }
    Ok(parts.inner)
}

/// How many counted lists begin at these entries.
fn counted_lists(entries: &[Entry]) -> u64
    ensures lists { result ≡ starts_in entries.now }
    ensures few { result ≤ length entries.now }
{
    let mut lists = 0;
    for entry in entries {
        lists += starts(*entry);
    }
    lists
}

/// How many begin at one.
fn starts(entry: Entry) -> u64
    ensures lists { result ≡ starts entry }
    ensures few { result ≤ 1 }
{
    match entry {
        Entry::Start(ListForm::Counted) => 1,
        Entry::Start(ListForm::Uncounted) | Entry::One(_) | Entry::Count(_) | Entry::End => 0,
    }
}
