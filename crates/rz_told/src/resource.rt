//! The line of a resource, as `specs/Text` and `specs/Parts` have it.
#![tactic(auto, using(rz_show_lines::proofs::Writes::writes))]

ghost use Rattle.std.specs.Prelude.{◌≡◌, ◌<◌, ◌^◌, ◌++◌, codes, length, FitsSigned};
ghost use Rattle.std.specs.Int.{w16};
ghost use Rattle.rz_fork.specs.View.{lent};
ghost use Rattle.rz_show_lines.specs.Cut.{cut};
ghost use Rattle.rz_told.specs.Parts.{resource_end, resource_front};
ghost use Rattle.rz_told.specs.Puts.{PutsText};
ghost use Rattle.rz_told.specs.Text.{resource_line};

use crate::number::{decimal, signed};
use crate::put::{Failed, put_line, put_shown};
use rz_folder::Sink;
use rz_fork::ResView;
use rz_show_lines::{Line, attributes};

/// Puts the line of a resource: one piece where it has no name, else what stands before the name, the name in pieces,
/// and what stands after it.
pub fn put_resource<O: Sink>(view: &ResView<'_>, out: &mut O) -> Result<(), Failed>
    ensures { PutsText O.Sink out.old out.new (resource_line (lent view.now)) result }
{
    if view.name.is_empty() {
        return put_line(unnamed(view), out);
    }
    put_line(before_name(view), out)?;
    put_shown(view.name, out)?;
    put_line(after_name(view), out)
}

/// The line of a resource without a name.
fn unnamed(view: &ResView<'_>) -> Line
    ensures { result ≡ resource_front (lent view.now) ++ resource_end (lent view.now) }
{
    is_stored(view);
    let mut line = Line::new();
    write_front(view, &mut line);
    write_end(view, &mut line);
    line
}

/// What stands before the name of a resource.
fn before_name(view: &ResView<'_>) -> Line
    ensures { result ≡ resource_front (lent view.now) ++ codes ", \"" }
{
    is_stored(view);
    let mut line = Line::new();
    write_front(view, &mut line);
    line.append(b", \"");
    line
}

/// What stands after it.
fn after_name(view: &ResView<'_>) -> Line
    ensures { result ≡ codes "\"" ++ resource_end (lent view.now) }
{
    is_stored(view);
    let mut line = Line::new();
    line.push(b'"');
    write_end(view, &mut line);
    line
}

/// A law, which reads the id and the length and does nothing with them: they have 16 and 64 bits.
fn is_stored(view: &ResView<'_>)
    ensures id { FitsSigned w16 view.now.id }
    ensures bytes { length view.now.bytes.now < 2 ^ 64 }
{
    let _id = view.id;
    let _length = view.bytes.len();
}

/// Writes a resource up to its name.
#[tactic(auto, using(rz_show_lines::proofs::Writes::writes), unfolding(crate::specs::Parts::resource_front))]
fn write_front(view: &ResView<'_>, line: &mut Line)
    ensures { line.new ≡ cut (line.old ++ resource_front (lent view.now)) }
{
    line.literal(4, view.kind.code);
    line.append(b" (");
    signed(view.id, line);
}

/// Writes what stands after its name.
#[tactic(auto, using(rz_show_lines::proofs::Writes::writes), unfolding(crate::specs::Parts::resource_end))]
fn write_end(view: &ResView<'_>, line: &mut Line)
    ensures { line.new ≡ cut (line.old ++ resource_end (lent view.now)) }
{
    attributes(view.attr, line);
    line.append(b") ");
    decimal(view.bytes.len() as u64, line);
    line.push(b'\n');
}
