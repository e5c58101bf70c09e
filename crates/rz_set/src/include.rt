//! The included resources of a list, and their copies under a head. See `specs/Choice` and `specs/After`.

ghost use Rattle.std.specs.Prelude.{◌≡◌, filter, map, IfOk, IfErr, None, Some};
ghost use Rattle.std.specs.Option.{option_copied};
ghost use Rattle.rz_set.specs.After.{under, under_head};
ghost use Rattle.rz_set.specs.Choice.{included, missing_choice};
ghost use Rattle.rz_set.specs.Wanted.{is_included};

use crate::among::chosen_in;
use crate::pick::{Choice, Head, SetFault};
use crate::wanted::{Included, included_as};
use rz_core::{Bytes, NoMemory, Resource};
use std::alloc::Global;

/// Which resources of a list are included, or that there is no such resource.
pub fn included_by(source: &[Resource], choice: &Choice) -> Result<Included, SetFault>
    ensures included { IfOk result (λ test. filter (is_included test) source.now ≡ included choice.now source.now) }
    ensures there { IfOk result (λ test. missing_choice choice.now source.now ≡ None) }
    ensures missing { IfErr result (λ fault. missing_choice choice.now source.now ≡ Some fault) }
{
    included_as(choice, chosen_in(source, choice))
}

/// Copies of the included resources under a head, in order.
pub fn copy_all(
    alloc: Global,
    source: &[Resource],
    included: Included,
    head: Option<&Head>,
) -> Result<Vec<Resource>, NoMemory>
    ensures { IfOk result (λ news. news.items ≡ map (under (option_copied head.entry)) (filter (is_included included) source.now)) }
{
    let mut news = Vec::new(alloc);
    for resource in source {
        if included.holds(resource.kind, resource.id) {
            news.push(copy_under(alloc, resource, head)?)?;
        }
    }
    Ok(news)
}

/// A copy of a resource under a head.
fn copy_under(alloc: Global, resource: &Resource, head: Option<&Head>) -> Result<Resource, NoMemory>
    ensures { IfOk result (λ copy. copy ≡ under (option_copied head.entry) resource.now) }
{
    match head {
        Some(head) => copy_under_head(alloc, resource, head),
        None => Ok(Resource {
            kind: resource.kind,
            id: resource.id,
            name: Bytes::of(alloc, resource.name.as_slice())?,
            attr: resource.attr,
            bytes: Bytes::of(alloc, resource.bytes.as_slice())?,
        }),
    }
}

/// A copy of a resource with what a head has in place of its own.
fn copy_under_head(alloc: Global, resource: &Resource, head: &Head) -> Result<Resource, NoMemory>
    ensures { IfOk result (λ copy. copy ≡ under_head head.now resource.now) }
{
    let name = match &head.name {
        Some(name) => name.as_slice(),
        None => resource.name.as_slice(),
    };
    Ok(Resource {
        kind: head.kind,
        id: head.id.unwrap_or(resource.id),
        name: Bytes::of(alloc, name)?,
        attr: head.attr.unwrap_or(resource.attr),
        bytes: Bytes::of(alloc, resource.bytes.as_slice())?,
    })
}
