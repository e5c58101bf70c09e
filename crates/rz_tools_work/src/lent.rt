//! The resources of a fork, which are lent, as an `include` statement puts them: which of them, and copies of those alone.
//! What is left of the list is `after_include` of `rz_set`.

ghost use Rattle.std.specs.Prelude.{◌≡◌, ◌<◌, filter, length, map, IfOk, IfErr, None, Some};
ghost use Rattle.std.specs.List.{flat_map};
ghost use Rattle.std.specs.Option.{option_copied};
ghost use Rattle.rz_fork.specs.View.{lent};
ghost use Rattle.rz_set.specs.After.{after_include, after_put, forbidden, replaced, under, under_head, HasShortName, Leaves};
ghost use Rattle.rz_set.specs.Choice.{included, missing_choice, the_choice};
ghost use Rattle.rz_set.specs.ResSet.{AreNamed};
ghost use Rattle.rz_set.specs.Wanted.{is_included};
ghost use Rattle.rz_tools_values.specs.Lent.{lent_one};

use rz_core::{Bytes, NoMemory, Resource, Stop};
use rz_fork::{ForkView, ResView};
use rz_set::{Choice, Head, Included, ResSet, SetFault, included_as};
use rz_tools_values::picked_in;
use std::alloc::Global;

/// Puts copies of the chosen resources of a fork into the list, in order, each with the type, id, name and attributes of a
/// head in place of its own, where the head has them; no other is copied. A pick by id or name that chooses none is
/// refused, and then one by which a protected resource of the list would be replaced, where protected ones aren't given
/// up; both before anything is copied. After a refusal, and where memory is refused, the list is unchanged. It goes at
/// most twice over the fork, and for a pick by id or name up to the resource that it finds. (MPW Rez.)
pub fn include_lent(
    alloc: Global,
    fork: &ForkView<'_>,
    choice: &Choice,
    head: Option<&Head>,
    over: bool,
    resources: &mut ResSet,
) -> Result<(), Stop<SetFault>>
    requires named { AreNamed fork.now.list }
    requires head { HasShortName (option_copied head) }
    ensures { Leaves resources.old (after_include fork.now.list choice.now (option_copied head.entry) over resources.old) result resources.new }
{
    fork.keys_differ();
    match chosen_in(fork, choice) {
        Some(one) => include_one(alloc, &one, head, over, resources),
        None => include_each(alloc, fork, choice, head, over, resources),
    }
}

/// The resource of a fork that the pick by id or name of a choice finds, if there is one.
fn chosen_in<'a>(fork: &ForkView<'a>, choice: &Choice) -> Option<ResView<'a>>
    ensures { lent_one result ≡ the_choice choice.now fork.now.list }
{
    match choice {
        Choice::All | Choice::Except(_) => None,
        Choice::Chosen(kind, pick) => picked_in(fork, *kind, pick),
    }
}

/// Puts a copy of one lent resource under a head into the list.
fn include_one(
    alloc: Global,
    one: &ResView<'_>,
    head: Option<&Head>,
    over: bool,
    resources: &mut ResSet,
) -> Result<(), Stop<SetFault>>
    requires { length (under (option_copied head) (lent one.now)).name < 256 }
    ensures { Leaves resources.old (after_put over (under (option_copied head.entry) (lent one.now)) resources.old) result resources.new }
{
    if let Some(fault) = forbidden_by(one, head, over, resources) {
        return Err(Stop::Refused(fault));
    }
    let copy = copy_under(alloc, one, head)?;
    resources.put(copy, over)
}

/// Puts copies of the resources of a fork that a choice includes under a head into the list, where the choice has no pick by
/// id or name, or one that finds nothing and is refused.
fn include_each(
    alloc: Global,
    fork: &ForkView<'_>,
    choice: &Choice,
    head: Option<&Head>,
    over: bool,
    resources: &mut ResSet,
) -> Result<(), Stop<SetFault>>
    requires none { the_choice choice.now fork.now.list ≡ None }
    requires named { AreNamed fork.now.list }
    requires head { HasShortName (option_copied head) }
    ensures { Leaves resources.old (after_include fork.now.list choice.now (option_copied head.entry) over resources.old) result resources.new }
{
    let included = match included_in(fork, choice) {
        Ok(included) => included,
        Err(fault) => return Err(Stop::Refused(fault)),
    };
    if let Some(fault) = forbidden_in(fork, included, head, over, resources) {
        return Err(Stop::Refused(fault));
    }
    let news = copies(alloc, fork, included, head)?;
    resources.put_each(news, over)
}

/// Which resources of a fork are included, by type and id, where no pick by id or name finds one; such a pick is refused.
fn included_in(fork: &ForkView<'_>, choice: &Choice) -> Result<Included, SetFault>
    requires { the_choice choice.now fork.now.list ≡ None }
    ensures included { IfOk result (λ test. filter (is_included test) fork.now.list ≡ included choice.now fork.now.list) }
    ensures there { IfOk result (λ test. missing_choice choice.now fork.now.list ≡ None) }
    ensures missing { IfErr result (λ fault. missing_choice choice.now fork.now.list ≡ Some fault) }
{
    included_as(choice, None)
}

/// The first protected resource of the list that an included one of a fork would replace, if it may not be. It takes no
/// memory.
fn forbidden_in(
    fork: &ForkView<'_>,
    included: Included,
    head: Option<&Head>,
    over: bool,
    resources: &ResSet,
) -> Option<SetFault>
    ensures { result ≡ forbidden over
        (flat_map (replaced resources.now) (map (under (option_copied head.entry)) (filter (is_included included) fork.now.list))) }
{
    let mut walk = fork.walk();
    while let Some(one) = walk.next() {
        if included.holds(one.kind, one.id) {
            if let Some(fault) = forbidden_by(&one, head, over, resources) {
                return Some(fault);
            }
        }
    }
    None
}

/// The protected resource of the list that one would replace under a head, if it may not be.
fn forbidden_by(
    one: &ResView<'_>,
    head: Option<&Head>,
    over: bool,
    resources: &ResSet,
) -> Option<SetFault>
    ensures { result ≡ forbidden over (replaced resources.now (under (option_copied head.entry) (lent one.now))) }
{
    match head {
        Some(head) => resources.forbidden_at(head.kind, head.id.unwrap_or(one.id), over),
        None => resources.forbidden_at(one.kind, one.id, over),
    }
}

/// Copies of the included resources of a fork under a head, in order.
fn copies(
    alloc: Global,
    fork: &ForkView<'_>,
    included: Included,
    head: Option<&Head>,
) -> Result<Vec<Resource>, NoMemory>
    ensures { IfOk result (λ news. news.items ≡ map (under (option_copied head.entry)) (filter (is_included included) fork.now.list)) }
{
    let mut news = Vec::new(alloc);
    let mut walk = fork.walk();
    while let Some(one) = walk.next() {
        if included.holds(one.kind, one.id) {
            news.push(copy_under(alloc, &one, head)?)?;
        }
    }
    Ok(news)
}

/// A copy of a lent resource under a head.
fn copy_under(alloc: Global, one: &ResView<'_>, head: Option<&Head>) -> Result<Resource, NoMemory>
    ensures { IfOk result (λ copy. copy ≡ under (option_copied head.entry) (lent one.now)) }
{
    match head {
        Some(head) => copy_under_head(alloc, one, head),
        None => Ok(Resource {
            kind: one.kind,
            id: one.id,
            name: Bytes::of(alloc, one.name)?,
            attr: one.attr,
            bytes: Bytes::of(alloc, one.bytes)?,
        }),
    }
}

/// A copy of a lent resource with what a head has in place of its own.
fn copy_under_head(alloc: Global, one: &ResView<'_>, head: &Head) -> Result<Resource, NoMemory>
    ensures { IfOk result (λ copy. copy ≡ under_head head.now (lent one.now)) }
{
    let name = match &head.name {
        Some(name) => name.as_slice(),
        None => one.name,
    };
    Ok(Resource {
        kind: head.kind,
        id: head.id.unwrap_or(one.id),
        name: Bytes::of(alloc, name)?,
        attr: head.attr.unwrap_or(one.attr),
        bytes: Bytes::of(alloc, one.bytes)?,
    })
}
