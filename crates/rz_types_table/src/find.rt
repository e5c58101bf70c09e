//! Which declaration counts for an id, and which one `as` names. Both are defined in `specs/Table`.

ghost use Rattle.std.specs.Prelude.{◌≡◌, if◌then◌else◌, None, Some, option_map};
ghost use Rattle.rz_core.specs.Lists.{or_else};
ghost use Rattle.rz_types_table.specs.Listed.{declaration_of, groups_of, listed, AreOwn, IsFirst};
ghost use Rattle.rz_types_table.specs.Positions.{group_of, in_slot, ArePlaced};
ghost use Rattle.rz_types_table.specs.Table.{asked, found, is_any, is_for, is_id, is_range_of, last_such, no_such_type, same_scope, stands_at};

use crate::positions::{Places, held};
use crate::table::{Declared, Scope};
use rz_core::{Kept, OsType};
use rz_types::TypeFault;

/// Which of the declarations of a group is for a scope, where they stand in the slots at these positions: its index among
/// the positions.
pub fn index_of(
    slots: &[Option<Declared>],
    own: &[usize],
    kind: OsType,
    scope: Scope,
) -> Option<usize>
    requires { AreOwn (group_of kind scope) slots.now own.now }
    ensures { IsFirst (stands_at kind scope) slots.now own.now result }
{
    for (index, position) in own.iter().enumerate() {
        if stands_in(&slots[*position], kind, scope) {
            return Some(index);
        }
    }
    None
}

/// Whether the declaration in a slot is of a type and for a scope.
fn stands_in(slot: &Option<Declared>, kind: OsType, scope: Scope) -> bool
    ensures { result ≡ in_slot (stands_at kind scope) (option_map declaration_of slot.now) }
{
    match slot {
        Some(one) => one.kind.code == kind.code && same_scope(one.scope, scope),
        None => false,
    }
}

fn same_scope(one: Scope, other: Scope) -> bool
    ensures { result ≡ same_scope one other }
{
    match (one, other) {
        (Scope::Id(one), Scope::Id(other)) => one == other,
        (Scope::Range(first, last), Scope::Range(from, to)) => first == from && last == to,
        (Scope::Any, Scope::Any) => true,
        _ => false,
    }
}

/// The declaration that counts for an id.
pub fn find_in<'a>(
    slots: &'a [Option<Declared>],
    places: &Places,
    kind: OsType,
    id: i16,
) -> Option<&'a Declared>
    requires { ArePlaced (groups_of slots.now) places.now }
    ensures { option_map (λ one. declaration_of one.now) result ≡ found kind id (listed slots.now) }
{
    let own = held(places, (kind.code, Some(id)));
    let others = held(places, (kind.code, None));
    let by_id = last_for_id(slots, own, kind, id);
    let by_range = last_for_range(slots, others, kind, id);
    let for_any = last_for_any(slots, others, kind);
    or_else(by_id, or_else(by_range, for_any))
}

/// The declaration that `as` names.
pub fn asked_in<'a>(
    slots: &'a [Option<Declared>],
    places: &Places,
    kind: OsType,
    id: Option<i16>,
) -> Option<&'a Declared>
    requires { ArePlaced (groups_of slots.now) places.now }
    ensures { option_map (λ one. declaration_of one.now) result ≡ asked kind id (listed slots.now) }
{
    match id {
        Some(id) => find_in(slots, places, kind, id),
        None => last_for_any(slots, held(places, (kind.code, None)), kind),
    }
}

/// The last declaration for this very id, where those for it stand in the slots at these positions.
fn last_for_id<'a>(
    slots: &'a [Option<Declared>],
    own: &[usize],
    kind: OsType,
    id: i16,
) -> Option<&'a Declared>
    requires { AreOwn (kind.code, Some id) slots.now own.now }
    ensures { option_map (λ one. declaration_of one.now) result ≡ last_such (is_for kind (is_id id)) (listed slots.now) }
{
    let mut by_id = None;
    for position in own {
        let slot = &slots[*position];
        by_id = later(by_id, slot, is_for_id(slot, kind, id));
    }
    by_id
}

/// The last declaration whose range holds an id, where those for ranges and for any id stand at these positions.
fn last_for_range<'a>(
    slots: &'a [Option<Declared>],
    own: &[usize],
    kind: OsType,
    id: i16,
) -> Option<&'a Declared>
    requires { AreOwn (kind.code, None) slots.now own.now }
    ensures { option_map (λ one. declaration_of one.now) result ≡ last_such (is_for kind (is_range_of id)) (listed slots.now) }
{
    let mut by_range = None;
    for position in own {
        let slot = &slots[*position];
        by_range = later(by_range, slot, is_for_range_of(slot, kind, id));
    }
    by_range
}

/// The last declaration for any id, where those for ranges and for any id stand at these positions.
fn last_for_any<'a>(
    slots: &'a [Option<Declared>],
    own: &[usize],
    kind: OsType,
) -> Option<&'a Declared>
    requires { AreOwn (kind.code, None) slots.now own.now }
    ensures { option_map (λ one. declaration_of one.now) result ≡ last_such (is_for kind is_any) (listed slots.now) }
{
    let mut for_any = None;
    for position in own {
        let slot = &slots[*position];
        for_any = later(for_any, slot, is_for_any(slot, kind));
    }
    for_any
}

/// The declaration in a slot that passes, else the one before.
fn later<'a>(
    before: Option<&'a Declared>,
    slot: &'a Option<Declared>,
    passes: bool,
) -> Option<&'a Declared>
    ensures { option_map (λ one. declaration_of one.now) result
        ≡ (if passes then option_map declaration_of slot.now else option_map (λ one. declaration_of one.now) before.entry) }
{
    if passes { slot.as_ref() } else { before }
}

/// The first of two, where it is there.
fn or_else<'a>(first: Option<&'a Declared>, other: Option<&'a Declared>) -> Option<&'a Declared>
    ensures { option_map (λ one. declaration_of one.now) result
        ≡ or_else (option_map (λ one. declaration_of one.now) first.entry) (option_map (λ one. declaration_of one.now) other.entry) }
{
    match first {
        Some(one) => Some(one),
        None => other,
    }
}

fn is_for_id(slot: &Option<Declared>, kind: OsType, id: i16) -> bool
    ensures { result ≡ in_slot (is_for kind (is_id id)) (option_map declaration_of slot.now) }
{
    match slot {
        Some(one) => one.kind.code == kind.code && is_id(one.scope, id),
        None => false,
    }
}

fn is_id(scope: Scope, id: i16) -> bool
    ensures { result ≡ is_id id scope }
{
    match scope {
        Scope::Id(own) => own == id,
        _ => false,
    }
}

fn is_for_range_of(slot: &Option<Declared>, kind: OsType, id: i16) -> bool
    ensures { result ≡ in_slot (is_for kind (is_range_of id)) (option_map declaration_of slot.now) }
{
    match slot {
        Some(one) => one.kind.code == kind.code && is_range_of(one.scope, id),
        None => false,
    }
}

fn is_range_of(scope: Scope, id: i16) -> bool
    ensures { result ≡ is_range_of id scope }
{
    match scope {
        Scope::Range(first, last) => first <= id && id <= last,
        _ => false,
    }
}

fn is_for_any(slot: &Option<Declared>, kind: OsType) -> bool
    ensures { result ≡ in_slot (is_for kind is_any) (option_map declaration_of slot.now) }
{
    match slot {
        Some(one) => one.kind.code == kind.code && is_any(one.scope),
        None => false,
    }
}

fn is_any(scope: Scope) -> bool
    ensures { result ≡ is_any scope }
{
    matches!(scope, Scope::Any)
}

/// 239 for a type, and the id that was asked for.
pub fn no_such_type(kind: OsType, id: Option<i16>) -> TypeFault
    ensures { result ≡ no_such_type kind id }
{
    TypeFault {
        number: 239,
        field: 0,
        kept: Kept::Key(kind, i32::from(id.unwrap_or(0))),
    }
}
