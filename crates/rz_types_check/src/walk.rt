//! The walk over the fields of a declaration, depth first. Its steps are in `specs/Walked`.

ghost use Rattle.std.specs.Prelude.{IfOk, ◌≡◌, ◌+◌, [], None, option_map};
ghost use Rattle.rz_core.specs.Stop.{Gives};
ghost use Rattle.rz_core.specs.Lists.{unless_fault};
ghost use Rattle.rz_types_fields.specs.Field.{plain_body, plain_cases, plain_field};
ghost use Rattle.rz_types.specs.Rules.{broken, kept_position, unknown_fault, unknown_in};
ghost use Rattle.rz_types.specs.Walk.{and_names, names_of, no_names};
ghost use Rattle.rz_types_check.specs.Walked.{all_met, body_met, cases_met, field_met, met_of, own_of, rows_met, scope_of, Walks};

use crate::keys::Keys;
use crate::named::unknown_in;
use crate::names::{Names, counts_of, no_names, push_around, push_name, push_names};
use crate::rules::{MOST_KEPT, broken_behind, broken_field, unknown_fault};
use rz_core::{NoMemory, Stop};
use rz_types::TypeFault;
use rz_types_fields::{ArrayField, Case, Field, case_keys};
use std::alloc::Global;

/// A walk over the fields of a declaration, depth first.
#[derive(Drop)]
pub struct Walk<'a> {
    /// The position of the next field, from 0, at most 2^63 - 1.
    pub position: u64,
    /// The names of the labels and arrays so far.
    pub names: Names<'a>,
    /// Those that may be named here: of this body, and of the bodies around.
    pub scope: Names<'a>,
    /// The first name that a field can't name.
    pub unknown: Option<TypeFault>,
}

/// Refuses the first rule that fields break.
pub fn check_fields(alloc: Global, fields: &[Field]) -> Result<(), Stop<TypeFault>>
    ensures { Gives (unless_fault (broken (plain_body fields.now)) tt) result }
{
    let mut walk = Walk {
        position: 0,
        names: no_names(alloc),
        scope: no_names(alloc),
        unknown: None,
    };
    let ended = walk_whole(alloc, fields, &mut walk);
    drop(walk);
    ended
}

/// The same, by a walk that hasn't begun.
fn walk_whole<'a>(
    alloc: Global,
    fields: &'a [Field],
    walk: &mut Walk<'a>,
) -> Result<(), Stop<TypeFault>>
    requires scope { scope_of walk.old ≡ no_names }
    requires names { own_of walk.old.names ≡ no_names }
    requires position { walk.old.position ≡ 0 }
    requires unknown { walk.old.unknown ≡ None }
    ensures { Gives (unless_fault (broken (plain_body fields.now)) tt) result }
{
    match walk_body(alloc, fields, walk) {
        Ok(()) => {}
        Err(stop) => return Err(stop),
    }
    match walk.unknown.take() {
        Some(fault) => Err(Stop::Refused(fault)),
        None => Ok(()),
    }
}

/// Walks over a body: its fields may name its labels and arrays too.
#[cycle(walk)]
fn walk_body<'a>(
    alloc: Global,
    row: &'a [Field],
    walk: &mut Walk<'a>,
) -> Result<(), Stop<TypeFault>>
    ensures { Walks (body_met (and_names (scope_of walk.old) (names_of (plain_body row.now))) (met_of walk.old) (plain_body row.now)) walk.old result walk.new }
{
    let counts = counts_of(&walk.scope);
    push_names(&mut walk.scope, row)?;
    match walk_fields(alloc, row, walk) {
        Ok(()) => {}
        Err(stop) => return Err(stop),
    }
    walk.scope.cut(counts);
    Ok(())
}

/// Walks over the rows of an array: its fields may ask for the number of their row by the array's name too.
#[cycle(walk)]
fn walk_array<'a>(
    alloc: Global,
    array: &'a ArrayField,
    walk: &mut Walk<'a>,
) -> Result<(), Stop<TypeFault>>
    ensures { Walks (rows_met (scope_of walk.old) array.now.name (plain_body array.now.row) (met_of walk.old)) walk.old result walk.new }
{
    let counts = counts_of(&walk.scope);
    push_around(&mut walk.scope, &array.name)?;
    match walk_body(alloc, array.row.as_slice(), walk) {
        Ok(()) => {}
        Err(stop) => return Err(stop),
    }
    walk.scope.cut(counts);
    Ok(())
}

/// Walks over the fields of a body.
#[cycle(walk)]
fn walk_fields<'a>(
    alloc: Global,
    fields: &'a [Field],
    walk: &mut Walk<'a>,
) -> Result<(), Stop<TypeFault>>
    ensures { Walks (body_met (scope_of walk.old) (met_of walk.old) (plain_body fields.now)) walk.old result walk.new }
{
    for field in fields {
        match walk_field(alloc, field, walk) {
            Ok(()) => {}
            Err(stop) => return Err(stop),
        }
    }
    Ok(())
}

/// Walks over a field and the fields within it.
#[cycle(walk)]
fn walk_field<'a>(
    alloc: Global,
    field: &'a Field,
    walk: &mut Walk<'a>,
) -> Result<(), Stop<TypeFault>>
    ensures { Walks (all_met (scope_of walk.old) (met_of walk.old) (plain_field field.now)) walk.old result walk.new }
{
    let position = walk.position;
    match meet(alloc, field, walk) {
        Ok(()) => {}
        Err(stop) => return Err(stop),
    }
    match field {
        Field::Array(array) => walk_array(alloc, array, walk),
        Field::Switch(cases, _hints) => walk_cases(alloc, position, cases.as_slice(), walk),
        _ => Ok(()),
    }
}

/// Walks over the cases of the switch at this position.
#[cycle(walk)]
fn walk_cases<'a>(
    alloc: Global,
    position: u64,
    cases: &'a [Case],
    walk: &mut Walk<'a>,
) -> Result<(), Stop<TypeFault>>
    ensures { Walks (cases_met (scope_of walk.old) position [] (met_of walk.old) (plain_cases cases.now)) walk.old result walk.new }
{
    let mut keys = Keys::new(alloc);
    for case in cases {
        match walk_body(alloc, case.row.as_slice(), walk) {
            Ok(()) => {}
            Err(stop) => return Err(stop),
        }
        let own = case_keys(alloc, case.row.as_slice())?;
        let broken = broken_behind(alloc, position, &case.name, &own, &keys)?;
        if let Some(fault) = broken {
            return Err(Stop::Refused(fault));
        }
        keys.push(&own)?;
    }
    Ok(())
}

/// Meets a field: refuses the first rule that it breaks itself, and else steps after it.
fn meet<'a>(alloc: Global, field: &'a Field, walk: &mut Walk<'a>) -> Result<(), Stop<TypeFault>>
    ensures { Walks (field_met (scope_of walk.old) (met_of walk.old) (plain_field field.now)) walk.old result walk.new }
{
    if let Some(fault) = broken_field(alloc, walk.position, &walk.names, field)? {
        return Err(Stop::Refused(fault));
    }
    if walk.unknown.is_none() {
        walk.unknown = unknown_here(alloc, walk.position, &walk.scope, field)?;
    }
    push_name(&mut walk.names, field)?;
    walk.position = next_position(walk.position);
    Ok(())
}

/// The first name that a field at this position can't name.
fn unknown_here(
    alloc: Global,
    position: u64,
    scope: &Names<'_>,
    field: &Field,
) -> Result<Option<TypeFault>, NoMemory>
    ensures { IfOk result (λ fault. fault ≡ option_map (unknown_fault position) (unknown_in (own_of scope.now) (plain_field field.now))) }
{
    match unknown_in(alloc, scope, field)? {
        Some(name) => Ok(Some(unknown_fault(alloc, position, name)?)),
        None => Ok(None),
    }
}

fn next_position(position: u64) -> u64
    ensures { result ≡ kept_position (position + 1) }
{
    if position < MOST_KEPT {
        position + 1
    } else {
        MOST_KEPT
    }
}
