//! Whether bytes are a fork: the rules in their order, over all types and references. See `specs/Admit`,
//! `specs/Rules` and `specs/Code`.

ghost use Rattle.std.specs.Prelude.{◌≡◌, ◌<◌, ◌≤◌, ◌+◌, ◌*◌, ◌^◌, [], length, slice_get, List, IfSome, IfOk, IfErr, MatchResult, Some, None};
ghost use Rattle.rz_core.specs.Lists.{first_in};
ghost use Rattle.rz_fork.specs.Layout.{header_of, the_outline, entries, references};
ghost use Rattle.rz_fork.specs.Admit.{inadmissible, HasArea, HasTypes, IsSayable};
ghost use Rattle.rz_fork.specs.Rules.{list_rule, reference_rule};
ghost use Rattle.rz_fork.specs.Code.{map_fault, in_type, in_types, lists_broken, IsAdmitted};
ghost use Rattle.rz_fork.specs.Code.{tested_by};
ghost use Rattle.rz_fork.specs.declared.layout.Reference.{Reference};

use crate::fault::ForkFault;
use crate::layout::{
    Outline, Reference, TypeEntry, entry_at, read_header, read_outline, reference_at, type_list_at,
};
use crate::repeats::{id_repeated, type_repeated};
use crate::rules::{
    ReferenceRule, data_area_outside, data_outside, map_outside, name_outside, references_outside,
    short_header, short_map, type_list_outside, types_outside,
};

/// The outline of an admitted fork, or the first broken rule. It takes no memory. The time is linear in the map, but
/// that the codes of types are sorted, and are compared with each other where one stands twice.
pub fn admit(bytes: &[u8]) -> Result<Outline, ForkFault>
    requires short { length bytes.now < 2 ^ 32 }
    requires some { 0 < length bytes.now }
    ensures first { MatchResult result
        (λ outline. inadmissible bytes.now ≡ None)
        (λ fault. inadmissible bytes.now ≡ Some fault) }
    ensures admitted { IfOk result (IsAdmitted bytes.now) }
    ensures sayable { IfErr result IsSayable }
{
    let outline = admit_map(bytes)?;
    if let Some(fault) = lists_broken(bytes, outline) {
        return Err(fault);
    }
    Ok(outline)
}

/// The outline of a fork whose type list lies in its map, or the first broken rule on the header and
/// the map.
#[tactic(auto, unfolding(crate::specs::Code::map_broken))]
fn admit_map(bytes: &[u8]) -> Result<Outline, ForkFault>
    requires short { length bytes.now < 2 ^ 32 }
    ensures ok { IfOk result (λ outline. map_fault bytes.now ≡ None) }
    ensures err { IfErr result (λ fault. map_fault bytes.now ≡ Some fault) }
    ensures outline { IfOk result (λ outline. outline ≡ the_outline bytes.now) }
    ensures header { IfOk result (λ outline. outline.header ≡ header_of bytes.now) }
    ensures types { IfOk result (HasTypes bytes.now) }
    ensures area { IfOk result (λ outline. HasArea bytes.now outline.header) }
    ensures sayable { IfErr result IsSayable }
{
    if let Some(fault) = short_header(bytes) {
        return Err(fault);
    }
    let header = read_header(bytes);
    if let Some(fault) = data_area_outside(bytes, header) {
        return Err(fault);
    }
    if let Some(fault) = map_outside(bytes, header) {
        return Err(fault);
    }
    if let Some(fault) = short_map(header) {
        return Err(fault);
    }
    let types = type_list_at(bytes, header);
    if let Some(fault) = type_list_outside(header, types) {
        return Err(fault);
    }
    let outline = read_outline(bytes, header, types);
    if let Some(fault) = types_outside(outline) {
        return Err(fault);
    }
    Ok(outline)
}

/// The first broken rule on types and references.
#[tactic(auto, unfolding(crate::specs::Code::lists_broken))]
fn lists_broken(bytes: &[u8], outline: Outline) -> Option<ForkFault>
    requires types { HasTypes bytes.now outline }
    requires area { HasArea bytes.now outline.header }
    ensures rule { result ≡ lists_broken bytes.now outline }
    ensures sayable { IfSome result IsSayable }
{
    if let Some(fault) = lists_outside(bytes, outline) {
        return Some(fault);
    }
    if let Some(fault) = in_types(ReferenceRule::Data, bytes, outline) {
        return Some(fault);
    }
    if let Some(fault) = in_types(ReferenceRule::Name, bytes, outline) {
        return Some(fault);
    }
    if let Some(fault) = type_repeated(bytes, outline) {
        return Some(fault);
    }
    id_repeated(bytes, outline)
}

/// The entry of a type, by its position from 0.
pub fn entry_of(bytes: &[u8], outline: Outline, position: usize) -> TypeEntry
    requires types { HasTypes bytes.now outline }
    requires position { position < outline.count }
    ensures entry { slice_get (entries bytes.now outline) position ≡ Some result }
    ensures place { result.place < 2 ^ 32 }
    ensures count { result.count < 2 ^ 16 }
    ensures list { result.list < 2 ^ 35 }
{
    entry_at(
        bytes,
        outline,
        outline.header.map_at + outline.types + 2 + 8 * position,
    )
}

/// A reference of a type, by its position from 0.
pub fn reference_of(bytes: &[u8], entry: TypeEntry, position: usize) -> Reference
    requires list { entry.list + 12 * entry.count ≤ length bytes.now }
    requires position { position < entry.count }
    ensures reference { slice_get (references bytes.now entry) position ≡ Some result }
    ensures place { result.place < length bytes.now }
{
    reference_at(bytes, entry.list + 12 * position)
}

/// The first type whose reference list is outside.
fn lists_outside(bytes: &[u8], outline: Outline) -> Option<ForkFault>
    requires { HasTypes bytes.now outline }
    ensures rule { result ≡ first_in (list_rule outline) [] (entries bytes.now outline) }
    ensures sayable { IfSome result IsSayable }
{
    let mut so_far = 0;
    for position in 0..outline.count {
        let entry = entry_of(bytes, outline, position);
        if let Some(fault) = references_outside(outline, so_far, entry) {
            return Some(fault);
        }
        so_far += entry.count;
    }
    None
}

/// A rule on where the data or the name of a reference stand.
fn reference_broken(
    rule: ReferenceRule,
    bytes: &[u8],
    outline: Outline,
    reference: Reference,
) -> Option<ForkFault>
    requires types { HasTypes bytes.now outline }
    requires area { HasArea bytes.now outline.header }
    ensures rule { (before : List Reference) → result ≡ reference_rule (tested_by rule) bytes.now outline before reference }
    ensures sayable { IfSome result IsSayable }
{
    match rule {
        ReferenceRule::Data => data_outside(bytes, outline, reference),
        ReferenceRule::Name => name_outside(bytes, outline, reference),
    }
}

/// The first reference of a type that breaks the rule.
fn in_type(
    rule: ReferenceRule,
    bytes: &[u8],
    outline: Outline,
    entry: TypeEntry,
) -> Option<ForkFault>
    requires types { HasTypes bytes.now outline }
    requires area { HasArea bytes.now outline.header }
    requires list { entry.list + 12 * entry.count ≤ length bytes.now }
    ensures rule { result ≡ in_type (tested_by rule) bytes.now outline entry }
    ensures sayable { IfSome result IsSayable }
{
    for position in 0..entry.count {
        let reference = reference_of(bytes, entry, position);
        if let Some(fault) = reference_broken(rule, bytes, outline, reference) {
            return Some(fault);
        }
    }
    None
}

/// The first reference of all types that breaks the rule.
fn in_types(rule: ReferenceRule, bytes: &[u8], outline: Outline) -> Option<ForkFault>
    requires types { HasTypes bytes.now outline }
    requires area { HasArea bytes.now outline.header }
    requires lists { first_in (list_rule outline) [] (entries bytes.now outline) ≡ None }
    ensures rule { result ≡ in_types (tested_by rule) bytes.now outline (entries bytes.now outline) }
    ensures sayable { IfSome result IsSayable }
{
    for position in 0..outline.count {
        let entry = entry_of(bytes, outline, position);
        if let Some(fault) = in_type(rule, bytes, outline, entry) {
            return Some(fault);
        }
    }
    None
}
