//! The rule on repeated types and ids, without a look back over all that stands before each: codes of types are sorted,
//! and ids are marked in a table. See `specs/Rules`.

ghost use Rattle.std.specs.Prelude.{◌≡◌, ◌+◌, ◌*◌, ◌≤◌, ◌<◌, ◌^◌, ◌==◌, List, [], ◌∷◌, ◌++◌, length, map, take, eqb, true, None, IfNone, IfSome};
ghost use Rattle.std.specs.List.{list_any, IsDistinct};
ghost use Rattle.std.specs.List.Sorted.{IsStrictlyIncreasing};
ghost use Rattle.rz_core.specs.Lists.{first_in};
ghost use Rattle.rz_fork.specs.Layout.{entries, references};
ghost use Rattle.rz_fork.specs.Admit.{HasTypes, IsSayable};
ghost use Rattle.rz_fork.specs.Rules.{id_rule, list_rule, type_rule, Id};
ghost use Rattle.rz_fork.specs.Code.{in_types};
ghost use Rattle.rz_fork.specs.Code.{AreMarked};
ghost use Rattle.rz_fork.specs.declared.layout.Reference.{Reference};

use crate::admit::{entry_of, reference_of};
use crate::fault::ForkFault;
use crate::layout::{Outline, Reference, TypeEntry};
use crate::rules::{MAX_TYPES, fault};
use rz_core::u32_at;

/// How many ids there are.
pub const IDS: usize = 65_536;

/// Which ids are marked.
pub type Marks = [bool; IDS];

/// The first type that an entry before has.
pub fn type_repeated(bytes: &[u8], outline: Outline) -> Option<ForkFault>
    requires types { HasTypes bytes.now outline }
    ensures rule { result ≡ first_in type_rule [] (entries bytes.now outline) }
    ensures sayable { IfSome result IsSayable }
{
    if codes_differ(bytes, outline) {
        return None;
    }
    first_repeated(bytes, outline)
}

/// Whether the codes of all types differ.
fn codes_differ(bytes: &[u8], outline: Outline) -> bool
    requires types { HasTypes bytes.now outline }
    ensures { result ≡ true → IsDistinct eqb (map (λ t. t.code) (entries bytes.now outline)) }
{
    let mut codes = [0; MAX_TYPES];
    let codes = &mut codes[..outline.count];
    read_codes(codes, bytes, outline);
    codes.sort_unstable();
    rises(codes)
}

/// Reads the code of each type.
fn read_codes(codes: &mut [u32], bytes: &[u8], outline: Outline)
    requires types { HasTypes bytes.now outline }
    requires count { length codes.now ≡ outline.count }
    ensures { codes.new ≡ map (λ t. t.code) (entries bytes.now outline) }
{
    for position in 0..outline.count {
        codes[position] = entry_of(bytes, outline, position).code;
    }
}

/// Whether each number but the last is below the next.
fn rises(numbers: &[u32]) -> bool
    ensures { result ≡ true → IsStrictlyIncreasing numbers.now }
{
    for position in 1..numbers.len() {
        if numbers[position - 1] >= numbers[position] {
            return false;
        }
    }
    true
}

/// The first type that an entry before has, where each is compared with those before it.
fn first_repeated(bytes: &[u8], outline: Outline) -> Option<ForkFault>
    requires types { HasTypes bytes.now outline }
    ensures rule { result ≡ first_in type_rule [] (entries bytes.now outline) }
    ensures sayable { IfSome result IsSayable }
{
    for position in 0..outline.count {
        let entry = entry_of(bytes, outline, position);
        if let Some(fault) = type_repeats(bytes, outline, position, entry) {
            return Some(fault);
        }
    }
    None
}

/// Repeated, of a type after so many: whether one of them has its code.
pub fn type_repeats(
    bytes: &[u8],
    outline: Outline,
    count: usize,
    entry: TypeEntry,
) -> Option<ForkFault>
    requires types { HasTypes bytes.now outline }
    requires count { count ≤ outline.count }
    requires place { entry.place < 2 ^ 32 }
    ensures rule { result ≡ type_rule (take count (entries bytes.now outline)) entry }
    ensures sayable { IfSome result IsSayable }
{
    if has_code(bytes, outline, count, entry.code) {
        return Some(fault(410, entry.place, entry.code));
    }
    None
}

/// Whether one of the first so many types is this one.
fn has_code(bytes: &[u8], outline: Outline, count: usize, code: u32) -> bool
    requires types { HasTypes bytes.now outline }
    requires count { count ≤ outline.count }
    ensures { result ≡
        list_any (λ other. other.code == code) (take count (entries bytes.now outline)) }
{
    let first = outline.header.map_at + outline.types + 2;
    for position in 0..count {
        if u32_at(bytes, first + 8 * position) == code {
            return true;
        }
    }
    false
}

/// The first reference whose id a reference of its type before has.
pub fn id_repeated(bytes: &[u8], outline: Outline) -> Option<ForkFault>
    requires types { HasTypes bytes.now outline }
    requires lists { first_in (list_rule outline) [] (entries bytes.now outline) ≡ None }
    ensures rule { result ≡ in_types Id bytes.now outline (entries bytes.now outline) }
    ensures sayable { IfSome result IsSayable }
{
    let mut seen = [false; IDS];
    for position in 0..outline.count {
        let entry = entry_of(bytes, outline, position);
        if let Some(fault) = mark_ids(&mut seen, bytes, entry) {
            return Some(fault);
        }
        clear_ids(&mut seen, bytes, entry);
    }
    None
}

/// Repeated, of a reference: whether its id is marked, as those of the references of its type before it are. From then
/// on it is.
pub fn id_repeats(seen: &mut Marks, reference: Reference) -> Option<ForkFault>
    requires place { reference.place < 2 ^ 32 }
    ensures rule { (before : List Reference) → AreMarked seen.old before → result ≡ id_rule before reference }
    ensures marked { (before : List Reference) → AreMarked seen.old before → AreMarked seen.new (before ++ reference ∷ []) }
    ensures sayable { IfSome result IsSayable }
{
    let id = reference.id as usize;
    let repeats = seen[id];
    seen[id] = true;
    if repeats {
        return Some(fault(410, reference.place, reference.id as u32));
    }
    None
}

/// Marks the ids of a type, up to the first that is marked already.
fn mark_ids(seen: &mut Marks, bytes: &[u8], entry: TypeEntry) -> Option<ForkFault>
    requires list { entry.list + 12 * entry.count ≤ length bytes.now }
    requires short { length bytes.now < 2 ^ 32 }
    requires clear { AreMarked seen.now [] }
    ensures rule { result ≡ first_in id_rule [] (references bytes.now entry) }
    ensures marked { IfNone result (AreMarked seen.new (references bytes.now entry)) }
    ensures sayable { IfSome result IsSayable }
{
    for position in 0..entry.count {
        if let Some(fault) = id_repeats(seen, reference_of(bytes, entry, position)) {
            return Some(fault);
        }
    }
    None
}

/// Clears the marks of the ids of a type, so that the time goes by its references alone.
fn clear_ids(seen: &mut Marks, bytes: &[u8], entry: TypeEntry)
    requires list { entry.list + 12 * entry.count ≤ length bytes.now }
    requires marked { AreMarked seen.now (references bytes.now entry) }
    ensures { AreMarked seen.new [] }
{
    for position in 0..entry.count {
        seen[reference_of(bytes, entry, position).id as usize] = false;
    }
}
