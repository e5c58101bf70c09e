//! The rules on types and references, each tested over all of them before the next.

ghost use Rattle.std.specs.Prelude.{◌≡◌, ◌<◌, ◌≤◌, ◌+◌, ◌*◌, ◌^◌, ◌++◌, ◌∷◌, List, [], true, length, IfNone, IfSome, MatchOption};
ghost use Rattle.rz_fork.specs.Admit.{HasArea, HasTypes, IsSayable};
ghost use Rattle.rz_fork.specs.Breaks.{listed};
ghost use Rattle.rz_fork.specs.Code.{AreMarked};
ghost use Rattle.rz_fork.specs.declared.layout.Reference.{Reference};
ghost use Rattle.rz_told.specs.Left.{behind, in_type, left_here, left_in, references_left, IsAt, Marked};
ghost use Rattle.rz_told.specs.declared.lists.Pass.TheVariants as passes;

use rz_fork::{
    ForkFault, IDS, Marks, Outline, Reference, TypeEntry, data_outside, entry_of, id_repeats,
    name_outside, reference_of, references_outside, type_repeats,
};

/// A rule on types and references.
#[derive(Clone, Copy)]
pub enum Pass {
    /// ReferencesOutside.
    Lists,
    /// DataOutside.
    Data,
    /// NameOutside.
    Names,
    /// Repeated, of types.
    Codes,
    /// Repeated, of ids.
    Ids,
}

/// How far a rule is tested.
#[derive(Clone, Copy)]
pub struct Cursor {
    /// The type whose references are tested.
    pub entry: TypeEntry,
    /// How many of them are.
    pub next: usize,
    /// How many types are begun.
    pub begun: usize,
    /// How many references these have.
    pub so_far: usize,
}

/// Where the test of a rule begins: with a type that has no references.
pub const START: Cursor = Cursor {
    entry: TypeEntry {
        place: 0,
        code: 0,
        count: 0,
        list: 0,
    },
    next: 0,
    begun: 0,
    so_far: 0,
};

/// The rule that is tested after this one; that on data is only where the data area lies in the fork.
fn after(pass: Pass, area: bool) -> Option<Pass>
    ensures passes { MatchOption result (behind area pass ≡ []) (λ next. behind area pass ≡ next ∷ behind area next) }
    ensures tested { IfSome result (λ next. next ≡ passes.Data → area ≡ true) }
{
    match pass {
        Pass::Lists if area => Some(Pass::Data),
        Pass::Lists | Pass::Data => Some(Pass::Names),
        Pass::Names => Some(Pass::Codes),
        Pass::Codes => Some(Pass::Ids),
        Pass::Ids => None,
    }
}

/// What the rule finds at a reference; that on ids looks at those that are marked, and marks its own.
fn reference_fault(
    pass: Pass,
    bytes: &[u8],
    outline: Outline,
    reference: Reference,
    marks: &mut Marks,
) -> Option<ForkFault>
    requires types { HasTypes bytes.now outline }
    requires area { pass ≡ passes.Data → HasArea bytes.now outline.header }
    requires place { reference.place < 2 ^ 32 }
    ensures rule { (before : List Reference) → (pass ≡ passes.Ids → AreMarked marks.old before) → result ≡ in_type pass bytes.now outline before reference }
    ensures marked { (before : List Reference) → pass ≡ passes.Ids → AreMarked marks.old before → AreMarked marks.new (before ++ reference ∷ []) }
    ensures sayable { IfSome result IsSayable }
{
    match pass {
        Pass::Lists | Pass::Codes => None,
        Pass::Data => data_outside(bytes, outline, reference),
        Pass::Names => name_outside(bytes, outline, reference),
        Pass::Ids => id_repeats(marks, reference),
    }
}

/// The next fault in a type, from a reference on.
fn next_reference(
    pass: Pass,
    bytes: &[u8],
    outline: Outline,
    entry: TypeEntry,
    next: &mut usize,
    marks: &mut Marks,
) -> Option<ForkFault>
    requires types { HasTypes bytes.now outline }
    requires area { pass ≡ passes.Data → HasArea bytes.now outline.header }
    requires list { next.old < entry.count → entry.list + 12 * entry.count ≤ length bytes.now }
    requires marked { Marked pass bytes.now marks.old entry next.old }
    ensures gives { references_left pass bytes.now outline entry next.old ≡ listed result ++ references_left pass bytes.now outline entry next.new }
    ensures onward { next.old ≤ next.new }
    ensures all { IfNone result (entry.count ≤ next.new) }
    ensures marked { Marked pass bytes.now marks.new entry next.new }
    ensures sayable { IfSome result IsSayable }
{
    while *next < entry.count {
        let reference = reference_of(bytes, entry, *next);
        let fault = reference_fault(pass, bytes, outline, reference, marks);
        *next += 1;
        if fault.is_some() {
            return fault;
        }
    }
    None
}

/// Clears the marks where the rule is that on ids.
fn clear(pass: Pass, marks: &mut Marks)
    ensures { pass ≡ passes.Ids → AreMarked marks.new [] }
{
    if let Pass::Ids = pass {
        for id in 0..IDS {
            marks[id] = false;
        }
    }
}

/// Begins the next type, and gives what the rule finds at the type itself.
fn begin_type(
    pass: Pass,
    bytes: &[u8],
    outline: Outline,
    cursor: &mut Cursor,
    marks: &mut Marks,
) -> Option<ForkFault>
    requires types { HasTypes bytes.now outline }
    requires at { IsAt bytes.now outline cursor.old }
    requires done { cursor.old.entry.count ≤ cursor.old.next }
    requires more { cursor.old.begun < outline.count }
    ensures gives { left_here pass bytes.now outline cursor.old ≡ listed result ++ left_here pass bytes.now outline cursor.new }
    ensures at { IsAt bytes.now outline cursor.new }
    ensures begun { cursor.new.begun ≡ cursor.old.begun + 1 }
    ensures marked { Marked pass bytes.now marks.new cursor.new.entry cursor.new.next }
    ensures sayable { IfSome result IsSayable }
{
    let entry = entry_of(bytes, outline, cursor.begun);
    let outside = references_outside(outline, cursor.so_far, entry);
    let fault = match pass {
        Pass::Lists => outside,
        Pass::Codes => type_repeats(bytes, outline, cursor.begun, entry),
        Pass::Data | Pass::Names | Pass::Ids => {
            if outside.is_none() {
                cursor.entry = entry;
                cursor.next = 0;
                clear(pass, marks);
            }
            None
        }
    };
    cursor.begun += 1;
    cursor.so_far += entry.count;
    fault
}

/// The next fault of the rule.
fn next_in_pass(
    pass: Pass,
    bytes: &[u8],
    outline: Outline,
    cursor: &mut Cursor,
    marks: &mut Marks,
) -> Option<ForkFault>
    requires types { HasTypes bytes.now outline }
    requires area { pass ≡ passes.Data → HasArea bytes.now outline.header }
    requires at { IsAt bytes.now outline cursor.old }
    requires marked { Marked pass bytes.now marks.old cursor.old.entry cursor.old.next }
    ensures gives { left_here pass bytes.now outline cursor.old ≡ listed result ++ left_here pass bytes.now outline cursor.new }
    ensures none { IfNone result (left_here pass bytes.now outline cursor.new ≡ []) }
    ensures at { IsAt bytes.now outline cursor.new }
    ensures marked { Marked pass bytes.now marks.new cursor.new.entry cursor.new.next }
    ensures sayable { IfSome result IsSayable }
{
    loop {
        let fault = next_reference(pass, bytes, outline, cursor.entry, &mut cursor.next, marks);
        if fault.is_some() || cursor.begun >= outline.count {
            return fault;
        }
        let fault = begin_type(pass, bytes, outline, cursor, marks);
        if fault.is_some() {
            return fault;
        }
    }
}

/// The next fault of this rule and of those after it.
pub fn next_in_lists(
    bytes: &[u8],
    outline: Outline,
    area: bool,
    pass: &mut Pass,
    cursor: &mut Cursor,
    marks: &mut Marks,
) -> Option<ForkFault>
    requires types { HasTypes bytes.now outline }
    requires area { area ≡ true → HasArea bytes.now outline.header }
    requires tested { pass.old ≡ passes.Data → area ≡ true }
    requires at { IsAt bytes.now outline cursor.old }
    requires marked { Marked pass.old bytes.now marks.old cursor.old.entry cursor.old.next }
    ensures gives { left_in area pass.old bytes.now outline cursor.old ≡ listed result ++ left_in area pass.new bytes.now outline cursor.new }
    ensures none { IfNone result (left_in area pass.new bytes.now outline cursor.new ≡ []) }
    ensures tested { pass.new ≡ passes.Data → area ≡ true }
    ensures at { IsAt bytes.now outline cursor.new }
    ensures marked { Marked pass.new bytes.now marks.new cursor.new.entry cursor.new.next }
    ensures sayable { IfSome result IsSayable }
{
    loop {
        let fault = next_in_pass(*pass, bytes, outline, cursor, marks);
        if fault.is_some() {
            return fault;
        }
        let Some(next) = after(*pass, area) else {
            return None;
        };
        *pass = next;
        *cursor = START;
    }
}
