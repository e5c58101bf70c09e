//! The list of notes with the positions at which they stand, by what they speak of. What is held is in `specs/Newest`.

ghost use Rattle.std.specs.Prelude.{◌≡◌, ◌-◌, ◌==◌, ℕ, [], ◌∷◌, ◌++◌, length, if◌then◌else◌, drop, take, None, OnErr, OnOk, option_map};
ghost use Rattle.std.specs.Option.{is_some};
ghost use Rattle.std.specs.Str.{str_to_ascii_lowercase};
ghost use Rattle.rz_expr.specs.NameKey.{key_of};
ghost use Rattle.rz_types_fields.specs.Known.{known, met, noted};
ghost use Rattle.rz_types_fields.specs.Newest.{code_from, code_of, has_code, heard, held, meets, newest, note_code, AreHeld};
ghost use Rattle.rz_types_fields.specs.Positions.{positions};
ghost use Rattle.rz_types_fields.specs.Value.{no_bits, see};

use crate::fact_of;
use crate::names::{Note, said, speaks};
use rz_core::{Facts, Listing, NoMemory, Word};
use rz_expr::{Env, FactWord, Key, value_outside};
use std::alloc::Global;
use std::collections::HashMap;
use std::mem;

/// The factor by which the code of a name grows for each byte.
const FACTOR: u64 = 1_099_511_628_211;

/// So many notes, the oldest, are looked through one by one: most resources have no more. Those after them are found by their codes.
const FEW: usize = 16;

/// The positions of notes among those after the first few, from 0 and ascending, by the codes of what they speak of.
type Places = HashMap<u64, Vec<usize>>;

/// Notes, the oldest first: the newest that speaks of a name counts. It is found in constant time on average; for a label in the
/// rows of an array the notes of such rows are looked through, from the newest on.
#[derive(Drop)]
pub struct Notes<'a> {
    /// The notes, the oldest first.
    pub items: Listing<Note<'a>>,
    places: Places,
    alloc: Global,
    ghost held: { AreHeld (drop 16 items) places },
}

impl<'a> Notes<'a> {
    ghost use Rattle.std.specs.Prelude.{◌≡◌, [], ◌∷◌, ◌++◌, length, take, drop, None, IfOk, OnErr, OnOk, option_map};
    ghost use Rattle.rz_expr.specs.NameKey.{key_of};
    ghost use Rattle.rz_types_fields.specs.Newest.{newest};

    /// No notes. It takes no memory.
    pub fn new(alloc: Global) -> Notes<'a>
        ensures { result.items ≡ [] }
    {
        Notes {
            items: Listing::new(alloc),
            places: Places::new(alloc),
            alloc,
        }
    }

    /// How many notes there are.
    pub fn len(&self) -> usize
        ensures { result ≡ length self.now.items }
    {
        self.items.len() as usize
    }

    /// Appends a note. Where memory is refused the notes are unchanged.
    pub fn push(&mut self, note: Note<'a>) -> Result<(), NoMemory>
        ensures items { OnOk result (self.new.items ≡ self.old.items ++ note.entry ∷ []) }
        ensures err { OnErr result (self.new.items ≡ self.old.items) }
    {
        let count = self.items.len() as usize;
        if count < FEW {
            return self.items.push(note);
        }
        let code = note_code(&note);
        add(self.alloc, &mut self.places, code, count - FEW)?;
        match self.items.push(note) {
            Ok(()) => Ok(()),
            Err(refused) => {
                drop_last(&mut self.places, code);
                Err(refused)
            }
        }
    }

    /// Keeps the first so many notes.
    pub fn truncate(&mut self, count: usize)
        ensures items { self.new.items ≡ take count self.old.items }
    {
        forget(&mut self.places, self.items.as_slice(), count);
        let notes = mem::replace(&mut self.items, Listing::new(self.alloc));
        let none = mem::replace(&mut self.items, first_notes(notes, count));
        drop(none);
    }

    /// Takes out the notes after the first so many, if there are more, and gives them. Where memory is refused they are dropped.
    pub fn split_off(&mut self, count: usize) -> Result<Vec<Note<'a>>, NoMemory>
        ensures items { OnOk result (self.new.items ≡ take count self.old.items) }
        ensures tail { IfOk result (λ own. own.items ≡ drop count self.old.items) }
    {
        forget(&mut self.places, self.items.as_slice(), count);
        let mut notes = mem::replace(&mut self.items, Listing::new(self.alloc)).into_vec();
        let own = notes.split_off(count.min(notes.len()));
        notes.truncate(count);
        let none = mem::replace(&mut self.items, Listing::from_vec(notes));
        drop(none);
        Ok(own?)
    }

    /// The newest note that speaks of a key, of those by which nothing is met only where told values count.
    fn newest(&self, key: Key<'_>, told: bool) -> Option<&Note<'a>>
        ensures { option_map (λ note. note.now) result ≡ newest told (key_of key.entry) None self.now.items }
    {
        match self.newest_other(key, told) {
            Some(note) => Some(note),
            None => newest_walked(few_of(self.items.as_slice()), key, told),
        }
    }

    /// The newest that is heard among the notes after the first few.
    fn newest_other(&self, key: Key<'_>, told: bool) -> Option<&Note<'a>>
        ensures { option_map (λ note. note.now) result ≡ newest told (key_of key.entry) None (drop 16 self.now.items) }
    {
        let others = others_of(self.items.as_slice());
        if others.is_empty() {
            return None;
        }
        newest_among(others, held(&self.places, code_of(key)), key, told)
    }
}

/// The first few of these notes.
fn few_of<'n, 'a>(notes: &'n [Note<'a>]) -> &'n [Note<'a>]
    ensures { result.now ≡ take 16 notes.now }
{
    notes.split_at(FEW.min(notes.len())).0
}

/// The notes after the first few.
fn others_of<'n, 'a>(notes: &'n [Note<'a>]) -> &'n [Note<'a>]
    ensures { result.now ≡ drop 16 notes.now }
{
    notes.split_at(FEW.min(notes.len())).1
}

/// The value that is known of a key: a place in bits from the start of the resource, a number of rows, or that of a row around,
/// from 1; of `true` and `false` their values. `None` where none is known.
pub fn value_noted(notes: &Notes<'_>, key: Key<'_>) -> Option<i128>
    ensures { result ≡ (known notes.now.items).give (key_of key.entry) }
{
    match notes.newest(key, true) {
        Some(note) => said(note, key),
        None => value_outside(key),
    }
}

/// Whether a key is met: a label or the rows of an array stand before, or the name is `true` or `false`; what a number told isn't
/// met by that.
pub fn is_met(notes: &Notes<'_>, key: Key<'_>) -> bool
    ensures { result ≡ met notes.now.items (key_of key.entry) }
{
    match notes.newest(key, false) {
        Some(note) => meets(note),
        None => value_outside(key).is_some(),
    }
}

/// Whether the notes alone say a value of a key.
pub fn is_noted(notes: &Notes<'_>, key: Key<'_>) -> bool
    ensures { result ≡ is_some (noted None notes.now.items (key_of key.entry)) }
{
    match notes.newest(key, true) {
        Some(note) => said(note, key).is_some(),
        None => false,
    }
}

/// The newest that is heard of these notes, where the positions of those with the code of the key are given.
fn newest_among<'n, 'a>(
    notes: &'n [Note<'a>],
    own: &[usize],
    key: Key<'_>,
    told: bool,
) -> Option<&'n Note<'a>>
    requires { own.now ≡ positions (has_code (code_of (key_of key))) notes.now }
    ensures { option_map (λ note. note.now) result ≡ newest told (key_of key.entry) None notes.now }
{
    for newer in 0..own.len() {
        let place = own[own.len() - 1 - newer];
        let note = &notes[place];
        if is_heard(note, key, told) {
            return Some(note);
        }
    }
    None
}

/// The newest that is heard of these notes, looked through one by one.
fn newest_walked<'n, 'a>(notes: &'n [Note<'a>], key: Key<'_>, told: bool) -> Option<&'n Note<'a>>
    ensures { option_map (λ note. note.now) result ≡ newest told (key_of key.entry) None notes.now }
{
    for newer in 0..notes.len() {
        let note = &notes[notes.len() - 1 - newer];
        if is_heard(note, key, told) {
            return Some(note);
        }
    }
    None
}

/// Whether a note speaks of a key; one by which nothing is met counts only where told values do.
fn is_heard(note: &Note<'_>, key: Key<'_>, told: bool) -> bool
    ensures { result ≡ heard told note.now (key_of key.entry) }
{
    match note {
        Note::Told(..) | Note::PlaceTold(..) | Note::Numbered(..) => told && speaks(note, key),
        _ => speaks(note, key),
    }
}

/// Whether what a note speaks of is met.
fn meets(note: &Note<'_>) -> bool
    ensures { result ≡ meets note.now }
{
    matches!(note, Note::Counted(..) | Note::Placed(..) | Note::Rows(..))
}

/// The code of a key: all labels in rows have one.
fn code_of(key: Key<'_>) -> u64
    ensures { result ≡ code_of (key_of key.entry) }
{
    match key {
        Key::Place(name) => name_code(1, name),
        Key::Count(name) => name_code(2, name),
        Key::Row(name) => name_code(3, name),
        Key::Rows(_) | Key::PlaceIn(..) => 0,
    }
}

/// The code of a name of a kind, in whatever case.
fn name_code(kind: u64, name: &Word) -> u64
    ensures { result ≡ code_from kind (str_to_ascii_lowercase name.now.bytes) }
{
    let mut code = kind;
    let bytes = name.bytes.as_slice();
    for byte in bytes {
        let byte = u64::from(byte.to_ascii_lowercase());
        code = code.wrapping_mul(FACTOR).wrapping_add(byte);
    }
    code
}

/// The code of what a note speaks of.
fn note_code(note: &Note<'_>) -> u64
    ensures { result ≡ note_code note.now }
{
    match note {
        Note::Told(name, _) | Note::Counted(name, _) => code_of(Key::Count(name)),
        Note::PlaceTold(name, _) | Note::Placed(name, _) => code_of(Key::Place(name)),
        Note::Numbered(name, _) => code_of(Key::Row(name)),
        Note::Hidden(key) => code_of(*key),
        Note::Rows(..) | Note::Coming(_) => 0,
    }
}

/// The positions that are held for a code.
fn held(places: &Places, code: u64) -> &[usize]
    ensures { result.now ≡ held code places.now }
{
    match places.get(&code) {
        Some(own) => own,
        None => &[],
    }
}

/// Adds a position after those of its code.
fn add(alloc: Global, places: &mut Places, code: u64, position: usize) -> Result<(), NoMemory>
    ensures ok { OnOk result ((other : ℕ) → held other places.new ≡ held other places.old ++ (if code == other then position ∷ [] else [])) }
    ensures err { OnErr result ((other : ℕ) → held other places.new ≡ held other places.old) }
{
    places
        .entry(code)?
        .or_insert(Vec::new(alloc))
        .push(position)?;
    Ok(())
}

/// Takes out the last position of a code.
fn drop_last(places: &mut Places, code: u64)
    ensures { (other : ℕ) → held other places.new ≡ (if code == other then take (length (held other places.old) - 1) (held other places.old) else held other places.old) }
{
    if let Some(own) = places.get_mut(&code) {
        own.pop();
    }
}

/// Takes out the positions of the notes after the first so many.
fn forget(places: &mut Places, notes: &[Note<'_>], count: usize)
    requires { AreHeld (drop 16 notes.now) places.old }
    ensures { AreHeld (drop 16 (take count notes.now)) places.new }
{
    forget_others(places, others_of(notes), count.saturating_sub(FEW));
}

/// The same of the notes after the first few, the last first.
fn forget_others(places: &mut Places, notes: &[Note<'_>], count: usize)
    requires { AreHeld notes.now places.old }
    ensures { AreHeld (take count notes.now) places.new }
{
    for newer in 0..notes.len().saturating_sub(count) {
        drop_last(places, note_code(&notes[notes.len() - 1 - newer]));
    }
}

/// The first so many of these notes.
fn first_notes<'a>(notes: Listing<Note<'a>>, count: usize) -> Listing<Note<'a>>
    ensures { result ≡ take count notes.entry }
{
    let mut notes = notes.into_vec();
    notes.truncate(count);
    Listing::from_vec(notes)
}

/// What an expression sees of a resource and of what was noted: `true` and `false`, the place of each label and the
/// number of rows of each array that is known, the places of labels in their rows, the number of each row around, and the
/// facts. (MPW Rez.)
#[derive(Drop)]
pub struct NamesEnv<'a> {
    /// What is known of the resource.
    pub facts: &'a Facts,
    /// What was noted.
    pub notes: &'a Notes<'a>,
}

impl Env for NamesEnv<'_> {
    ghost view = { λ env. see env.facts.now no_bits (known env.notes.now.items) };

    fn give(&self, key: Key<'_>) -> Option<i128> {
        value_noted(self.notes, key)
    }

    fn bits(&self, _first: i64, _width: i32) -> Option<u32> {
        None
    }

    fn fact(&self, which: FactWord) -> i32 {
        fact_of(self.facts, which)
    }
}
