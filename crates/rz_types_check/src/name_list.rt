//! Names in order, each of which is found at once. What is held beside them is in `specs/Firsts`.

ghost use Rattle.std.specs.Prelude.{◌≡◌, ◌++◌, [], ◌∷◌, OnErr, OnOk, map, take};
ghost use Rattle.rz_types.specs.Walk.{is_among};
ghost use Rattle.rz_types_check.specs.Firsts.{first_at, stands_at, AreFound};

use crate::folded::Folded;
use rz_core::{NoMemory, Word};
use std::alloc::Global;
use std::collections::HashMap;

/// By names the positions where they stood first. A name may have been cut off since, so what stands there now is compared.
pub type Firsts<'a> = HashMap<Folded<'a>, usize>;

/// Names in order. Whether a name is one of them, in whatever case, is told in constant time on average.
#[derive(Drop)]
pub struct NameList<'a> {
    /// In order.
    pub list: Vec<&'a Word>,
    firsts: Firsts<'a>,
    ghost found: { AreFound (λ key. key.0.now.bytes) firsts (map (λ name. name.now) list.items) },
}

impl<'a> NameList<'a> {
    ghost use Rattle.std.specs.Prelude.{◌≡◌, ◌++◌, [], ◌∷◌, OnOk, map, take};
    ghost use Rattle.rz_types.specs.Walk.{is_among};

    /// No names.
    pub fn new(alloc: Global) -> NameList<'a>
        ensures { result.list.items ≡ [] }
    {
        NameList {
            list: Vec::new(alloc),
            firsts: HashMap::new(alloc),
        }
    }

    /// Appends a name.
    pub fn push(&mut self, name: &'a Word) -> Result<(), NoMemory>
        ensures { OnOk result (map (λ one. one.now) self.new.list.items ≡ map (λ one. one.now) self.old.list.items ++ name.now ∷ []) }
    {
        note(&mut self.firsts, &self.list, name)?;
        self.list.push(name)?;
        Ok(())
    }

    /// Keeps the first so many names.
    pub fn cut(&mut self, count: usize)
        ensures { self.new.list.items ≡ take count self.old.list.items }
    {
        self.list.truncate(count);
    }

    /// Whether a name is one of these, in whatever case.
    pub fn has(&self, name: &Word) -> bool
        ensures { result ≡ is_among name.now.bytes (map (λ one. one.now) self.now.list.items) }
    {
        stands(&self.firsts, &self.list, name)
    }
}

/// Whether a name stands among these at the position that is held for it.
fn stands(firsts: &Firsts<'_>, list: &[&Word], name: &Word) -> bool
    ensures { result ≡ stands_at (map (λ one. one.now) list.now) name.now.bytes (first_at (λ key. key.0.now.bytes) firsts.now (record { 0 = name.entry })) }
{
    match firsts.get(&Folded(name)) {
        Some(first) => is_at(list, *first, name),
        None => false,
    }
}

/// Whether a name stands at a position.
fn is_at(list: &[&Word], position: usize, name: &Word) -> bool
    ensures { result ≡ stands_at (map (λ one. one.now) list.now) name.now.bytes (Some position) }
{
    match list.get(position) {
        Some(one) => one.is(name.bytes.as_slice()),
        None => false,
    }
}

/// Notes where a name stands first that is appended to these.
fn note<'a>(firsts: &mut Firsts<'a>, list: &[&Word], name: &'a Word) -> Result<(), NoMemory>
    ensures ok { OnOk result (AreFound (λ key. key.0.now.bytes) firsts.old (map (λ one. one.now) list.now) → AreFound (λ key. key.0.now.bytes) firsts.new (map (λ one. one.now) list.now ++ name.now ∷ [])) }
    ensures err { OnErr result (AreFound (λ key. key.0.now.bytes) firsts.old (map (λ one. one.now) list.now) → AreFound (λ key. key.0.now.bytes) firsts.new (map (λ one. one.now) list.now)) }
{
    if stands(firsts, list, name) {
        return Ok(());
    }
    firsts.insert(Folded(name), list.len())?;
    Ok(())
}
