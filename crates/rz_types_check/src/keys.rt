//! The keys of the cases of a switch, as the walk gathers them. See `specs/Keys`.

ghost use Rattle.std.specs.Prelude.{◌≡◌, ◌++◌, [], ◌∷◌, None, OnOk};
ghost use Rattle.std.specs.List.{list_any};
ghost use Rattle.std.proofs.Props.{props};
ghost use Rattle.rz_types.specs.Rules.{differ, has_other_place, has_other_width, has_same_bits, key_rule};
ghost use Rattle.rz_types_check.specs.Keys.{AreAlike, HaveBits};

use rz_core::NoMemory;
use rz_types_fields::CaseKey;
use std::alloc::Global;
use std::collections::HashSet;

/// The keys of the cases so far, one of each, which keep the rules: they stand at one place with one width.
#[derive(Drop)]
pub struct Keys {
    /// In order.
    pub list: Vec<CaseKey>,
    /// Their bits.
    bits: HashSet<u32>,
    ghost alike: { AreAlike list.items } by { Prim.hlevel props },
    ghost held: { HaveBits bits.keys list.items },
}

impl Keys {
    ghost use Rattle.std.specs.Prelude.{◌≡◌, ◌++◌, [], None, OnOk};
    ghost use Rattle.rz_types.specs.Rules.{key_rule};

    /// Those of no case.
    pub fn new(alloc: Global) -> Keys
        ensures { result.list.items ≡ [] }
    {
        Keys {
            list: Vec::new(alloc),
            bits: HashSet::new(alloc),
        }
    }

    /// Appends the key of a case that breaks no rule.
    pub fn push(&mut self, own: &[CaseKey]) -> Result<(), NoMemory>
        requires { key_rule own.now self.old.list.items ≡ None }
        ensures { OnOk result (self.new.list.items ≡ self.old.list.items ++ own.now) }
    {
        let [key] = own else {
            return Ok(());
        };
        let before = self.list.len();
        self.list.push(*key)?;
        match self.bits.insert(key.bits) {
            Ok(_) => Ok(()),
            Err(_) => {
                self.list.truncate(before);
                Err(NoMemory)
            }
        }
    }
}

/// The number of the first rule that the keys of a case break, after these. It takes constant time on average, however
/// many there are.
pub fn key_rule(keys: &[CaseKey], before: &Keys) -> Option<u16>
    ensures { result ≡ key_rule keys.now before.now.list.items }
{
    let [key] = keys else {
        return Some(233);
    };
    if has_other_width(key, before) {
        Some(234)
    } else if key.distance.is_none() || has_other_place(key, before) {
        Some(235)
    } else if has_same_bits(key, before) {
        Some(236)
    } else {
        None
    }
}

/// Whether one of the keys has another width: the first has, since all have one.
fn has_other_width(key: &CaseKey, before: &Keys) -> bool
    ensures { result ≡ list_any (has_other_width key.now) before.now.list.items }
{
    match before.list.first() {
        Some(first) => key.width != first.width,
        None => false,
    }
}

/// Whether one of the keys stands at another distance: the first does, since all stand at one.
fn has_other_place(key: &CaseKey, before: &Keys) -> bool
    ensures { result ≡ list_any (has_other_place key.now) before.now.list.items }
{
    match before.list.first() {
        Some(first) => differ(key.distance, first.distance),
        None => false,
    }
}

fn differ(one: Option<u64>, other: Option<u64>) -> bool
    ensures { result ≡ differ one other }
{
    match (one, other) {
        (Some(one), Some(other)) => one != other,
        _ => true,
    }
}

/// Whether one of the keys has the same bits.
fn has_same_bits(key: &CaseKey, before: &Keys) -> bool
    ensures { result ≡ list_any (has_same_bits key.now) before.now.list.items }
{
    before.bits.contains(&key.bits)
}
