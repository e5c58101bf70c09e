//! Where the cases of a switch probably stand. Nothing but time rests on a hint: who looks a case up tests the one that
//! stands there, and goes through all cases where it isn't the one.

ghost use Rattle.std.specs.Prelude.{◌≡◌, IfOk};
ghost use Rattle.rz_types_fields.specs.Field.{plain_cases, plain_field, Switch};

use crate::lower::{SHORT, lower_name, lower_short};
use crate::{Case, Cases, Field, key_bits};
use rz_core::NoMemory;
use std::alloc::Global;
use std::collections::HashMap;

/// Where the cases of a switch probably stand, by their names and by their keys. A hint is found in constant time on
/// average.
#[derive(Drop)]
pub struct CaseHints {
    /// By the name in lower case.
    names: HashMap<Vec<u8>, usize>,
    /// By the bits of the first key, as a number.
    keys: HashMap<u32, usize>,
}

/// The field that a switch of these cases is, with hints where they stand. `NoMemory` is the only refusal.
pub fn switch_of(alloc: Global, cases: Cases) -> Result<Field, NoMemory>
    ensures { IfOk result (λ field. plain_field field ≡ Switch (plain_cases cases)) }
{
    match hints_of(alloc, cases.as_slice()) {
        Ok(hints) => Ok(Field::Switch(cases, hints)),
        Err(refused) => {
            drop(cases);
            Err(refused)
        }
    }
}

fn hints_of(alloc: Global, cases: &[Case]) -> Result<Box<CaseHints>, NoMemory> {
    let mut hints = CaseHints {
        names: HashMap::new(alloc),
        keys: HashMap::new(alloc),
    };
    for position in 0..cases.len() {
        note(alloc, &mut hints, &cases[position], position)?;
    }
    Ok(Box::new(alloc, hints)?)
}

/// Notes a case that stands at this position.
fn note(
    alloc: Global,
    hints: &mut CaseHints,
    case: &Case,
    position: usize,
) -> Result<(), NoMemory> {
    let name = lower_name(alloc, &case.name)?;
    hints.names.insert(name, position)?;
    if let Some(bits) = first_key(case.row.as_slice()) {
        hints.keys.insert(bits, position)?;
    }
    Ok(())
}

/// The bits of the first key among fields.
fn first_key(row: &[Field]) -> Option<u32> {
    for field in row {
        if let Field::Num(number) = field {
            if number.key {
                return Some(key_bits(number));
            }
        }
    }
    None
}

impl CaseHints {
    /// Where the case of a name probably stands, in whatever case.
    pub fn by_name(&self, name: &[u8]) -> Option<usize> {
        if name.len() > SHORT {
            return None;
        }
        let mut front = [0; SHORT];
        self.names.get(lower_short(&mut front, name)).copied()
    }

    /// Where the case whose key has these bits probably stands.
    pub fn by_key(&self, bits: u32) -> Option<usize> {
        self.keys.get(&bits).copied()
    }
}
