//! The second pass: late numbers, written over the zero bits that stand for them. What they are is in `specs/Late`.

ghost use Rattle.std.specs.Prelude.{IfOk, ◌≡◌, [], length};
ghost use Rattle.std.specs.List.{AllByRecursion};
ghost use Rattle.rz_core.specs.Stop.{Gives, fault_seen, left};
ghost use Rattle.rz_layout.specs.Fault.{refusal_of};
ghost use Rattle.rz_layout.specs.Laid.{bits_made, filled_by, IsWithin};
ghost use Rattle.rz_layout.specs.Late.{number_held, numbers_in, numbers_of};
ghost use Rattle.rz_types_fields.specs.Known.{known};
ghost use Rattle.rz_types_fields.specs.Laid.{fill, late_bits};

use crate::LayFault;
use crate::fault::value_fault;
use crate::late::{Late, LateNumber, Lates, push_notes};
use crate::number::ranged;
use crate::seen::DraftEnv;
use rz_bits::BitBuf;
use rz_core::{Facts, Stop};
use rz_expr::value_in;
use rz_types_fields::{NamesEnv, Notes};

/// Writes late numbers over the zero bits that stand for them, one after the other: their names have in the end what is
/// noted here and in the bodies within. `none` marks no bits.
#[cycle(fill)]
pub fn fill<'a>(
    late: Lates<'a>,
    facts: &Facts,
    notes: &mut Notes<'a>,
    none: &BitBuf,
    bits: &mut BitBuf,
) -> Result<(), Stop<LayFault>>
    requires none { none.now ≡ [] }
    requires within { AllByRecursion (IsWithin (length bits.old)) (numbers_in late) }
    ensures filled { Gives (fill facts.now (known notes.old.items) (numbers_in late.entry) bits.old) (fault_seen refusal_of (left bits.new result)) }
    ensures notes { IfOk result (λ _. notes.new.items ≡ notes.old.items) }
    ensures length { IfOk result (λ _. length bits.new ≡ length bits.old) }
{
    for one in late.into_vec() {
        match fill_one(one, facts, notes, none, bits) {
            Ok(()) => {}
            Err(stop) => return Err(stop),
        }
    }
    Ok(())
}

/// Writes one late number, or those of a body within.
#[cycle(fill)]
fn fill_one<'a>(
    one: Late<'a>,
    facts: &Facts,
    notes: &mut Notes<'a>,
    none: &BitBuf,
    bits: &mut BitBuf,
) -> Result<(), Stop<LayFault>>
    requires none { none.now ≡ [] }
    requires within { AllByRecursion (IsWithin (length bits.old)) (numbers_of one) }
    ensures filled { Gives (fill facts.now (known notes.old.items) (numbers_of one.entry) bits.old) (fault_seen refusal_of (left bits.new result)) }
    ensures notes { IfOk result (λ _. notes.new.items ≡ notes.old.items) }
    ensures length { IfOk result (λ _. length bits.new ≡ length bits.old) }
{
    match one {
        Late::Number(number) => fill_number(&number, facts, notes, none, bits),
        Late::Inside(own, inner) => {
            let around = notes.len();
            push_notes(own, notes)?;
            match fill(inner, facts, notes, none, bits) {
                Ok(()) => {}
                Err(stop) => return Err(stop),
            }
            notes.truncate(around);
            Ok(())
        }
    }
}

/// Writes the number of an expression over the zero bits that stand for it.
fn fill_number(
    number: &LateNumber<'_>,
    facts: &Facts,
    notes: &Notes<'_>,
    none: &BitBuf,
    bits: &mut BitBuf,
) -> Result<(), Stop<LayFault>>
    requires none { none.now ≡ [] }
    requires within { IsWithin (length bits.old) (number_held number.now) }
    ensures filled { Gives (filled_by facts.now (known notes.now.items) (number_held number.now) bits.old) (fault_seen refusal_of (left bits.new result)) }
    ensures length { IfOk result (λ _. length bits.new ≡ length bits.old) }
{
    match number_late(number, facts, notes, none, bits) {
        Ok(value) => {
            bits.patch(number.at, number.width as u8, value);
            Ok(())
        }
        Err(fault) => Err(Stop::Refused(fault)),
    }
}

/// The number of an expression, seen with the finished names and with the bits before it.
fn number_late(
    number: &LateNumber<'_>,
    facts: &Facts,
    notes: &Notes<'_>,
    none: &BitBuf,
    bits: &BitBuf,
) -> Result<u32, LayFault>
    requires none { none.now ≡ [] }
    requires within { IsWithin (length bits.now) (number_held number.now) }
    ensures { bits_made number.now.width result ≡ late_bits facts.now (known notes.now.items) (number_held number.now) bits.now }
{
    let env = DraftEnv {
        names: NamesEnv { facts, notes },
        bits,
        marks: none,
        at: number.at,
    };
    match value_in(number.term, &env) {
        Ok(value) => ranged(number.piece, number.form, number.width, value),
        Err(fault) => Err(value_fault(fault, number.piece)),
    }
}
