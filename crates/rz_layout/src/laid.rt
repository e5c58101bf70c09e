//! The bits that are laid so far, and the room that is left. What they are is in `specs/Laid`.

ghost use Rattle.std.specs.Prelude.{IfOk, ◌≡◌, ◌<◌, ◌≤◌, ◌^◌, [], length, pos};
ghost use Rattle.rz_layout.specs.Fault.{refusal_of};
ghost use Rattle.rz_core.specs.Stop.{Gives, fault_seen, left};
ghost use Rattle.rz_bits.specs.BitBuf.{missing, zeros};
ghost use Rattle.rz_bits.specs.Bits.{number_bits};
ghost use Rattle.rz_expr.specs.Term.{term_of};
ghost use Rattle.rz_layout.specs.Laid.{draft_of, with_bits, with_late, with_place, HasRoom, IsPlacedBy, IsShort};
ghost use Rattle.rz_layout.specs.Sound.{IsWidth};
ghost use Rattle.rz_types_fields.specs.Laid.{in_bytes, nothing_laid, one_more};

use crate::LayFault;
use crate::late::{Late, LateNumber, Lates, note_place};
use rz_bits::{BitBuf, missing};
use rz_core::{Listing, Stop, Word};
use rz_expr::Expr;
use rz_types_fields::{Notes, NumForm};
use std::alloc::Global;

/// The most bits of a resource: those of 16,777,212 bytes.
const MOST_BITS: u128 = 134_217_696;

/// The most that a refusal keeps of a number that counts.
const MOST_KEPT: u64 = 9_223_372_036_854_775_807;

/// What is laid so far: the number of pieces, their bits, what is noted of names, and what is computed later.
#[derive(Drop)]
pub struct Laid<'a> {
    /// The number of pieces.
    pub piece: u64,
    /// Their bits, which are zero where they are late.
    pub bits: BitBuf,
    /// A mark for each bit up to the last late one: whether it is late.
    pub marks: BitBuf,
    /// The bodies that were entered, the numbers of rows of arrays, and the places of labels, the newest last.
    pub notes: Notes<'a>,
    /// The late numbers of the body that is being laid, and of those within.
    pub late: Lates<'a>,
}

impl<'a> Laid<'a> {
    /// Nothing.
    pub fn new(alloc: Global) -> Laid<'a>
        ensures draft { draft_of result ≡ nothing_laid }
        ensures empty { result.notes.items ≡ [] }
        ensures short { IsShort result }
    {
        Laid {
            piece: 0,
            bits: BitBuf::new(alloc),
            marks: BitBuf::new(alloc),
            notes: Notes::new(alloc),
            late: Listing::new(alloc),
        }
    }

    /// Lays a number as a piece.
    pub fn put_number(&mut self, number: u32, width: u8) -> Result<(), Stop<LayFault>>
        requires width { width ≤ 32 }
        requires short { IsShort self.old }
        ensures laid { Gives (with_bits (draft_of self.old) (number_bits width number)) (fault_seen refusal_of (left (draft_of self.new) result)) }
        ensures short { IfOk result (λ _. IsShort self.new) }
        ensures notes { IfOk result (λ _. self.new.notes.items ≡ self.old.notes.items) }
    {
        match self.room(width as u128) {
            Ok(()) => {}
            Err(stop) => return Err(stop),
        }
        self.bits.push(number, width)?;
        self.piece = one_more(self.piece);
        Ok(())
    }

    /// Lays zero bits as a piece.
    pub fn put_zeros(&mut self, count: u64) -> Result<(), Stop<LayFault>>
        requires few { count < 2 ^ 40 }
        requires short { IsShort self.old }
        ensures laid { Gives (with_bits (draft_of self.old) (zeros count)) (fault_seen refusal_of (left (draft_of self.new) result)) }
        ensures short { IfOk result (λ _. IsShort self.new) }
        ensures notes { IfOk result (λ _. self.new.notes.items ≡ self.old.notes.items) }
    {
        match self.room(count as u128) {
            Ok(()) => {}
            Err(stop) => return Err(stop),
        }
        self.bits.push_many(false, count as u32)?;
        self.piece = one_more(self.piece);
        Ok(())
    }

    /// Lays the zero bits to the next multiple of a unit as a piece.
    pub fn put_filler(&mut self, unit: u8) -> Result<(), Stop<LayFault>>
        requires unit { 0 < unit }
        requires short { IsShort self.old }
        ensures laid { Gives (with_bits (draft_of self.old) (zeros (missing unit (length self.old.bits)))) (fault_seen refusal_of (left (draft_of self.new) result)) }
        ensures short { IfOk result (λ _. IsShort self.new) }
        ensures notes { IfOk result (λ _. self.new.notes.items ≡ self.old.notes.items) }
    {
        let count = missing(unit, self.bits.len());
        self.put_zeros(u64::from(count))
    }

    /// Lays a label as a piece: its name has the place that is reached.
    pub fn put_place(&mut self, name: &'a Word) -> Result<(), Stop<LayFault>>
        requires short { IsShort self.old }
        ensures laid { Gives (with_place (draft_of self.old) name.now) (fault_seen refusal_of (left (draft_of self.new) result)) }
        ensures short { IfOk result (λ _. IsShort self.new) }
        ensures notes { IfOk result (λ _. IsPlacedBy name.now self.old.notes.items self.new.notes.items) }
    {
        let at = self.bits.len();
        note_place(name, at, &mut self.notes)?;
        self.piece = one_more(self.piece);
        Ok(())
    }

    /// Lays a number that is computed later: zero bits stand for it, each with a mark.
    pub fn put_late(
        &mut self,
        term: &'a Expr,
        form: NumForm,
        width: i32,
    ) -> Result<(), Stop<LayFault>>
        requires width { IsWidth width }
        requires short { IsShort self.old }
        ensures laid { Gives (with_late (draft_of self.old) form width (term_of term.now)) (fault_seen refusal_of (left (draft_of self.new) result)) }
        ensures short { IfOk result (λ _. IsShort self.new) }
        ensures notes { IfOk result (λ _. self.new.notes.items ≡ self.old.notes.items) }
    {
        match self.room(width as u128) {
            Ok(()) => {}
            Err(stop) => return Err(stop),
        }
        let at = self.bits.len();
        self.late.push(Late::Number(LateNumber {
            piece: self.piece,
            at,
            form,
            width,
            term,
        }))?;
        let before = at - self.marks.len();
        self.marks.push_many(false, before)?;
        self.marks.push_many(true, width as u32)?;
        self.bits.push_many(false, width as u32)?;
        self.piece = one_more(self.piece);
        Ok(())
    }

    /// 301, with the length in bytes to its end, where a piece of so many bits ends after the most bits.
    pub fn room(&self, count: u128) -> Result<(), Stop<LayFault>>
        requires few { count < 2 ^ 70 }
        requires short { IsShort self.now }
        ensures { HasRoom (draft_of self.now) count result }
    {
        let end = self.bits.len() as u128 + count;
        if end <= MOST_BITS {
            return Ok(());
        }
        Err(Stop::Refused(LayFault {
            number: 301,
            piece: self.piece,
            value: in_bytes(end),
        }))
    }
}

/// The bytes that so many bits are, rounded up, as a refusal keeps their number.
fn in_bytes(bits: u128) -> i64
    requires { bits < 2 ^ 71 }
    ensures { result ≡ pos (in_bytes bits) }
{
    let bytes = (bits + 7) / 8;
    bytes.min(MOST_KEPT as u128) as i64
}

/// The number after this one, up to the most that a refusal keeps.
pub fn one_more(count: u64) -> u64
    ensures { result ≡ one_more count }
{
    if count < MOST_KEPT { count + 1 } else { count }
}
