//! The bytes that run codes stand for, or the first fault. What those are is in `specs/Runs`.

ghost use Rattle.std.specs.Prelude.{◌≡◌, ◌<◌, ◌≤◌, ◌+◌, ◌-◌, ◌^◌, ◌++◌, [], ◌∷◌, ℕ, List, length, replicate, slice_index, IfOk, OnOk, Ok};
ghost use Rattle.rz_core.specs.Stop.{Gives, OnFault};
ghost use Rattle.rz_bridge.specs.Faults.{IsSayable};
ghost use Rattle.rz_hqx.specs.Held.{undone};
ghost use Rattle.rz_hqx.specs.Runs.{unpacked, IsCoding};

use crate::coded::MARK;
use rz_bridge::{BridgeFault, fault_at};
use rz_core::{Bytes, NoMemory, Stop};
use std::alloc::Global;

/// The bytes that run codes stand for: 90 00 is the byte 90, and 90 n stands for n - 1 more copies of the byte before
/// it. There are fewer than 2^32 codes.
///
/// Refused with the first of two faults: 446, a run has no byte before it (the offset of the 90; the count), and 445, a
/// 90 is the last byte (its offset; 1). (RFC 1741.)
pub fn runs_read(alloc: Global, coded: &[u8]) -> Result<Bytes, Stop<BridgeFault>>
    requires { length coded.now < 2 ^ 32 }
    ensures bytes { Gives (unpacked coded.now) result }
    ensures codes { IfOk result (IsCoding coded.now) }
    ensures sayable { OnFault result IsSayable }
{
    let mut undoing = Undoing::with_capacity(alloc, coded.len())?;
    for code in coded {
        undoing.take(*code)?;
    }
    undoing.finish()
}

/// What stands before the next code.
#[derive(Clone, Copy)]
pub enum Before {
    /// Whole codes.
    Whole,
    /// A 90 that waits for its count.
    Mark,
    /// A count that has no byte before it.
    Fault(u8),
}

/// The bytes that codes stand for, which are taken one after the other.
#[derive(Drop)]
pub struct Undoing {
    /// The bytes of the codes before.
    pub out: Bytes,
    /// How many whole codes are before.
    pub place: usize,
    /// What stands before the next code.
    pub before: Before,
}

impl Undoing {
    /// No codes before, with memory for so many bytes.
    pub fn with_capacity(alloc: Global, size: usize) -> Result<Undoing, NoMemory>
        ensures undone { IfOk result (λ undoing. (codes : List ℕ) → undone undoing codes ≡ unpacked codes) }
        ensures place { IfOk result (λ undoing. undoing.place ≡ 0) }
    {
        Ok(Undoing {
            out: Bytes::with_capacity(alloc, size)?,
            place: 0,
            before: Before::Whole,
        })
    }

    /// Takes the next code.
    pub fn take(&mut self, code: u8) -> Result<(), NoMemory>
        requires { self.old.place < 2 ^ 40 }
        ensures undone { OnOk result ((codes : List ℕ) → undone self.new codes ≡ undone self.old (code ∷ codes)) }
        ensures place { OnOk result (self.new.place ≤ self.old.place + 2) }
    {
        match self.before {
            Before::Whole if code == MARK => self.before = Before::Mark,
            Before::Whole => {
                self.out.push(code)?;
                self.place += 1;
            }
            Before::Mark => self.take_count(code)?,
            Before::Fault(_) => {}
        }
        Ok(())
    }

    /// Takes the count after a 90.
    fn take_count(&mut self, count: u8) -> Result<(), NoMemory>
        requires place { self.old.place < 2 ^ 40 }
        requires mark { self.old.before ≡ Before.Mark }
        ensures undone { OnOk result ((codes : List ℕ) → undone self.new codes ≡ undone self.old (count ∷ codes)) }
        ensures place { OnOk result (self.new.place ≤ self.old.place + 2) }
    {
        if count == 0 {
            self.out.push(MARK)?;
        } else if self.out.is_empty() {
            self.before = Before::Fault(count);
            return Ok(());
        } else {
            append_copies(&mut self.out, count - 1)?;
        }
        self.before = Before::Whole;
        self.place += 2;
        Ok(())
    }

    /// The bytes, where no code comes after those before.
    pub fn finish(self) -> Result<Bytes, Stop<BridgeFault>>
        ensures bytes { Gives (undone self []) result }
        ensures sayable { OnFault result IsSayable }
    {
        let Undoing { out, place, before } = self;
        match before {
            Before::Whole => Ok(out),
            Before::Mark => Err(Stop::Refused(fault_at(445, place, 1))),
            Before::Fault(count) => Err(Stop::Refused(fault_at(446, place, u64::from(count)))),
        }
    }
}

/// Appends so many copies of the last byte.
fn append_copies(out: &mut Bytes, count: u8) -> Result<(), NoMemory>
    requires { 0 < length out.old }
    ensures { OnOk result (out.new ≡ out.old ++ replicate count (slice_index out.old (length out.old - 1))) }
{
    let last = *out.at(out.len() - 1);
    for _ in 0..count {
        out.push(last)?;
    }
    Ok(())
}
