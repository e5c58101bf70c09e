//! What stands between the colons: letters, and the bytes that they stand for. See `specs/Text` and `specs/Letters`.

ghost use Rattle.std.specs.Prelude.{◌≡◌, ◌<◌, ◌≤◌, ◌+◌, ◌^◌, [], ◌∷◌, ℕ, List, length, OnOk, IfOk};
ghost use Rattle.rz_core.specs.Stop.{Gives, OnFault};
ghost use Rattle.rz_bridge.specs.Faults.{IsSayable};
ghost use Rattle.rz_hqx.specs.Held.{decoded_in, read_on, IsSix};
ghost use Rattle.rz_hqx.specs.Letters.{eights};
ghost use Rattle.rz_hqx.specs.Runs.{unpacked};

use crate::decoded::Undoing;
use crate::letters::number_of;
use crate::text::{COLON, is_blank};
use rz_bridge::{BridgeFault, fault_at};
use rz_core::{Bytes, NoMemory, Stop};
use std::alloc::Global;

/// The bytes of the letters up to the next colon, with the runs undone. The letters begin at a place, in bytes from the
/// start of the text.
pub fn decoded_in(alloc: Global, place: usize, body: &[u8]) -> Result<Bytes, Stop<BridgeFault>>
    requires { place + length body.now < 2 ^ 32 }
    ensures bytes { Gives (decoded_in place body.now) result }
    ensures sayable { OnFault result IsSayable }
{
    let mut letters = Letters::with_capacity(alloc, body.len() / 4 * 3 + 3)?;
    let mut at = place;
    for byte in body {
        if let Some(number) = number_of(*byte) {
            letters.take(number)?;
        } else if *byte == COLON {
            return letters.finish();
        } else if !is_blank(*byte) {
            return Err(Stop::Refused(fault_at(442, at, u64::from(*byte))));
        }
        at += 1;
    }
    Err(Stop::Refused(fault_at(443, at, at as u64)))
}

/// Which letters of a group of four, which stand for three bytes, came before.
#[derive(Clone, Copy)]
pub enum Group {
    /// None.
    Empty,
    /// One, of this number.
    One(u8),
    /// Two, of which the second has this number.
    Two(u8),
    /// Three, of which the third has this number.
    Three(u8),
}

/// Letters that are taken one after the other.
#[derive(Drop)]
pub struct Letters {
    /// The bytes of the letters before.
    pub codes: Undoing,
    /// The letters whose bytes aren't all there.
    pub group: Group,
}

impl Letters {
    /// No letters before, with memory for so many bytes.
    fn with_capacity(alloc: Global, size: usize) -> Result<Letters, NoMemory>
        ensures read { IfOk result (λ letters. (numbers : List ℕ) → read_on letters numbers ≡ unpacked (eights numbers)) }
        ensures place { IfOk result (λ letters. letters.codes.place ≡ 0) }
        ensures six { IfOk result (λ letters. IsSix letters.group) }
    {
        Ok(Letters {
            codes: Undoing::with_capacity(alloc, size)?,
            group: Group::Empty,
        })
    }

    /// Takes the next letter, of this number.
    #[tactic(auto, using(crate::proofs::Grouped::second_letter, crate::proofs::Grouped::third_letter, crate::proofs::Grouped::fourth_letter))]
    fn take(&mut self, number: u8) -> Result<(), NoMemory>
        requires number { number < 64 }
        requires place { self.old.codes.place < 2 ^ 40 }
        requires six { IsSix self.old.group }
        ensures read { OnOk result ((numbers : List ℕ) → read_on self.new numbers ≡ read_on self.old (number ∷ numbers)) }
        ensures place { OnOk result (self.new.codes.place ≤ self.old.codes.place + 2) }
        ensures six { OnOk result (IsSix self.new.group) }
    {
        match self.group {
            Group::Empty => self.group = Group::One(number),
            Group::One(first) => {
                self.codes.take(first * 4 + number / 16)?;
                self.group = Group::Two(number);
            }
            Group::Two(second) => {
                self.codes.take(second % 16 * 16 + number / 4)?;
                self.group = Group::Three(number);
            }
            Group::Three(third) => {
                self.codes.take(third % 4 * 64 + number)?;
                self.group = Group::Empty;
            }
        }
        Ok(())
    }

    /// The bytes, where no letter comes after those before.
    fn finish(self) -> Result<Bytes, Stop<BridgeFault>>
        ensures bytes { Gives (read_on self []) result }
        ensures sayable { OnFault result IsSayable }
    {
        let Letters { codes, .. } = self;
        codes.finish()
    }
}
