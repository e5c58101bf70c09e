//! What is learnt while a resource is read: of names, and of late bits.

ghost use Rattle.std.specs.Prelude.{◌≡◌, ◌+◌, ◌<◌, ◌≤◌, ◌^◌, [], length, OnOk};
ghost use Rattle.rz_types_fields.specs.Sees.{marked};
ghost use Rattle.rz_unlay_pieces.specs.Pieces.{late_behind};

use rz_bits::BitBuf;
use rz_core::NoMemory;
use rz_types_fields::Notes;
use std::alloc::Global;

/// What is learnt of names and of late bits.
#[derive(Drop)]
pub struct Learnt<'a> {
    /// What was noted of names, the oldest first.
    pub notes: Notes<'a>,
    /// A mark for each bit up to the last late one: whether it is late.
    pub marks: BitBuf,
}

impl<'a> Learnt<'a> {
    /// Nothing. It takes no memory.
    pub fn new(alloc: Global) -> Learnt<'a>
        ensures notes { result.notes.items ≡ [] }
        ensures marks { result.marks ≡ [] }
    {
        Learnt {
            notes: Notes::new(alloc),
            marks: BitBuf::new(alloc),
        }
    }
}

/// So many bits from a place on are late, or aren't; no bit from there on was late before.
pub fn mark_bits(late: bool, at: u32, width: u32, marks: &mut BitBuf) -> Result<(), NoMemory>
    requires before { length marks.old ≤ at }
    requires room { at + width < 2 ^ 31 }
    ensures marks { OnOk result (marked (at + width) marks.new ≡ late_behind (marked at marks.old) width late) }
    ensures few { OnOk result (length marks.new ≤ at + width) }
{
    if late {
        let gap = at - marks.len();
        marks.push_many(false, gap)?;
        marks.push_many(true, width)
    } else {
        Ok(())
    }
}
