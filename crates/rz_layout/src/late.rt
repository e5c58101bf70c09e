//! Late numbers: those that are computed after all others. What they are is in `specs/Late`.

ghost use Rattle.std.specs.Prelude.{◌≡◌, ◌<◌, ◌^◌, ◌++◌, OnOk};
ghost use Rattle.rz_layout.specs.Laid.{IsNotedBy};
ghost use Rattle.rz_types_fields.specs.Known.{known};
ghost use Rattle.rz_types_fields.specs.Laid.{placed};
ghost use Rattle.rz_types_fields.specs.Passed.{stands_at};
ghost use Rattle.rz_types_fields.specs.Piece.{Place};

use rz_core::{Listing, NoMemory, Word};
use rz_expr::Expr;
use rz_types_fields::{Note, Notes, NumForm};

/// A number that is computed after all others.
#[derive(Drop)]
pub struct LateNumber<'a> {
    /// Its piece.
    pub piece: u64,
    /// The place of its bits.
    pub at: u32,
    /// Its type.
    pub form: NumForm,
    /// Its width in bits.
    pub width: i32,
    /// Its expression.
    pub term: &'a Expr,
}

/// What is computed after all other numbers.
#[derive(Drop)]
pub enum Late<'a> {
    /// A number.
    Number(LateNumber<'a>),
    /// Those of a body within that has names, with what was noted of these up to its end.
    Inside(Vec<Note<'a>>, Listing<Late<'a>>),
}

/// Late numbers, in order.
pub type Lates<'a> = Listing<Late<'a>>;

/// Appends notes to others.
pub fn push_notes<'a>(own: Vec<Note<'a>>, into: &mut Notes<'a>) -> Result<(), NoMemory>
    ensures { OnOk result (into.new.items ≡ into.old.items ++ own.entry.items) }
{
    for note in own {
        into.push(note)?;
    }
    Ok(())
}

/// Appends late numbers to others.
pub fn push_lates<'a>(inner: Lates<'a>, into: &mut Lates<'a>) -> Result<(), NoMemory>
    ensures { OnOk result (into.new ≡ into.old ++ inner.entry) }
{
    for late in inner.into_vec() {
        into.push(late)?;
    }
    Ok(())
}

/// Notes the place of a label.
pub fn note_place<'a>(name: &'a Word, at: u32, notes: &mut Notes<'a>) -> Result<(), NoMemory>
    requires { at < 2 ^ 31 }
    ensures known { OnOk result (known notes.new.items ≡ placed (Place name.now) at (known notes.old.items)) }
    ensures noted { OnOk result (IsNotedBy (stands_at name.now.bytes) notes.old.items notes.new.items) }
{
    notes.push(Note::Placed(name, at as i32))?;
    Ok(())
}
