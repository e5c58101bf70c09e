//! The acts of logical lines, from nothing to the end of a conditional; a new act changes `specs/Line` too.

use crate::conditional::Part;
use rz_core::{Bytes, Word};
use rz_lex::Tokens;

/// What a logical line does.
#[derive(Debug, Drop)]
pub enum Act {
    /// Nothing.
    Nothing,
    /// It puts out tokens, whose macros are replaced.
    Put(Tokens),
    /// It includes the file of this name, in Mac Roman.
    Include(Bytes),
    /// It lets a word stand for tokens, or for itself.
    Set(Word, Option<Tokens>),
    /// It begins a conditional with this part.
    Begin(Part),
    /// It goes to the next part of the innermost conditional, which is the part after `#else` or not.
    Turn(Part, bool),
    /// It ends the innermost conditional.
    End,
}
