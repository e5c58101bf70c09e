//! A source that gives its logical lines one by one. What they are is in `specs/Lines`, and what is seen of such a
//! source in `specs/Lexer`.

ghost use Rattle.std.specs.Prelude.{◌≡◌, ◌+◌, ◌<◌, ◌≤◌, ◌^◌, [], length, drop, None, Ok, Err, IfNone, IfOk, IfSome, OnErr};
ghost use Rattle.rz_core.specs.Message.{IsNameable};
ghost use Rattle.rz_core.specs.Stop.{Gives, OnFault};
ghost use Rattle.rz_core.specs.declared.fault.Fault.{Fault};
ghost use Rattle.rz_lex.specs.Joined.{joined};
ghost use Rattle.rz_lex.specs.Lines.{HasLines, HasOpenComment, StandsBefore};

use crate::joined::Position;
use crate::lines::next_line;
use crate::raw_line::RawLine;
use rz_core::{Bytes, Fault, Stop};
use std::alloc::Global;
use std::marker::Model;

/// A source that is read one logical line at a time. It owns the text, and a line is copied when it is asked for, so no
/// more than the text and a line is held. It is seen as the position of the source in the list of files, how many bytes
/// of the text aren't read yet, and the joined text that stands ahead (`Source`).
#[derive(Drop)]
pub struct Lexer {
    text: Bytes,
    at: usize,
    line: u64,
    file: u64,
}

impl Model for Lexer {
    ghost use Rattle.std.specs.Prelude.{◌≤◌, ◌+◌, ◌-◌, ◌^◌, length};
    ghost use Rattle.rz_lex.specs.Lexer.{Source, source_of};

    ghost Value = { Source };

    ghost view = { λ lexer. source_of lexer.file lexer.text lexer.at lexer.line };

    ghost invariant = { λ lexer. (lexer.at ≤ length lexer.text) × (lexer.line + (length lexer.text - lexer.at) ≤ 2 ^ 32) };
}

impl Lexer {
    /// This text, before its first line. `file` is the position of the source in the list of files, for the marks. It
    /// takes no memory.
    pub fn over(text: Bytes, file: u64) -> Lexer
        requires { length text < 2 ^ 32 }
        ensures { result ≡ record { file = file; left = length text; ahead = joined 1 text } }
    {
        Lexer {
            text,
            at: 0,
            line: 1,
            file,
        }
    }

    /// Gives the next logical line, and goes after it. `None` comes exactly at the end of the text. 107 comes exactly
    /// where a comment begins in this line that never ends; its mark is that of the line. At the end, at a fault and
    /// where memory is refused it stays where it is: so the same comes again, or the line if there is memory then. (MPW
    /// Rez: comments, and a backslash at the end of a line.)
    pub fn next(&mut self, alloc: Global) -> Result<Option<RawLine>, Stop<Fault>>
        ensures line { IfOk result (λ read. IfSome read (λ line. StandsBefore self.old.file self.old.ahead line self.new.ahead)) }
        ensures end { IfOk result (λ read. IfNone read (HasLines self.old.file self.old.ahead [] None)) }
        ensures comment { OnFault result (HasOpenComment self.old.file self.old.ahead []) }
        ensures at_end { HasLines self.old.file self.old.ahead [] None → Gives (Ok None) result }
        ensures in_comment { (fault : Fault) → HasOpenComment self.old.file self.old.ahead [] fault → Gives (Err fault) result }
        ensures stays { IfOk result (λ read. IfNone read (self.new ≡ self.old)) }
        ensures err { OnErr result (self.new ≡ self.old) }
        ensures file { self.new.file ≡ self.old.file }
        ensures shorter { IfOk result (λ read. IfSome read (λ line. self.new.left < self.old.left)) }
        ensures mark { IfOk result (λ read. IfSome read (λ line. line.mark.file ≡ self.old.file)) }
        ensures nameable { OnFault result (IsNameable (self.old.file + 1)) }
    {
        let start = stand_at(self.text.as_slice(), self.at, self.line);
        match next_line(alloc, self.file, start)? {
            Some((line, after)) => {
                let (left, number) = (after.rest.len(), after.line);
                self.at = self.text.as_slice().len() - left;
                self.line = number;
                Ok(Some(line))
            }
            None => Ok(None),
        }
    }
}

/// The position after so many bytes of a text.
fn stand_at(text: &[u8], at: usize, line: u64) -> Position
    requires { at ≤ length text.now }
    ensures rest { result.rest.now ≡ drop at text.entry.now }
    ensures line { result.line ≡ line }
{
    Position {
        rest: &text[at..],
        line,
    }
}
